//! Writing the lines of a model file.
ghost use Rattle.std.specs.Prelude.{◌≡◌, ◌++◌, codes, map, OnOk};
ghost use Rattle.std.specs.List.{flat_map, list_any};
ghost use Rattle.model_parse.specs.believed.Written.{joined};
ghost use Rattle.acts_front.specs.believed.Constraints.{is_arrow};
ghost use Rattle.acts_front.specs.Reading.{token_seen, tokens_seen};
ghost use Rattle.acts_front.specs.believed.Translation.{constraint_text, opening, rel_text, token_text, truth_text};

use crate::token::Token;
use cov_model::Rel;
use value_text::NoMemory;

/// TRUE or FALSE.
pub(crate) fn truth_text(truth: bool) -> &'static [u8]
    ensures { result.now ≡ truth_text truth }
{
    if truth { b"TRUE" } else { b"FALSE" }
}

// Adds texts, each behind a comma and a blank.
fn put_behind_commas(out: &mut Vec<u8>, texts: &[&[u8]]) -> Result<(), NoMemory>
    ensures { OnOk result (out.new.items ≡ out.old.items ++ flat_map (λ text. codes ", " ++ text.now) texts.now) }
{
    for text in texts {
        out.extend_from_slice(b", ")?;
        out.extend_from_slice(text)?;
    }
    Ok(())
}

/// Adds texts, with a comma and a blank between two.
pub(crate) fn put_list(out: &mut Vec<u8>, texts: &[&[u8]]) -> Result<(), NoMemory>
    ensures { OnOk result (out.new.items ≡ out.old.items ++ joined (codes ", ") (map (λ text. text.now) texts.now)) }
{
    let [first, others @ ..] = texts else {
        return Ok(());
    };
    out.extend_from_slice(first)?;
    put_behind_commas(out, others)
}

/// Ends a line.
pub(crate) fn end_line(out: &mut Vec<u8>) -> Result<(), NoMemory>
    ensures { OnOk result (out.new.items ≡ out.old.items ++ codes "\n") }
{
    out.extend_from_slice(b"\n")?;
    Ok(())
}

// A relation of a constraint.
fn rel_text(rel: Rel) -> &'static [u8]
    ensures { result.now ≡ rel_text rel }
{
    match rel {
        Rel::Eq => b"=",
        Rel::Ne => b"<>",
        Rel::Gt => b">",
        Rel::Ge => b">=",
        Rel::Lt => b"<",
        Rel::Le => b"<=",
    }
}

// What stands before the text of a token, the text, and what stands behind it.
fn token_parts<'a>(token: &Token<'a>) -> (&'a [u8], &'a [u8], &'a [u8])
    ensures { result.0.now ++ (result.1.now ++ result.2.now) ≡ token_text (token_seen token.now) }
{
    match token {
        Token::Name(name) => (b"[", name, b"]"),
        Token::Whole(number) => (b"", number, b""),
        Token::Words(words) => (b"\"", words, b"\""),
        Token::Truth(truth) => (b"\"", truth_text(*truth), b"\""),
        Token::Relation(rel) => (b"", rel_text(*rel), b""),
        Token::Arrow => (b"", b"THEN", b""),
        Token::Or => (b"", b"OR", b""),
        Token::And => (b"", b"AND", b""),
        Token::Not => (b"", b"NOT", b""),
        Token::Open => (b"", b"(", b""),
        Token::Close => (b"", b")", b""),
    }
}

// Adds a token.
fn put_token(out: &mut Vec<u8>, token: &Token<'_>) -> Result<(), NoMemory>
    ensures { OnOk result (out.new.items ≡ out.old.items ++ token_text (token_seen token.now)) }
{
    let (before, text, behind) = token_parts(token);
    out.extend_from_slice(before)?;
    out.extend_from_slice(text)?;
    out.extend_from_slice(behind)?;
    Ok(())
}

// Adds tokens, each behind a blank.
fn put_behind_blanks(out: &mut Vec<u8>, tokens: &[Token<'_>]) -> Result<(), NoMemory>
    ensures { OnOk result (out.new.items ≡ out.old.items ++ flat_map (λ token. codes " " ++ token_text (token_seen token)) tokens.now) }
{
    for token in tokens {
        out.extend_from_slice(b" ")?;
        put_token(out, token)?;
    }
    Ok(())
}

// Adds tokens, with a blank between two.
fn put_tokens(out: &mut Vec<u8>, tokens: &[Token<'_>]) -> Result<(), NoMemory>
    ensures { OnOk result (out.new.items ≡ out.old.items ++ joined (codes " ") (map token_text (tokens_seen tokens.now))) }
{
    let [first, others @ ..] = tokens else {
        return Ok(());
    };
    put_token(out, first)?;
    put_behind_blanks(out, others)
}

// Whether one of some tokens is `=>`.
fn has_arrow(tokens: &[Token<'_>]) -> bool
    ensures { result ≡ list_any (λ token. is_arrow (token_seen token)) tokens.now }
{
    tokens.iter().any(|token| matches!(token, Token::Arrow))
}

// Adds IF before the tokens of a constraint that has `=>`.
fn put_opening(out: &mut Vec<u8>, tokens: &[Token<'_>]) -> Result<(), NoMemory>
    ensures { OnOk result (out.new.items ≡ out.old.items ++ opening (tokens_seen tokens.now)) }
{
    if has_arrow(tokens) {
        out.extend_from_slice(b"IF ")?;
    }
    Ok(())
}

/// Adds the constraint of some tokens.
pub(crate) fn put_constraint(out: &mut Vec<u8>, tokens: &[Token<'_>]) -> Result<(), NoMemory>
    ensures { OnOk result (out.new.items ≡ out.old.items ++ constraint_text (tokens_seen tokens.now)) }
{
    put_opening(out, tokens)?;
    put_tokens(out, tokens)?;
    out.extend_from_slice(b";")?;
    Ok(())
}
