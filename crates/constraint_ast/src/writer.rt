ghost use Rattle.std.specs.Prelude.{◌≡◌, ◌<◌, ◌+◌, ◌^◌, ◌++◌, ◌∷◌, ◌||◌, [], false, true, if◌then◌else◌, IfOk, OnOk};
ghost use Rattle.std.specs.String.{string_bytes};
ghost use Rattle.constraint_ast.specs.believed.RuleText.{all_has_parens, any_has_parens, body_tokens, decimals, fraction, literals_before, number_text};
ghost use Rattle.constraint_ast.specs.believed.RuleText.{quoted, relation_text, rule_text, size_text, term_before, tree_before, trees_before};
ghost use Rattle.constraint_ast.specs.Trees.{body_tree, rule_tree, tree_of, trees_in};
ghost use Rattle.constraint_ast.specs.Writing.{Puts, Writes, closed_if, if_tokens, line_with, opened_if};

use crate::quoting::is_quotable;
use crate::token::{RuleToken, Sign};
use crate::tree::{RawBody, RawLiteral, RawPred, RawRel, RawRule, RawTerm};
use std::alloc::Global;
use value_text::{Fixed, NoMemory, Text};

/// What a predicate stands in.
#[derive(Debug, Drop, Clone, Copy, PartialEq, Eq)]
pub enum Place {
    /// In nothing.
    Alone,
    /// In an `Any`.
    InAny,
    /// In an `All` or a `Not`.
    InAllOrNot,
}

/// A line that is being written.
#[derive(Drop)]
pub struct Line {
    /// What is written of it.
    pub text: String,
    /// Whether nothing is written, or `(` or `{` last.
    pub opened: bool,
}

// ---- texts

// Adds a text.
fn push(out: &mut String, text: &str) -> Result<(), NoMemory>
    ensures { OnOk result (string_bytes out.new ≡ string_bytes out.old ++ text.now) }
{
    out.push_str(text)?;
    Ok(())
}

// Adds a text with a backslash before each `"`, `]` and backslash.
fn push_quoted(out: &mut String, text: &str) -> Result<(), NoMemory>
    ensures { OnOk result (string_bytes out.new ≡ string_bytes out.old ++ quoted text.now) }
{
    let mut start = 0;
    let mut at = 0;
    while at < text.len() {
        if is_quotable(text.as_bytes()[at]) {
            push(out, &text[start..at])?;
            push(out, "\\")?;
            start = at;
            at += 1;
        } else {
            at += 1;
        }
    }
    push(out, &text[start..])
}

// Adds a digit.
fn push_digit(out: &mut String, digit: u8) -> Result<(), NoMemory>
    requires { digit < 10 }
    ensures { OnOk result (string_bytes out.new ≡ string_bytes out.old ++ (48 + digit) ∷ []) }
{
    out.push(char::from(b'0' + digit))?;
    Ok(())
}

// Adds nine decimals, up to the last that isn't 0.
fn push_decimals(out: &mut String, fraction: u32) -> Result<(), NoMemory>
    requires { fraction < 10 ^ 9 }
    ensures { OnOk result (string_bytes out.new ≡ string_bytes out.old ++ decimals 9 fraction) }
{
    let mut places = 9;
    let mut left = fraction;
    while left > 0 {
        places -= 1;
        let unit = 10u32.pow(places);
        push_digit(out, (left / unit) as u8)?;
        left %= unit;
    }
    Ok(())
}

// Adds a point and decimals, where one of them isn't 0.
fn push_fraction(out: &mut String, decimals: u32) -> Result<(), NoMemory>
    requires { decimals < 10 ^ 9 }
    ensures { OnOk result (string_bytes out.new ≡ string_bytes out.old ++ fraction decimals) }
{
    if decimals == 0 {
        return Ok(());
    }
    push(out, ".")?;
    push_decimals(out, decimals)
}

// Adds a number from 0 on that is scaled by 10^9.
fn push_size(alloc: Global, out: &mut String, size: u128) -> Result<(), NoMemory>
    ensures { OnOk result (string_bytes out.new ≡ string_bytes out.old ++ size_text size) }
{
    let whole = size / 1_000_000_000;
    match format!(in alloc; "{whole}") {
        Ok(text) => push(out, text.as_str())?,
        Err(_) => return Err(NoMemory),
    }
    push_fraction(out, (size % 1_000_000_000) as u32)
}

// Adds a number.
fn push_number(alloc: Global, out: &mut String, number: Fixed) -> Result<(), NoMemory>
    ensures { OnOk result (string_bytes out.new ≡ string_bytes out.old ++ number_text number) }
{
    let scaled = number.scaled();
    if scaled < 0 {
        push(out, "-")?;
        push_size(alloc, out, scaled.unsigned_abs())
    } else {
        push_size(alloc, out, scaled as u128)
    }
}

// How a relation is written.
fn relation_text(rel: RawRel) -> &'static str
    ensures { result.now ≡ relation_text rel }
{
    match rel {
        RawRel::Eq => "=",
        RawRel::Ne => "<>",
        RawRel::Gt => ">",
        RawRel::Ge => ">=",
        RawRel::Lt => "<",
        RawRel::Le => "<=",
    }
}

// ---- tokens

// Begins a token: with a blank, unless the token before it or its own kind takes none.
fn begin(line: &mut Line, closing: bool) -> Result<(), NoMemory>
    ensures { OnOk result (string_bytes line.new.text ≡ string_bytes line.old.text ++ (if line.old.opened || closing then [] else 32 ∷ [])) }
{
    if line.opened || closing {
        Ok(())
    } else {
        push(&mut line.text, " ")
    }
}

// Writes a word or a relation.
fn put_word(line: &mut Line, word: &str) -> Result<(), NoMemory>
    ensures { OnOk result (Puts line.old line.new false false word.now) }
{
    begin(line, false)?;
    line.opened = false;
    push(&mut line.text, word)
}

// Writes `(` or `{`.
fn put_opening(line: &mut Line, mark: &str) -> Result<(), NoMemory>
    ensures { OnOk result (Puts line.old line.new false true mark.now) }
{
    begin(line, false)?;
    line.opened = true;
    push(&mut line.text, mark)
}

// Writes `)`, `}`, `,` or `;`.
fn put_closing(line: &mut Line, mark: &str) -> Result<(), NoMemory>
    ensures { OnOk result (Puts line.old line.new true false mark.now) }
{
    begin(line, true)?;
    line.opened = false;
    push(&mut line.text, mark)
}

// Writes a name or a text between its marks.
fn put_quoted(line: &mut Line, mark: &str, text: &str, last_mark: &str) -> Result<(), NoMemory>
    ensures { OnOk result (Puts line.old line.new false false (mark.now ++ (quoted text.now ++ last_mark.now))) }
{
    begin(line, false)?;
    line.opened = false;
    push(&mut line.text, mark)?;
    push_quoted(&mut line.text, text)?;
    push(&mut line.text, last_mark)
}

// Writes a number.
fn put_number(alloc: Global, line: &mut Line, number: Fixed) -> Result<(), NoMemory>
    ensures { OnOk result (Puts line.old line.new false false (number_text number)) }
{
    begin(line, false)?;
    line.opened = false;
    push_number(alloc, &mut line.text, number)
}

// Writes a name.
fn put_name(line: &mut Line, name: &Text) -> Result<(), NoMemory>
    ensures { OnOk result (Writes line.old line.new (λ rest. RuleToken.Name name.now ∷ rest)) }
{
    put_quoted(line, "[", name.as_str(), "]")
}

// Writes a text.
fn put_text(line: &mut Line, text: &Text) -> Result<(), NoMemory>
    ensures { OnOk result (Writes line.old line.new (λ rest. RuleToken.Literal (RawLiteral.Words text.now) ∷ rest)) }
{
    put_quoted(line, "\"", text.as_str(), "\"")
}

// Writes a literal.
fn put_literal(alloc: Global, line: &mut Line, literal: &RawLiteral) -> Result<(), NoMemory>
    ensures { OnOk result (Writes line.old line.new (λ rest. RuleToken.Literal literal.now ∷ rest)) }
{
    match literal {
        RawLiteral::Words(text) => put_text(line, text),
        RawLiteral::Number(number) => put_number(alloc, line, *number),
    }
}

// Writes a token.
fn put(alloc: Global, line: &mut Line, token: &RuleToken) -> Result<(), NoMemory>
    ensures { OnOk result (Writes line.old line.new (λ rest. token.now ∷ rest)) }
{
    match token {
        RuleToken::Name(name) => put_name(line, name),
        RuleToken::Literal(literal) => put_literal(alloc, line, literal),
        RuleToken::Relation(rel) => put_word(line, relation_text(*rel)),
        RuleToken::If => put_word(line, "IF"),
        RuleToken::Then => put_word(line, "THEN"),
        RuleToken::Else => put_word(line, "ELSE"),
        RuleToken::And => put_word(line, "AND"),
        RuleToken::Or => put_word(line, "OR"),
        RuleToken::Not => put_word(line, "NOT"),
        RuleToken::In => put_word(line, "IN"),
        RuleToken::Like => put_word(line, "LIKE"),
        RuleToken::Sign(Sign::Negative) => put_word(line, "ISNEGATIVE"),
        RuleToken::Sign(Sign::Positive) => put_word(line, "ISPOSITIVE"),
        RuleToken::OpenParen => put_opening(line, "("),
        RuleToken::CloseParen => put_closing(line, ")"),
        RuleToken::OpenBrace => put_opening(line, "{"),
        RuleToken::CloseBrace => put_closing(line, "}"),
        RuleToken::Comma => put_closing(line, ","),
        RuleToken::Semicolon => put_closing(line, ";"),
    }
}

// ---- trees

// Writes literals with commas between them.
fn put_literals(alloc: Global, line: &mut Line, literals: &[RawLiteral]) -> Result<(), NoMemory>
    ensures { OnOk result (Writes line.old line.new (literals_before literals.now)) }
{
    if let [first, more @ ..] = literals {
        put_literal(alloc, line, first)?;
        for literal in more {
            put(alloc, line, &RuleToken::Comma)?;
            put_literal(alloc, line, literal)?;
        }
    }
    Ok(())
}

// Writes a sign term.
fn put_signed(alloc: Global, line: &mut Line, sign: Sign, name: &Text) -> Result<(), NoMemory>
    ensures { OnOk result (Writes line.old line.new (λ rest. RuleToken.Sign sign ∷ RuleToken.OpenParen ∷ RuleToken.Name name.now ∷ RuleToken.CloseParen ∷ rest)) }
{
    put(alloc, line, &RuleToken::Sign(sign))?;
    put(alloc, line, &RuleToken::OpenParen)?;
    put_name(line, name)?;
    put(alloc, line, &RuleToken::CloseParen)
}

// Writes a term.
fn put_term(alloc: Global, line: &mut Line, term: &RawTerm) -> Result<(), NoMemory>
    ensures { OnOk result (Writes line.old line.new (term_before term.now)) }
{
    match term {
        RawTerm::ValueIs(name, rel, literal) => {
            put_name(line, name)?;
            put(alloc, line, &RuleToken::Relation(*rel))?;
            put_literal(alloc, line, literal)
        }
        RawTerm::ParamIs(name, rel, other) => {
            put_name(line, name)?;
            put(alloc, line, &RuleToken::Relation(*rel))?;
            put_name(line, other)
        }
        RawTerm::OneOf(name, literals) => {
            put_name(line, name)?;
            put(alloc, line, &RuleToken::In)?;
            put(alloc, line, &RuleToken::OpenBrace)?;
            put_literals(alloc, line, literals.as_slice())?;
            put(alloc, line, &RuleToken::CloseBrace)
        }
        RawTerm::Like(name, pattern) => {
            put_name(line, name)?;
            put(alloc, line, &RuleToken::Like)?;
            put_text(line, pattern)
        }
        RawTerm::Negative(name) => put_signed(alloc, line, Sign::Negative, name),
        RawTerm::Positive(name) => put_signed(alloc, line, Sign::Positive, name),
    }
}

// Whether parentheses stand round an `All`.
fn all_has_parens(place: Place) -> bool
    ensures { result ≡ all_has_parens place }
{
    place == Place::InAllOrNot
}

// Whether parentheses stand round an `Any`.
fn any_has_parens(place: Place) -> bool
    ensures { result ≡ any_has_parens place }
{
    place != Place::Alone
}

// Writes `(` where parentheses stand.
fn put_open(alloc: Global, line: &mut Line, parens: bool) -> Result<(), NoMemory>
    ensures { OnOk result (Writes line.old line.new (opened_if parens)) }
{
    if parens {
        put(alloc, line, &RuleToken::OpenParen)
    } else {
        Ok(())
    }
}

// Writes `)` where parentheses stand.
fn put_close(alloc: Global, line: &mut Line, parens: bool) -> Result<(), NoMemory>
    ensures { OnOk result (Writes line.old line.new (closed_if parens)) }
{
    if parens {
        put(alloc, line, &RuleToken::CloseParen)
    } else {
        Ok(())
    }
}

// Writes predicates with a word between them.
#[cycle(write)]
fn put_parts(
    alloc: Global,
    line: &mut Line,
    word: &RuleToken,
    place: Place,
    parts: &[RawPred],
) -> Result<(), NoMemory>
    ensures { OnOk result (Writes line.old line.new (trees_before word.now place (trees_in parts.now))) }
{
    if let [first, more @ ..] = parts {
        put_pred(alloc, line, place, first)?;
        for part in more {
            put(alloc, line, word)?;
            put_pred(alloc, line, place, part)?;
        }
    }
    Ok(())
}

// Writes a predicate.
#[cycle(write)]
fn put_pred(alloc: Global, line: &mut Line, place: Place, pred: &RawPred) -> Result<(), NoMemory>
    ensures { OnOk result (Writes line.old line.new (tree_before place (tree_of pred.now))) }
{
    match pred {
        RawPred::Term(_, term) => put_term(alloc, line, term),
        RawPred::Not(inner) => {
            put(alloc, line, &RuleToken::Not)?;
            put_pred(alloc, line, Place::InAllOrNot, inner)
        }
        RawPred::All(parts) => {
            let parens = all_has_parens(place);
            put_open(alloc, line, parens)?;
            put_parts(
                alloc,
                line,
                &RuleToken::And,
                Place::InAllOrNot,
                parts.as_slice(),
            )?;
            put_close(alloc, line, parens)
        }
        RawPred::Any(parts) => {
            let parens = any_has_parens(place);
            put_open(alloc, line, parens)?;
            put_parts(alloc, line, &RuleToken::Or, Place::InAny, parts.as_slice())?;
            put_close(alloc, line, parens)
        }
    }
}

// Writes IF and THEN with their predicates.
fn put_if(alloc: Global, line: &mut Line, premise: &RawPred, pred: &RawPred) -> Result<(), NoMemory>
    ensures { OnOk result (Writes line.old line.new (if_tokens (tree_of premise.now) (tree_of pred.now))) }
{
    put(alloc, line, &RuleToken::If)?;
    put_pred(alloc, line, Place::Alone, premise)?;
    put(alloc, line, &RuleToken::Then)?;
    put_pred(alloc, line, Place::Alone, pred)
}

// Writes a body, to its `;`.
fn put_body(alloc: Global, line: &mut Line, body: &RawBody) -> Result<(), NoMemory>
    ensures { OnOk result (line_with line.old (body_tokens (body_tree body.now)) ≡ line_with line.new []) }
{
    match body {
        RawBody::Plain(pred) => {
            put_pred(alloc, line, Place::Alone, pred)?;
            put(alloc, line, &RuleToken::Semicolon)
        }
        RawBody::IfThen(premise, pred) => {
            put_if(alloc, line, premise, pred)?;
            put(alloc, line, &RuleToken::Semicolon)
        }
        RawBody::IfElse(premise, pred, other) => {
            put_if(alloc, line, premise, pred)?;
            put(alloc, line, &RuleToken::Else)?;
            put_pred(alloc, line, Place::Alone, other)?;
            put(alloc, line, &RuleToken::Semicolon)
        }
    }
}

/// The line of a constraint (the language of PICT's guide, written by this project's rules). Of a
/// constraint that a model file spells, it is one line, and read by itself it spells the same
/// constraint.
///
/// One blank stands between two tokens, but none behind `(` and `{`, and none before `)`, `}`, `,`
/// and `;`. Parentheses stand round an `All` in an `All` or a `Not`, round an `Any` in an `Any`, an
/// `All` or a `Not`, and round the name of a sign term, and nowhere else. A backslash stands before
/// each `"`, `]` and backslash of a name or a text, and numbers have no needless zeros.
///
/// # Errors
///
/// `NoMemory` where memory was refused.
pub fn rule_text(alloc: Global, rule: &RawRule) -> Result<Text, NoMemory>
    ensures { IfOk result (λ text. text ≡ rule_text (rule_tree rule.now)) }
{
    let mut line = Line {
        text: String::new(alloc),
        opened: true,
    };
    put_body(alloc, &mut line, &rule.body)?;
    Text::copy(alloc, line.text.as_str())
}
