ghost use Rattle.constraint_ast.specs.declared.token.LineToken.{LineToken};
ghost use Rattle.std.specs.Prelude.{List, ◌≡◌, ◌≤◌, ◌<◌, ◌-◌, slice_index, ◌++◌, ℕ, Ok, Err, length, map, IfOk, IfErr, OnOk};
ghost use Rattle.model_lex.specs.Sections.{line_seen};
ghost use Rattle.model_lex.specs.Tokens.{HasMarks};
ghost use Rattle.constraint_ast.specs.Reading.{IfRefused};
ghost use Rattle.constraint_ast.specs.believed.Lexing.{inside, keyword_of, punctuation_of, meant, relation_of, tokens_in, tokens_of};

use crate::quoting::unquoted;
use crate::token::{LineToken, LineTokenList, RuleToken, Sign};
use crate::tree::{RawLiteral, RawRel};
use model_lex::{Diag, DiagCode, Lexed, ModelFault, NumLine, TokenKind, next_token, trimmed};
use std::alloc::Global;
use value_text::{FixedAnswer, OwnedList, read_fixed};

// The refusal of a token at a line.
fn bad(line: u32, code: DiagCode) -> ModelFault
    ensures { result ≡ ModelFault.BadRule (record { line = line; code = code }) }
{
    ModelFault::BadRule(Diag { line, code })
}

// The keyword that a word is.
fn keyword(word: &str) -> Option<RuleToken>
    ensures { result ≡ keyword_of word.now }
{
    if word.eq_ignore_ascii_case("IF") {
        Some(RuleToken::If)
    } else if word.eq_ignore_ascii_case("THEN") {
        Some(RuleToken::Then)
    } else if word.eq_ignore_ascii_case("ELSE") {
        Some(RuleToken::Else)
    } else if word.eq_ignore_ascii_case("AND") {
        Some(RuleToken::And)
    } else if word.eq_ignore_ascii_case("OR") {
        Some(RuleToken::Or)
    } else if word.eq_ignore_ascii_case("NOT") {
        Some(RuleToken::Not)
    } else if word.eq_ignore_ascii_case("IN") {
        Some(RuleToken::In)
    } else if word.eq_ignore_ascii_case("LIKE") {
        Some(RuleToken::Like)
    } else if word.eq_ignore_ascii_case("ISNEGATIVE") {
        Some(RuleToken::Sign(Sign::Negative))
    } else if word.eq_ignore_ascii_case("ISPOSITIVE") {
        Some(RuleToken::Sign(Sign::Positive))
    } else {
        None
    }
}

// The relation that a text writes.
fn relation(text: &[u8]) -> Option<RawRel>
    ensures { result ≡ relation_of text.now }
{
    match text {
        [b'='] => Some(RawRel::Eq),
        [b'<', b'>'] => Some(RawRel::Ne),
        [b'>'] => Some(RawRel::Gt),
        [b'>', b'='] => Some(RawRel::Ge),
        [b'<'] => Some(RawRel::Lt),
        [b'<', b'='] => Some(RawRel::Le),
        _ => None,
    }
}

// The mark that a text is.
fn mark(text: &[u8]) -> Option<RuleToken>
    ensures { result ≡ punctuation_of text.now }
{
    match text {
        [b'('] => Some(RuleToken::OpenParen),
        [b')'] => Some(RuleToken::CloseParen),
        [b'{'] => Some(RuleToken::OpenBrace),
        [b'}'] => Some(RuleToken::CloseBrace),
        [b','] => Some(RuleToken::Comma),
        [b';'] => Some(RuleToken::Semicolon),
        _ => None,
    }
}

// A text without its first and its last byte.
fn inside(text: &str) -> &str
    requires both { 2 ≤ length text.now }
    requires first { slice_index text.now 0 < 128 }
    requires last { slice_index text.now (length text.now - 1) < 128 }
    ensures { result.now ≡ inside text.now }
{
    &text[1..text.len() - 1]
}

// What a token means, given its text.
fn rule_token(
    alloc: Global,
    line: u32,
    kind: TokenKind,
    text: &str,
) -> Result<RuleToken, ModelFault>
    requires { HasMarks text.now (record { kind = kind; start = 0; end = length text.now }) }
    ensures ok { IfOk result (λ token. meant kind text.now ≡ Ok token) }
    ensures err { IfErr result (λ fault. IfRefused fault (λ diag. (diag.line ≡ line) × (meant kind text.now ≡ Err diag.code))) }
{
    match kind {
        TokenKind::Name => Ok(RuleToken::Name(unquoted(alloc, trimmed(inside(text)))?)),
        TokenKind::Words => {
            let words = unquoted(alloc, inside(text))?;
            Ok(RuleToken::Literal(RawLiteral::Words(words)))
        }
        TokenKind::Number => match read_fixed(text) {
            FixedAnswer::Number(number) => Ok(RuleToken::Literal(RawLiteral::Number(number))),
            FixedAnswer::NotNumber => Err(bad(line, DiagCode::BadNumber)),
            FixedAnswer::TooWide => Err(bad(line, DiagCode::NumberTooWide)),
        },
        TokenKind::Word => keyword(text).ok_or(bad(line, DiagCode::UnknownWord)),
        TokenKind::Relation => match relation(text.as_bytes()) {
            Some(rel) => Ok(RuleToken::Relation(rel)),
            None => Err(bad(line, DiagCode::StrayCharacter)),
        },
        TokenKind::Mark => mark(text.as_bytes()).ok_or(bad(line, DiagCode::StrayCharacter)),
    }
}

// Adds the tokens of a line.
fn read_line(
    alloc: Global,
    number: u32,
    text: &str,
    tokens: &mut LineTokenList,
) -> Result<(), ModelFault>
    ensures ok { OnOk result ((read : List LineToken) × (tokens_in number 0 text.now ≡ Ok read) × (tokens.new ≡ tokens.old ++ read)) }
    ensures err { IfErr result (λ fault. IfRefused fault (λ diag. tokens_in number 0 text.now ≡ Err diag)) }
{
    let mut at = 0;
    loop {
        match next_token(text, at) {
            Lexed::End => return Ok(()),
            Lexed::Bad(code) => return Err(bad(number, code)),
            Lexed::Token(found) => {
                let token = rule_token(alloc, number, found.kind, &text[found.start..found.end])?;
                tokens.push(LineToken {
                    line: number,
                    token,
                })?;
                at = found.end;
            }
        }
    }
}

/// The tokens of constraint lines, in order.
///
/// # Errors
///
/// `BadRule` with the first that is none, and `NoMemory` where memory was refused.
pub fn read_tokens(alloc: Global, lines: &[NumLine<'_>]) -> Result<LineTokenList, ModelFault>
    ensures ok { IfOk result (λ tokens. tokens_of (map line_seen lines.now) ≡ Ok tokens) }
    ensures err { IfErr result (λ fault. IfRefused fault (λ diag. tokens_of (map line_seen lines.now) ≡ Err diag)) }
{
    let mut tokens = OwnedList::new(alloc);
    for line in lines {
        read_line(alloc, line.line, line.text, &mut tokens)?;
    }
    Ok(tokens)
}
