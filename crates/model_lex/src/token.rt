ghost use Rattle.std.specs.Prelude.{◌≡◌, ◌+◌, ◌≤◌, drop};
ghost use Rattle.std.specs.List.{prefix_len};
ghost use Rattle.std.specs.Str.{IsCharBoundary};
ghost use Rattle.value_text.specs.believed.Texts.{is_blank};
ghost use Rattle.model_lex.specs.Tokens.{HasMarks, IfToken, StandsIn, token_at};

use crate::bytes::blank_len;
use crate::diag::DiagCode;
use crate::scan::first_token;

/// What a token of a constraint is (PICT's guide).
#[derive(Debug, Drop, Clone, Copy, PartialEq, Eq)]
pub enum TokenKind {
    /// A parameter's name in brackets.
    Name,
    /// A text in quotes.
    Words,
    /// A number.
    Number,
    /// A keyword.
    Word,
    /// `=`, `<>`, `>`, `>=`, `<` or `<=`.
    Relation,
    /// `(`, `)`, `{`, `}`, `,` or `;`.
    Mark,
}

/// A token of a line: what it is, and where it stands. A name has its brackets, and a text its quotes.
#[derive(Debug, Drop, Clone, Copy, PartialEq, Eq)]
pub struct Token {
    /// What it is.
    pub kind: TokenKind,
    /// The place of its first byte.
    pub start: usize,
    /// The place behind its last byte.
    pub end: usize,
}

/// What stands next in a line.
#[derive(Debug, Drop, Clone, Copy, PartialEq, Eq)]
pub enum Lexed {
    /// A token.
    Token(Token),
    /// Blanks alone, or nothing.
    End,
    /// No token, for this reason.
    Bad(DiagCode),
}

// The place behind the blanks that begin at a place.
fn token_start(line: &str, at: usize) -> usize
    requires { IsCharBoundary line.now at }
    ensures value { result ≡ at + prefix_len is_blank (drop at line.now) }
    ensures behind { at ≤ result }
    ensures cut { IsCharBoundary line.now result }
{
    at + blank_len(&line.as_bytes()[at..])
}

/// The next token of a constraint line behind the blanks that begin at a place: the longest that
/// stands there. `End` comes exactly where only blanks are left. A line may be cut at the ends of a
/// token, and the search for the next one may go on there. Takes no memory (PICT's guide; quoting
/// and codes are this project's rules).
///
/// `Bad` comes with `StrayCharacter` for a character that begins no token, with `NameNotClosed` and
/// `TextNotClosed` for a name or a text without its closing mark, with `BadNumber` and
/// `NumberTooWide` for a run that begins as a number and is none, or one with too many digits, and
/// with `UnknownWord` for a word that is no keyword.
pub fn next_token(line: &str, at: usize) -> Lexed
    requires { IsCharBoundary line.now at }
    ensures answer { result ≡ token_at line.now at }
    ensures span { IfToken result (StandsIn line.now at) }
    ensures marks { IfToken result (HasMarks line.now) }
{
    let start = token_start(line, at);
    if start == line.len() {
        return Lexed::End;
    }
    match first_token(&line[start..]) {
        Ok((kind, len)) => Lexed::Token(Token {
            kind,
            start,
            end: start + len,
        }),
        Err(code) => Lexed::Bad(code),
    }
}
