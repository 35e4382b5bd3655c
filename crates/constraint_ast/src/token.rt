use crate::tree::{RawLiteral, RawRel};
use value_text::{OwnedList, Text};

/// The two sign terms.
#[derive(Debug, Drop, Clone, Copy, PartialEq, Eq)]
pub enum Sign {
    /// ISNEGATIVE.
    Negative,
    /// ISPOSITIVE.
    Positive,
}

/// What a token of a constraint means (PICT's guide).
#[derive(Drop)]
pub enum RuleToken {
    /// A parameter's name.
    Name(Text),
    /// A text or a number.
    Literal(RawLiteral),
    /// `=`, `<>`, `>`, `>=`, `<` or `<=`.
    Relation(RawRel),
    /// IF
    If,
    /// THEN
    Then,
    /// ELSE
    Else,
    /// AND
    And,
    /// OR
    Or,
    /// NOT
    Not,
    /// IN
    In,
    /// LIKE
    Like,
    /// ISNEGATIVE or ISPOSITIVE.
    Sign(Sign),
    /// `(`
    OpenParen,
    /// `)`
    CloseParen,
    /// `{`
    OpenBrace,
    /// `}`
    CloseBrace,
    /// `,`
    Comma,
    /// `;`
    Semicolon,
}

/// A token with its line.
#[derive(Drop)]
pub struct LineToken {
    /// The line where it stands, from 1.
    pub line: u32,
    /// What it means.
    pub token: RuleToken,
}

/// The tokens of the constraints, in order.
pub type LineTokenList = OwnedList<LineToken>;
