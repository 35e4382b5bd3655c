use value_text::{Fixed, OwnedList, Text};

/// How two operands are compared.
#[derive(Debug, Drop, Clone, Copy, PartialEq, Eq)]
pub enum RawRel {
    /// `=`
    Eq,
    /// `<>`
    Ne,
    /// `>`
    Gt,
    /// `>=`
    Ge,
    /// `<`
    Lt,
    /// `<=`
    Le,
}

/// What a parameter's value is compared with.
#[derive(Drop)]
pub enum RawLiteral {
    /// A number.
    Number(Fixed),
    /// A text, without its quotes and the backslashes that quote.
    Words(Text),
}

/// The literals of an IN list.
pub type RawLiteralList = OwnedList<RawLiteral>;

/// The smallest parts of a constraint, with the names of their parameters (PICT's guide; the sign
/// terms are this project's rule).
#[derive(Drop)]
pub enum RawTerm {
    /// The parameter's value stands in this relation to the literal.
    ValueIs(Text, RawRel, RawLiteral),
    /// The first parameter's value stands in this relation to the second's.
    ParamIs(Text, RawRel, Text),
    /// The parameter's value equals one of the literals.
    OneOf(Text, RawLiteralList),
    /// The parameter's value matches the pattern.
    Like(Text, Text),
    /// The parameter's value is negative.
    Negative(Text),
    /// The parameter's value isn't negative.
    Positive(Text),
}

/// A predicate over terms. Parentheses leave no trace in it.
#[derive(Drop)]
pub enum RawPred {
    /// A term by itself, behind the line of its first token.
    Term(u32, RawTerm),
    /// The predicate doesn't hold.
    Not(Box<RawPred>),
    /// Each predicate holds; two or more.
    All(RawPredList),
    /// Some predicate holds; two or more.
    Any(RawPredList),
}

/// The parts of `All` and `Any`.
pub type RawPredList = OwnedList<RawPred>;

/// What a constraint demands.
#[derive(Drop)]
pub enum RawBody {
    /// The predicate holds.
    Plain(RawPred),
    /// Where the first holds, the second does.
    IfThen(RawPred, RawPred),
    /// Where the first holds, the second does, and where it doesn't, the third does.
    IfElse(RawPred, RawPred, RawPred),
}

/// The tree of a constraint.
#[derive(Drop)]
pub struct RawRule {
    /// The line of its first token, from 1.
    pub line: u32,
    /// What it demands.
    pub body: RawBody,
}

/// The constraints of a model file, in order.
pub type RawRuleList = OwnedList<RawRule>;
