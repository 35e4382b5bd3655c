ghost use Rattle.std.specs.Prelude.{◌≡◌};

use crate::parameter::ParamNo;
use std::cmp::Ordering;
use value_text::{Fixed, OwnedList, Text};

/// How two operands are compared.
#[derive(Debug, Drop, Clone, Copy, PartialEq, Eq)]
pub enum Rel {
    /// `=`
    Eq,
    /// `<>`
    Ne,
    /// `>`
    Gt,
    /// `>=`
    Ge,
    /// `<`
    Lt,
    /// `<=`
    Le,
}

impl Rel {
    ghost use Rattle.cov_model.specs.believed.Meaning.{stands_in};

    /// Whether two operands in this order stand in the relation.
    pub fn holds(self, order: Ordering) -> bool
        ensures { result ≡ stands_in self order }
    {
        match self {
            Rel::Eq => order.is_eq(),
            Rel::Ne => order.is_ne(),
            Rel::Gt => order.is_gt(),
            Rel::Ge => order.is_ge(),
            Rel::Lt => order.is_lt(),
            Rel::Le => order.is_le(),
        }
    }
}

/// What a parameter's value is compared with.
#[derive(Drop)]
pub enum Literal {
    /// A number, for numeric parameters.
    Number(Fixed),
    /// A text, for the others.
    Words(Text),
}

/// The literals of an IN list.
pub type LiteralList = OwnedList<Literal>;

/// The smallest parts of a constraint (PICT's guide).
#[derive(Drop)]
pub enum Term {
    /// The parameter's value stands in this relation to the literal.
    ValueIs(ParamNo, Rel, Literal),
    /// The first parameter's value stands in this relation to the second's.
    ParamIs(ParamNo, Rel, ParamNo),
    /// The parameter's value equals one of the literals.
    OneOf(ParamNo, LiteralList),
    /// The parameter's value matches the pattern.
    Like(ParamNo, Text),
    /// The parameter's value is negative.
    Negative(ParamNo),
    /// The parameter's value isn't negative.
    Positive(ParamNo),
}

/// A predicate over terms.
#[derive(Drop)]
pub enum Pred {
    /// A term by itself.
    Term(Term),
    /// The predicate doesn't hold.
    Not(Box<Pred>),
    /// Each predicate holds.
    All(PredList),
    /// Some predicate holds.
    Any(PredList),
}

/// The parts of `All` and `Any`.
pub type PredList = OwnedList<Pred>;

/// What a constraint demands of a row.
#[derive(Drop)]
pub enum Body {
    /// The predicate holds.
    Plain(Pred),
    /// Where the first holds, the second does.
    IfThen(Pred, Pred),
    /// Where the first holds, the second does, and where it doesn't, the third does.
    IfElse(Pred, Pred, Pred),
}

/// A constraint.
#[derive(Drop)]
pub struct Rule {
    /// Its number, from 1 in order.
    pub number: u32,
    /// The line of the model file where it begins, from 1.
    pub line: u32,
    /// What it demands.
    pub body: Body,
}

/// The constraints of a model, in order.
pub type RuleList = OwnedList<Rule>;
