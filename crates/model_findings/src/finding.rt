use model_lint::{RuleNumbers, UnusedValue};
use value_text::OwnedList;

/// What is wrong or odd about a model. Constraints are named by their numbers, from 1; the terms of a constraint and
/// the elements of a list by their places, from 0, in the order in which they are written.
#[derive(Drop)]
pub enum Finding {
    /// No row is valid: no row of valid values meets these constraints together, and none of them can be left out.
    NoTest(RuleNumbers),
    /// A value is in no test, though there are tests.
    ValueInNoTest(UnusedValue),
    /// A comparison of a constraint by `=`, `<>` or LIKE with what no value of its parameter is: the constraint and the
    /// place of the term.
    UnknownValue(u32, usize),
    /// An element of an IN list that no value of its parameter equals: the constraint, the place of the term and that
    /// of the element.
    UnknownElement(u32, usize, usize),
    /// Another comparison that is the same for every value of its parameters: the constraint and the place of the term.
    ConstantComparison(u32, usize),
    /// A constraint is true of every row that is valid without it.
    NeverExcludes(u32),
    /// The condition of a constraint is true of no valid row.
    PremiseNeverHolds(u32),
}

/// Findings, in order.
pub type FindingList = OwnedList<Finding>;
