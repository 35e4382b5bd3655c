use cov_model::{ParamNo, ValueNo};
use value_text::OwnedList;

/// Numbers of constraints, rising.
pub type RuleNumbers = OwnedList<u32>;

/// A value that is in no test.
#[derive(Drop)]
pub struct UnusedValue {
    /// Its parameter.
    pub parameter: ParamNo,
    /// The number of the value.
    pub value: ValueNo,
    /// The constraints that keep it from every test of its slice, none of which can be left out.
    pub constraints: RuleNumbers,
}

/// Values that are in no test, in order.
pub type UnusedList = OwnedList<UnusedValue>;
