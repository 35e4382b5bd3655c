use cov_model::Tuple;
use value_text::OwnedList;

/// A suspicious tuple.
#[derive(Drop)]
pub struct Found {
    /// Its parameters and their values.
    pub tuple: Tuple,
    /// How many failing rows contain it.
    pub failing: u64,
}

/// A list of suspicious tuples.
pub type FoundList = OwnedList<Found>;

/// What the rows of a file of results tell. A row counts if it is complete.
#[derive(Drop)]
pub struct Suspects {
    /// The rows that count and whose tests passed, repeats too.
    pub passing: u64,
    /// The rows that count and whose tests failed, repeats too.
    pub failing: u64,
    /// The rows that leave a parameter without a value.
    pub incomplete: u64,
    /// The smallest suspicious tuples, by number of parameters, then by the parameters, then by the values.
    pub found: FoundList,
}
