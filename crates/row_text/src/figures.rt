/// What is told of a generated suite in numbers (PICT's guide).
#[derive(Debug, Drop, Clone, Copy, PartialEq, Eq)]
pub struct Stats {
    /// The demanded sets of parameters.
    pub sets: u64,
    /// The demanded tuples.
    pub tuples: u64,
    /// The demanded tuples that no valid row serves.
    pub omitted: u64,
    /// The seed rows that were kept.
    pub kept: u64,
    /// The rows of the suite.
    pub tests: u64,
}

/// How well a given suite covers the demand (NIST IR 7878).
#[derive(Debug, Drop, Clone, Copy, PartialEq, Eq)]
pub struct Figures {
    /// The rows that are complete and valid, repeats too.
    pub tests: u64,
    /// The rows that leave a parameter without a value.
    pub incomplete: u64,
    /// The rows that are complete and not valid.
    pub invalid: u64,
    /// The demanded sets of parameters.
    pub sets: u64,
    /// The demanded tuples.
    pub tuples: u64,
    /// The demanded tuples that some row serves, summed over the demanded sets.
    pub servable: u64,
    /// Those of them that a test of the suite serves.
    pub covered: u64,
    /// The demanded sets whose servable tuples are all covered.
    pub complete: u64,
    /// The demanded sets of which at least three quarters of the servable tuples are covered.
    pub at75: u64,
    /// The demanded sets of which at least half of the servable tuples are covered.
    pub at50: u64,
    /// The demanded sets of which at least a quarter of the servable tuples are covered.
    pub at25: u64,
}
