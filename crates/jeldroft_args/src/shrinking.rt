/// How fewer tests with the same coverage are looked for.
#[derive(Debug, Drop, Clone, Copy, PartialEq, Eq)]
pub struct Shrinking {
    /// Whether cells that no combination needs take varied values.
    pub spread: bool,
    /// How many moves are tried for each number of tests, at most 2^40.
    pub rounds: u64,
    /// The number of the random choices.
    pub random: u64,
}
