/// What one question of a run may cost: so many nodes of plain search, or whatever it takes, so that
/// every question is answered (this project's rule).
#[derive(Debug, Drop, Clone, Copy, PartialEq, Eq)]
pub enum Effort {
    /// At most so many nodes.
    Within(u64),
    /// As many as it takes.
    Full,
}
