/// The characters that part a parameter line, as their ASCII codes (PICT's guide).
#[derive(Debug, Drop, Clone, Copy, PartialEq, Eq)]
pub struct Marks {
    /// Stands between two values; `,` by default.
    pub separator: u8,
    /// Stands between two names of one value; `|` by default.
    pub alias: u8,
    /// Stands before a negative value; `~` by default.
    pub prefix: u8,
}

/// How many parameters are combined, as a command word says it (PICT's guide).
#[derive(Debug, Drop, Clone, Copy, PartialEq, Eq)]
pub enum OrderWord {
    /// So many.
    Number(u32),
    /// All.
    Max,
}

/// How a model file is to be read (PICT's guide).
#[derive(Debug, Drop, Clone, Copy, PartialEq, Eq)]
pub struct ModelOpts {
    /// How many parameters are combined.
    pub order: OrderWord,
    /// The characters that part a parameter line.
    pub marks: Marks,
    /// Whether the letters of either case are one.
    pub fold: bool,
}
