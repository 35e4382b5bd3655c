ghost use Rattle.std.specs.Prelude.{◌≡◌};

/// What is known of a constraint on a partial row (Kleene's three values).
#[derive(Debug, Drop, Clone, Copy, PartialEq, Eq)]
pub enum Truth {
    /// It holds on every row that contains the partial row.
    Yes,
    /// It is false on every row that contains the partial row.
    No,
    /// Neither follows from the terms whose parameters are assigned.
    Unknown,
}

impl Truth {
    ghost use Rattle.cov_model.specs.believed.Kleene.{known, not_of, and_of, or_of};

    /// `Yes` for what holds, `No` for what doesn't.
    pub fn of(holds: bool) -> Truth
        ensures { result ≡ known holds }
    {
        if holds { Truth::Yes } else { Truth::No }
    }

    /// What is known of NOT.
    pub fn negated(self) -> Truth
        ensures { result ≡ not_of self }
    {
        match self {
            Truth::Yes => Truth::No,
            Truth::No => Truth::Yes,
            Truth::Unknown => Truth::Unknown,
        }
    }

    /// What is known of AND.
    pub fn and(self, other: Truth) -> Truth
        ensures { result ≡ and_of self other }
    {
        match (self, other) {
            (Truth::No, _) | (_, Truth::No) => Truth::No,
            (Truth::Yes, Truth::Yes) => Truth::Yes,
            _ => Truth::Unknown,
        }
    }

    /// What is known of OR.
    pub fn or(self, other: Truth) -> Truth
        ensures { result ≡ or_of self other }
    {
        match (self, other) {
            (Truth::Yes, _) | (_, Truth::Yes) => Truth::Yes,
            (Truth::No, Truth::No) => Truth::No,
            _ => Truth::Unknown,
        }
    }
}
