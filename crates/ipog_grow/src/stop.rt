use value_text::NoMemory;

/// Why growth ended early.
#[derive(Debug, Drop, Clone, Copy, PartialEq, Eq)]
pub(crate) enum Stop {
    /// The plain cost of a question is above what one may cost.
    Spent,
    /// There was no room.
    NoMemory,
}

impl From<NoMemory> for Stop {
    ghost use Rattle.std.specs.Prelude.{◌≡◌};
    ghost use Rattle.ipog_grow.specs.declared.stop.Stop.TheVariants as stops;

    ghost from_gives = { λ _ stop. stop ≡ stops.NoMemory };

    fn from(_refused: NoMemory) -> Stop {
        Stop::NoMemory
    }
}
