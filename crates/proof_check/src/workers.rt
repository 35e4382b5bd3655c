ghost use Rattle.std.specs.Prelude.{◌≤◌};

// How many workers mark what the rows serve, and the gate to which each comes.
#[derive(Drop)]
pub(crate) struct Workers<'a, R, G> {
    pub(crate) rt: &'a R,
    pub(crate) count: u32,
    pub(crate) gate: &'a G,
    ghost least: { 1 ≤ count },
    ghost most: { count ≤ 64 },
}
