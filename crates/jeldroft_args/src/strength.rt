ghost use Rattle.std.specs.Prelude.{◌≡◌};
ghost use Rattle.jeldroft_args.specs.believed.Readings.{strength_of};

use value_text::read_count;

/// How many parameters are combined.
#[derive(Debug, Drop, Clone, Copy, PartialEq, Eq)]
pub enum Strength {
    /// So many, 1 to 256.
    Number(u32),
    /// All of them.
    Max,
}

impl Strength {
    // What a value says.
    pub(crate) fn of(text: &str) -> Option<Strength>
        ensures { result ≡ strength_of text.now }
    {
        if text == "max" {
            return Some(Strength::Max);
        }
        match read_count(text, 1, 256) {
            Some(number) => Some(Strength::Number(number as u32)),
            None => None,
        }
    }
}
