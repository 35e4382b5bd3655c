ghost use Rattle.std.specs.Prelude.{◌≡◌};
ghost use Rattle.jeldroft_args.specs.believed.Readings.{has_equal_marks, is_mark, mark_of};

/// The characters between the parts of a parameter line, as their ASCII codes (PICT's guide). A
/// mark is a character from 33 to 126 that is no letter, no digit and none of
/// `"` `#` `(` `)` `:` `<` `>` `@` `[` `\` `]` `{` `}`.
#[derive(Debug, Drop, Clone, Copy, PartialEq, Eq)]
pub struct Marks {
    /// Stands between two values; `,` by default.
    pub separator: u8,
    /// Stands between two names of one value; `|` by default.
    pub alias: u8,
    /// Stands before an invalid value; `~` by default.
    pub invalid: u8,
}

impl Marks {
    // Whether two of the three are equal.
    pub(crate) fn are_equal(self) -> bool
        ensures { result ≡ has_equal_marks self }
    {
        self.separator == self.alias || self.separator == self.invalid || self.alias == self.invalid
    }
}

// Whether a character may be a mark.
fn is_mark(c: u8) -> bool
    ensures { result ≡ is_mark c }
{
    c.is_ascii_punctuation() && !b"\"#():<>@[\\]{}".contains(&c)
}

// The mark that a value says.
pub(crate) fn mark_of(text: &str) -> Option<u8>
    ensures { result ≡ mark_of text.now }
{
    match text.as_bytes() {
        [c] if is_mark(*c) => Some(*c),
        _ => None,
    }
}
