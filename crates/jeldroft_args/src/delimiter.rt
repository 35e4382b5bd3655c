ghost use Rattle.std.specs.Prelude.{◌≡◌};
ghost use Rattle.jeldroft_args.specs.believed.Readings.{delimiter_of};

/// What stands between the cells of a table that is read.
#[derive(Debug, Drop, Clone, Copy, PartialEq, Eq)]
pub enum Delimiter {
    /// A tab.
    Tab,
    /// A comma; the table is read by RFC 4180.
    Comma,
}

impl Delimiter {
    // What a value says.
    pub(crate) fn of(text: &str) -> Option<Delimiter>
        ensures { result ≡ delimiter_of text.now }
    {
        if text == "tab" {
            Some(Delimiter::Tab)
        } else if text == "comma" {
            Some(Delimiter::Comma)
        } else {
            None
        }
    }
}
