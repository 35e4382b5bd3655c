ghost use Rattle.std.specs.Prelude.{◌≡◌, ◌<◌, ◌^◌, ◌+◌};
ghost use Rattle.comma_rows.specs.believed.Positions.{is_inside, next};

/// A place in a text.
#[derive(Debug, Drop, Clone, Copy, PartialEq, Eq)]
pub struct Position {
    /// The line, counted from 1.
    pub line: u32,
    /// The column in its line, counted from 1, in characters.
    pub column: u32,
}

// Whether a byte goes on with a character of UTF-8 that an earlier byte began.
fn is_inside(byte: u8) -> bool
    ensures { result ≡ is_inside byte }
{
    byte & 0xc0 == 0x80
}

impl Position {
    /// The place behind a byte that stands here.
    pub(crate) fn next(self, byte: u8) -> Position
        requires line { self.line + 1 < 2 ^ 32 }
        requires column { self.column + 1 < 2 ^ 32 }
        ensures { result ≡ next byte self }
    {
        if byte == b'\n' {
            return Position {
                line: self.line + 1,
                column: 1,
            };
        }
        if is_inside(byte) {
            return self;
        }
        Position {
            line: self.line,
            column: self.column + 1,
        }
    }
}
