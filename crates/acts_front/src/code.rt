ghost use Rattle.std.specs.Prelude.{◌≡◌};
ghost use Rattle.acts_front.specs.believed.Codes.{acts_code, acts_text, refusal_status};

use value_text::NoMemory;

/// Why a file in the form of ACTS is refused at a line (this project's rules).
#[derive(Debug, Drop, Clone, Copy, PartialEq, Eq)]
pub enum ActsCode {
    /// A byte is neither a tab nor a character from the space to `~`.
    A1,
    /// A `[` line is no header in its place, or a text stands before the first header.
    A2,
    /// The line isn't `Name (type): v, v`.
    A3,
    /// A parameter name, or a value of the parameter, is repeated.
    A4,
    /// The line isn't `Name: (P, P, k)`.
    A5,
    /// A member of the relation is unknown or repeated.
    A6,
    /// The strength isn't from 1 to the number of members.
    A7,
    /// No line declares a parameter.
    A8,
    /// The line is no constraint, or it is nested too deeply.
    A9,
    /// A parameter of the constraint is unknown.
    A10,
    /// A comparison of the constraint is of different types, or an order stands on a parameter that isn't int.
    A11,
}

impl ActsCode {
    /// The code, as `A1`. Takes no memory.
    pub fn code(&self) -> &'static str
        ensures { result.now ≡ acts_code self.now }
    {
        match self {
            ActsCode::A1 => "A1",
            ActsCode::A2 => "A2",
            ActsCode::A3 => "A3",
            ActsCode::A4 => "A4",
            ActsCode::A5 => "A5",
            ActsCode::A6 => "A6",
            ActsCode::A7 => "A7",
            ActsCode::A8 => "A8",
            ActsCode::A9 => "A9",
            ActsCode::A10 => "A10",
            ActsCode::A11 => "A11",
        }
    }

    /// What the code says in words. Takes no memory.
    pub fn text(&self) -> &'static str
        ensures { result.now ≡ acts_text self.now }
    {
        match self {
            ActsCode::A1 => "bad byte",
            ActsCode::A2 => "section out of place",
            ActsCode::A3 => "not a parameter line",
            ActsCode::A4 => "repeated name",
            ActsCode::A5 => "not a relation line",
            ActsCode::A6 => "bad member",
            ActsCode::A7 => "strength out of range",
            ActsCode::A8 => "no parameters",
            ActsCode::A9 => "not a constraint",
            ActsCode::A10 => "unknown parameter",
            ActsCode::A11 => "types differ",
        }
    }

    /// The exit status of a refusal by this code: 5 where a constraint is refused, else 4. Takes no memory.
    pub fn status(&self) -> u8
        ensures { result ≡ refusal_status self.now }
    {
        match self {
            ActsCode::A9 | ActsCode::A10 | ActsCode::A11 => 5,
            _ => 4,
        }
    }
}

/// Why a file in the form of ACTS isn't translated.
#[derive(Debug, Drop, Clone, Copy, PartialEq, Eq)]
pub enum ActsFault {
    /// It is refused at this line, counted from 1.
    Bad(u32, ActsCode),
    /// Memory was refused.
    NoMemory,
}

impl From<NoMemory> for ActsFault {
    ghost use Rattle.acts_front.specs.declared.code.ActsFault.TheVariants as faults;

    ghost from_gives = { λ _ fault. fault ≡ faults.NoMemory };

    fn from(_refused: NoMemory) -> ActsFault {
        ActsFault::NoMemory
    }
}
