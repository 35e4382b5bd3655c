ghost use Rattle.std.specs.Prelude.{◌≡◌};
ghost use Rattle.seq_check.specs.believed.Codes.{event_code, event_text, limit_name};
ghost use Rattle.seq_check.specs.believed.EventFile.{most};

use value_text::NoMemory;

/// The most events.
pub(crate) const MOST_EVENTS: usize = 64;

/// The most precedences.
pub(crate) const MOST_PRECEDENCES: usize = 4096;

/// Why a file of events is refused at a line (this project's rules).
#[derive(Debug, Drop, Clone, Copy, PartialEq, Eq)]
pub enum EventCode {
    /// The line is neither a name nor `name < name`.
    Q1,
    /// An earlier line declares an event of this name.
    Q2,
    /// No earlier line declares an event of a name of the precedence.
    Q3,
    /// No line declares an event.
    Q4,
    /// There are fewer events than the sequences are long.
    Q5,
}

impl EventCode {
    /// The code. Takes no memory.
    pub fn code(self) -> &'static str
        ensures { result.now ≡ event_code self }
    {
        match self {
            EventCode::Q1 => "Q1",
            EventCode::Q2 => "Q2",
            EventCode::Q3 => "Q3",
            EventCode::Q4 => "Q4",
            EventCode::Q5 => "Q5",
        }
    }

    /// What the code says. Takes no memory.
    pub fn text(self) -> &'static str
        ensures { result.now ≡ event_text self }
    {
        match self {
            EventCode::Q1 => "not an event line",
            EventCode::Q2 => "repeated event",
            EventCode::Q3 => "unknown event",
            EventCode::Q4 => "no events",
            EventCode::Q5 => "fewer events than the length",
        }
    }
}

/// What a file of events may have only so many of.
#[derive(Debug, Drop, Clone, Copy, PartialEq, Eq)]
pub enum EventLimit {
    /// Events: 64.
    Events,
    /// Precedences: 4,096.
    Precedences,
}

impl EventLimit {
    /// What it is called. Takes no memory.
    pub fn name(self) -> &'static str
        ensures { result.now ≡ limit_name self }
    {
        match self {
            EventLimit::Events => "events",
            EventLimit::Precedences => "precedences",
        }
    }

    /// The most there may be. Takes no memory.
    pub fn most(self) -> u64
        ensures { result ≡ most self }
    {
        match self {
            EventLimit::Events => MOST_EVENTS as u64,
            EventLimit::Precedences => MOST_PRECEDENCES as u64,
        }
    }
}

/// Why a file of events isn't read.
#[derive(Debug, Drop, Clone, Copy, PartialEq, Eq)]
pub enum EventsFault {
    /// It is refused at this line, counted from 1.
    Bad(u32, EventCode),
    /// It has so many of something, above its limit.
    TooMany(EventLimit, u64),
    /// Memory was refused.
    NoMemory,
}

impl From<NoMemory> for EventsFault {
    ghost use Rattle.seq_check.specs.declared.fault.EventsFault.TheVariants as faults;

    ghost from_gives = { λ _ fault. fault ≡ faults.NoMemory };

    fn from(_refused: NoMemory) -> EventsFault {
        EventsFault::NoMemory
    }
}
