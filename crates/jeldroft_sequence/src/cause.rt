ghost use Rattle.std.specs.Prelude.{◌≡◌};
ghost use Rattle.jeldroft_sequence.specs.believed.Sequences as sequences;

use command_line::FileKind;
use seq_check::{EventCode, EventLimit, EventsFault};
use value_text::NoMemory;

/// A file that `sequence` reads.
#[derive(Debug, Drop, Clone, Copy, PartialEq, Eq)]
pub enum SequenceFile {
    /// The file of events.
    Events,
    /// The report that is checked.
    Report,
}

impl SequenceFile {
    /// The most bytes that it may have: a file of events as many as a model file, a report as many as a file of rows.
    /// Takes no memory.
    pub fn most_bytes(self) -> usize
        ensures { result ≡ sequences.most_of self }
    {
        match self {
            SequenceFile::Events => FileKind::Model.most_bytes(),
            SequenceFile::Report => FileKind::Rows.most_bytes(),
        }
    }
}

/// Why `sequence` ends without a report or a verdict.
#[derive(Debug, Drop, Clone, Copy, PartialEq, Eq)]
pub enum SequenceCause {
    /// Memory was refused.
    OutOfMemory,
    /// A file could not be read.
    CannotRead(SequenceFile),
    /// A file has more bytes than it may have.
    TooLong(SequenceFile),
    /// This line of the file of events, counted from 1, is refused.
    BadLine(u32, EventCode),
    /// The file of events has so many of something, above its limit.
    TooMany(EventLimit, u64),
    /// The report or the verdict could not be written.
    CannotWrite,
}

impl From<NoMemory> for SequenceCause {
    ghost use Rattle.jeldroft_sequence.specs.declared.cause.SequenceCause.TheVariants as causes;

    ghost from_gives = { λ _ cause. cause ≡ causes.OutOfMemory };

    fn from(_refused: NoMemory) -> SequenceCause {
        SequenceCause::OutOfMemory
    }
}

impl From<EventsFault> for SequenceCause {
    ghost use Rattle.jeldroft_sequence.specs.believed.Sequences.{cause_of};

    ghost from_gives = { λ fault cause. cause ≡ cause_of fault };

    fn from(fault: EventsFault) -> SequenceCause {
        match fault {
            EventsFault::Bad(line, code) => SequenceCause::BadLine(line, code),
            EventsFault::TooMany(limit, count) => SequenceCause::TooMany(limit, count),
            EventsFault::NoMemory => SequenceCause::OutOfMemory,
        }
    }
}

impl SequenceCause {
    /// The exit status: 3 where memory, a read or the write failed, 2 where a file is wrong. Takes no memory.
    pub fn status(self) -> u8
        ensures { result ≡ sequences.status_of self }
    {
        match self {
            SequenceCause::OutOfMemory
            | SequenceCause::CannotRead(_)
            | SequenceCause::CannotWrite => 3,
            SequenceCause::TooLong(_) | SequenceCause::BadLine(..) | SequenceCause::TooMany(..) =>
                2,
        }
    }
}
