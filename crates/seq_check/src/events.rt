ghost use Rattle.std.specs.Prelude.{◌≡◌, ◌≤◌};
ghost use Rattle.seq_check.specs.believed.Events.{AreEvents, EventsView};

use std::marker::Model;
use value_text::{OwnedList, TextList};

/// A list of precedences: the numbers of two events, of which the first has to come before the second.
pub type PairList = OwnedList<(u16, u16)>;

/// The events of a file, with their precedences and the length of the sequences that are to be covered. It is
/// made by `read_events` alone, and keeps what that has read.
#[derive(Drop)]
pub struct Events {
    event_names: TextList,
    pairs: PairList,
    sequence_length: u32,
}

impl Model for Events {
    ghost use Rattle.seq_check.specs.believed.Events.{AreEvents, EventsView};

    ghost Value = { EventsView };

    ghost view = { λ events. record { names = events.event_names; precedences = events.pairs; len = events.sequence_length } };

    ghost invariant = { λ events. AreEvents (record { names = events.event_names; precedences = events.pairs; len = events.sequence_length }) };
}

impl Events {
    /// These events.
    pub(crate) fn new(names: TextList, pairs: PairList, length: u32) -> Events
        requires { AreEvents (record { names = names; precedences = pairs; len = length }) }
        ensures { result ≡ record { names = names; precedences = pairs; len = length } }
    {
        Events {
            event_names: names,
            pairs,
            sequence_length: length,
        }
    }

    /// Says what all events keep. It does nothing.
    pub fn assert_invariant(&self)
        ensures { AreEvents self.now }
    {
        let _length = self.sequence_length;
    }

    /// The names, in the order of declaration. Takes no memory.
    pub fn names(&self) -> &TextList
        ensures { result.now ≡ self.now.names }
    {
        &self.event_names
    }

    /// The precedences, in the order of the file. Takes no memory.
    pub fn precedences(&self) -> &PairList
        ensures { result.now ≡ self.now.precedences }
    {
        &self.pairs
    }

    /// The length of the sequences. Takes no memory.
    pub fn length(&self) -> u32
        ensures { result ≡ self.now.len }
    {
        self.sequence_length
    }
}
