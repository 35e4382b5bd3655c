ghost use Rattle.std.specs.Prelude.{◌≡◌, ◌≤◌, ◌<◌, ◌^◌, ◌⊎◌, ◌∷◌, ◌++◌, [], All, length, IfErr, None, Ok, Err, IfOk, OnOk, OnErr, true};
ghost use Rattle.seq_check.specs.believed.Events.{AreEvents, is_name};
ghost use Rattle.seq_check.specs.believed.EventFile.{Event, Precedence, events_of, events_with, line_of, number_of, refusal};
ghost use Rattle.seq_check.specs.Reading.{AreKnown, Declared, Reads, Refuses, SoFar, nothing_declared, with_line};

use crate::event_line::{EventLine, line_of};
use crate::event_names::EventNames;
use crate::events::{Events, PairList};
use crate::fault::{EventCode, EventLimit, EventsFault, MOST_EVENTS, MOST_PRECEDENCES};
use model_lex::{cut_line, without_mark};
use std::alloc::Global;
use std::marker::Model;
use value_text::{NoMemory, OwnedList, Text, TextList};

// What the lines so far declare.
#[derive(Drop)]
struct Reading {
    names: TextList,
    known: EventNames,
    pairs: OwnedList<(usize, usize)>,
    last: u32,
}

impl Model for Reading {
    ghost use Rattle.std.specs.Prelude.{◌≡◌};
    ghost use Rattle.seq_check.specs.Reading.{AreKnown, Declared};

    ghost Value = { Declared };

    ghost view = { λ reading. record { names = reading.names; pairs = reading.pairs; last = reading.last } };

    ghost invariant = { λ reading. (reading.known ≡ reading.names)
        × AreKnown (record { names = reading.names; pairs = reading.pairs; last = reading.last }) };
}

impl Reading {
    // No lines so far.
    fn new(alloc: Global) -> Reading
        ensures { result ≡ nothing_declared }
    {
        Reading {
            names: OwnedList::new(alloc),
            known: EventNames::new(alloc),
            pairs: OwnedList::new(alloc),
            last: 0,
        }
    }

    // Adds an event of a new name.
    fn add_event(&mut self, alloc: Global, line: u32, name: &str) -> Result<(), NoMemory>
        requires name { is_name name.now ≡ true }
        requires fresh { number_of self.old.names name.now ≡ None }
        ensures { OnOk result (self.new ≡ with_line line (Event name.now) self.old) }
    {
        self.known.add(alloc, name.as_bytes())?;
        if add_text(alloc, name, &mut self.names).is_err() {
            self.known.truncate(self.names.len());
            return Err(NoMemory);
        }
        self.last = line;
        Ok(())
    }

    // Reads a line that declares an event.
    fn declare(&mut self, alloc: Global, line: u32, name: &str) -> Result<(), EventsFault>
        requires { is_name name.now ≡ true }
        ensures ok { OnOk result ((refusal self.old.names (Event name.now) ≡ None) × (self.new ≡ with_line line (Event name.now) self.old)) }
        ensures err { IfErr result (Refuses line (refusal self.old.names (Event name.now))) }
    {
        if self.known.number(alloc, name.as_bytes())?.is_some() {
            return Err(EventsFault::Bad(line, EventCode::Q2));
        }
        self.add_event(alloc, line, name)?;
        Ok(())
    }

    // Reads a line that gives a precedence.
    fn precede(
        &mut self,
        alloc: Global,
        line: u32,
        first: &[u8],
        second: &[u8],
    ) -> Result<(), EventsFault>
        ensures ok { OnOk result ((refusal self.old.names (Precedence first.now second.now) ≡ None) × (self.new ≡ with_line line (Precedence first.now second.now) self.old)) }
        ensures err { IfErr result (Refuses line (refusal self.old.names (Precedence first.now second.now))) }
    {
        let earlier = self.known.number(alloc, first)?;
        let later = self.known.number(alloc, second)?;
        match (earlier, later) {
            (Some(earlier), Some(later)) => {
                self.pairs.push((earlier, later))?;
                Ok(())
            }
            _ => Err(EventsFault::Bad(line, EventCode::Q3)),
        }
    }

    // Reads a line.
    fn read_line(&mut self, alloc: Global, line: u32, text: &[u8]) -> Result<(), EventsFault>
        ensures ok { OnOk result ((refusal self.old.names (line_of text.now) ≡ None) × (self.new ≡ with_line line (line_of text.now) self.old)) }
        ensures err { IfErr result (Refuses line (refusal self.old.names (line_of text.now))) }
    {
        match line_of(text) {
            EventLine::Ignored => Ok(()),
            EventLine::Event(name) => self.declare(alloc, line, name),
            EventLine::Precedence(first, second) => self.precede(alloc, line, first, second),
            EventLine::Neither => Err(EventsFault::Bad(line, EventCode::Q1)),
        }
    }

    // The precedences, where all lines are read and the events aren't refused.
    fn kept_pairs(&self, alloc: Global, length: u32) -> Result<PairList, EventsFault>
        requires { (length ≡ 2) ⊎ (length ≡ 3) }
        ensures kept { IfOk result (λ pairs. AreEvents (record { names = self.now.names; precedences = pairs; len = length })) }
        ensures read { IfOk result (λ pairs. events_with length self.now.names self.now.pairs self.now.last ≡ Ok (record { names = self.now.names; precedences = pairs; len = length })) }
        ensures refused { IfErr result (λ fault. Reads (events_with length self.now.names self.now.pairs self.now.last) (Err fault)) }
    {
        if self.names.is_empty() {
            return Err(EventsFault::Bad(1, EventCode::Q4));
        }
        if self.names.len() > MOST_EVENTS {
            return Err(EventsFault::TooMany(EventLimit::Events, self.names.len() as u64));
        }
        if self.pairs.len() > MOST_PRECEDENCES {
            return Err(EventsFault::TooMany(EventLimit::Precedences, self.pairs.len() as u64));
        }
        if self.names.len() < length as usize {
            return Err(EventsFault::Bad(self.last, EventCode::Q5));
        }
        let pairs = short_pairs(alloc, self.pairs.as_slice())?;
        Ok(pairs)
    }

    // The events, where all lines are read.
    fn finish(self, alloc: Global, length: u32) -> Result<Events, EventsFault>
        requires { (length ≡ 2) ⊎ (length ≡ 3) }
        ensures { Reads (events_with length self.names self.pairs self.last) result }
    {
        let pairs = self.kept_pairs(alloc, length)?;
        Ok(Events::new(self.names, pairs, length))
    }
}

// Adds a copy of a text. Where memory is refused, the texts stay as they are.
fn add_text(alloc: Global, text: &str, into: &mut TextList) -> Result<(), NoMemory>
    ensures added { OnOk result (into.new ≡ into.old ++ text.now ∷ []) }
    ensures refused { OnErr result (into.new ≡ into.old) }
{
    into.push(Text::copy(alloc, text)?)
}

// Pairs of small numbers.
fn short_pairs(alloc: Global, pairs: &[(usize, usize)]) -> Result<PairList, NoMemory>
    requires { All (λ pair. (pair.0 < 64) × (pair.1 < 64)) pairs.now }
    ensures { IfOk result (λ short. short ≡ pairs.now) }
{
    let mut short = OwnedList::new(alloc);
    for pair in pairs {
        short.push((pair.0 as u16, pair.1 as u16))?;
    }
    Ok(short)
}

/// The events of a file (this project's rules): a line is a name, which declares an event, or `name < name`, a
/// precedence; lines of blanks alone and comments are left out. `t` is the length of the sequences of events
/// that are to be covered. The file may have at most 2^28 bytes.
///
/// # Errors
///
/// The first line that is refused, as `Bad` with `Q1` where it is none of these, with `Q2` where an earlier line
/// declares the name, with `Q3` where no earlier line declares a name of the precedence. Then `Bad` with line 1
/// and `Q4` where no event is declared, `TooMany` with more than 64 events, then with more than 4,096
/// precedences, and `Bad` with the line of the last event and `Q5` where there are fewer than `t` events.
/// `NoMemory` where memory was refused.
pub fn read_events(alloc: Global, bytes: &[u8], t: u32) -> Result<Events, EventsFault>
    requires len { length bytes.now ≤ 2 ^ 28 }
    requires t { (t ≡ 2) ⊎ (t ≡ 3) }
    ensures { Reads (events_of t bytes.now) result }
{
    let mut reading = Reading::new(alloc);
    let mut line = 0;
    let mut rest = without_mark(bytes);
    while !rest.is_empty() {
        let (text, behind) = cut_line(rest);
        rest = behind;
        line += 1;
        reading.read_line(alloc, line, text)?;
    }
    reading.finish(alloc, t)
}
