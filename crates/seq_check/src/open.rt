ghost use Rattle.std.specs.Prelude.{◌≡◌, ◌≢◌, ◌<◌, ◌≤◌, ◌+◌, ◌*◌, ◌&&◌, ◌||◌, ◌==◌, ◌⊎◌, ◌∷◌, ◌++◌, [], ℕ, List};
ghost use Rattle.std.specs.Prelude.{Bool, true, false, not, All, length, nat_lt, find, option_map, slice_index, IfOk};
ghost use Rattle.std.specs.Str.{bytes_eq};
ghost use Rattle.seq_check.specs.EventSets.{AreSets, IsFront, OpenView, Tells, first_of, in_set, in_set_at, is_open, rises, second_of, set_count, set_place};
ghost use Rattle.seq_check.specs.believed.Orders.{distinct_lists, is_among, lengthened};

use crate::event_set::EventSet;
use crate::lists::{NoList, distinct_lists, with_event};
use std::alloc::Global;
use std::marker::Model;
use value_text::NoMemory;

/// Which sequences of two or three events are still open: for all events of a sequence but the first, the set of
/// the first ones.
#[derive(Drop)]
pub struct OpenSequences {
    sets: Vec<EventSet>,
    length: u32,
}

impl Model for OpenSequences {
    ghost use Rattle.seq_check.specs.EventSets.{AreSets, OpenView};

    ghost Value = { OpenView };

    ghost view = { λ a. record { sets = a.sets.items; len = a.length } };

    ghost invariant = { λ a. AreSets (record { sets = a.sets.items; len = a.length }) };
}

// How many sets there are.
fn set_count(length: u32) -> usize
    ensures { result ≡ set_count length }
{
    if length == 2 { 64 } else { 4096 }
}

// The place of the set of a sequence, given by all of its events but the last, and the last one.
fn place_of(front: &[u16], last: u16) -> usize
    ensures { result ≡ set_place front.now last }
{
    match front {
        [] | [_] => last as usize,
        [_, second, ..] => 64 * *second as usize + last as usize,
    }
}

// The first event of a sequence.
fn first_of(front: &[u16]) -> u16
    ensures { result ≡ first_of front.now }
{
    match front {
        [] => 0,
        [first, ..] => *first,
    }
}

// The events with a lower place than one.
fn events_ahead(places: &[u16], event: u16) -> EventSet
    requires few { length places.now ≤ 64 }
    requires event { event < length places.now }
    ensures { (other : ℕ) → in_set result other ≡ (nat_lt other (length places.now) && nat_lt (slice_index places.now other) (slice_index places.now event)) }
{
    let mut ahead = EventSet::none();
    for other in 0..places.len() as u16 {
        if places[other as usize] < places[event as usize] {
            ahead = ahead.with(other);
        }
    }
    ahead
}

impl OpenSequences {
    /// Every sequence is open.
    ///
    /// # Errors
    ///
    /// `NoMemory` where memory was refused.
    pub fn new(alloc: Global, length: u32) -> Result<OpenSequences, NoMemory>
        requires { (length ≡ 2) ⊎ (length ≡ 3) }
        ensures len { IfOk result (λ o. o.len ≡ length) }
        ensures open { IfOk result (λ o. (front : List ℕ) (last : ℕ) → IsFront length 64 front → last < 64 → is_open o front last ≡ true) }
    {
        match vec![in alloc; EventSet::all(); set_count(length)] {
            Ok(sets) => Ok(OpenSequences { sets, length }),
            Err(_) => Err(NoMemory),
        }
    }

    // Says what is kept of the sets. It does nothing.
    fn assert_invariant(&self)
        ensures { AreSets self.now }
    {
        let _length = self.length;
    }

    /// Whether a sequence is open, given by all of its events but the last, and the last one.
    #[inline]
    pub fn is_open(&self, front: &[u16], last: u16) -> bool
        requires front { IsFront self.now.len 64 front.now }
        requires last { last < 64 }
        ensures { result ≡ is_open self.now front.now last }
    {
        self.sets[place_of(front, last)].has(first_of(front))
    }

    /// The first events of the open sequences of three events that end with these.
    #[inline]
    pub fn firsts(&self, second: u16, last: u16) -> EventSet
        requires len { self.now.len ≡ 3 }
        requires second { second < 64 }
        requires last { last < 64 }
        ensures { (first : ℕ) → in_set result first ≡ is_open self.now (first ∷ second ∷ []) last }
    {
        self.sets[64 * second as usize + last as usize]
    }

    // Closes the sequences with some first events, by the place of their set.
    #[inline]
    fn close_at(&mut self, place: usize, firsts: EventSet)
        requires { place < length self.old.sets }
        ensures len { self.new.len ≡ self.old.len }
        ensures long { length self.new.sets ≡ length self.old.sets }
        ensures closed { (other first : ℕ) → first < 64 → in_set_at self.new.sets other first ≡ (in_set_at self.old.sets other first && not ((place == other) && in_set firsts first)) }
    {
        let left = self.sets[place].without(firsts);
        self.sets[place] = left;
    }

    /// Closes a sequence.
    pub fn close(&mut self, sequence: &[u16])
        requires long { length sequence.now ≡ self.old.len }
        requires exist { All (λ event. event < 64) sequence.now }
        ensures len { self.new.len ≡ self.old.len }
        ensures closed { (front : List ℕ) (last : ℕ) → IsFront self.old.len 64 front → last < 64 →
            is_open self.new front last ≡ (is_open self.old front last && not (bytes_eq (front ++ last ∷ []) sequence.now)) }
    {
        self.assert_invariant();
        if let [front @ .., last] = sequence {
            self.close_at(
                place_of(front, *last),
                EventSet::none().with(first_of(front)),
            );
        }
    }

    // Closes the sequences of three events whose second event is this one, whose last has a higher place, and whose
    // first is one of these.
    fn close_triples(&mut self, places: &[u16], event: u16, firsts: EventSet)
        requires len { self.old.len ≡ 3 }
        requires few { length places.now ≤ 64 }
        requires event { event < length places.now }
        ensures len { self.new.len ≡ self.old.len }
        ensures closed { (first second last : ℕ) → first < 64 → second < 64 → last < length places.now →
            in_set_at self.new.sets (64 * second + last) first ≡ (in_set_at self.old.sets (64 * second + last) first
            && not (((event == second) && nat_lt (slice_index places.now event) (slice_index places.now last)) && in_set firsts first)) }
    {
        self.assert_invariant();
        for last in 0..places.len() as u16 {
            if places[event as usize] >= places[last as usize] {
                continue;
            }
            self.close_at(64 * event as usize + last as usize, firsts);
        }
    }

    // Closes the sequences that a row has, and whose second event is this one.
    fn close_behind(&mut self, places: &[u16], event: u16)
        requires few { length places.now ≤ 64 }
        requires event { event < length places.now }
        ensures len { self.new.len ≡ self.old.len }
        ensures closed { (front : List ℕ) (last : ℕ) → IsFront self.old.len (length places.now) front → last < length places.now →
            is_open self.new front last ≡ (is_open self.old front last && not ((event == second_of front last) && rises places.now (front ++ last ∷ []))) }
    {
        let firsts = events_ahead(places, event);
        if self.length == 2 {
            self.close_at(event as usize, firsts);
        } else {
            self.close_triples(places, event, firsts);
        }
    }

    /// Closes the sequences that a row has, which is given by the places of its events.
    pub fn close_row(&mut self, places: &[u16])
        requires few { length places.now ≤ 64 }
        ensures len { self.new.len ≡ self.old.len }
        ensures closed { (front : List ℕ) (last : ℕ) → IsFront self.old.len (length places.now) front → last < length places.now →
            is_open self.new front last ≡ (is_open self.old front last && not (rises places.now (front ++ last ∷ []))) }
    {
        self.assert_invariant();
        for event in 0..places.len() as u16 {
            self.close_behind(places, event);
        }
    }

    // The least event below a number with which these events are an open sequence.
    fn first_behind(&self, front: &[u16], count: u16) -> Option<u16>
        requires count { count ≤ 64 }
        requires front { IsFront self.now.len count front.now }
        ensures { (test : List ℕ → Bool) → Tells self.now count test →
            option_map (λ last. front.now ++ last ∷ []) result ≡ find test (lengthened count front.now) }
    {
        for last in 0..count {
            if front.contains(&last) {
                continue;
            }
            if self.is_open(front, last) {
                return Some(last);
            }
        }
        None
    }

    /// The first open sequence of the events below a number, in lexicographic order.
    ///
    /// # Errors
    ///
    /// `NoMemory` where memory was refused.
    pub fn first_open(&self, alloc: Global, count: u16) -> Result<Option<NoList>, NoMemory>
        requires { count ≤ 64 }
        ensures { IfOk result (λ found. (test : List ℕ → Bool) → Tells self.now count test → found ≡ find test (distinct_lists count self.now.len)) }
    {
        self.assert_invariant();
        let fronts = distinct_lists(alloc, count, self.length - 1)?;
        for front in fronts.as_slice() {
            if let Some(last) = self.first_behind(front.as_slice(), count) {
                return Ok(Some(with_event(alloc, front.as_slice(), last)?));
            }
        }
        Ok(None)
    }
}
