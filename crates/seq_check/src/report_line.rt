//! The lines of a report.
ghost use Rattle.std.specs.Prelude.{◌≡◌, ◌≤◌, ◌<◌, ◌==◌, ◌++◌, ℕ, List, not, All, length, map, nat_lt};
ghost use Rattle.std.specs.Prelude.{slice_index_or, take, drop, ◌-◌, true, [], ◌+◌, ◌&&◌, IfOk, IfSome};
ghost use Rattle.std.specs.List.{list_all, list_any, slice_split};
ghost use Rattle.std.specs.Str.{bytes_eq};
ghost use Rattle.seq_check.specs.believed.EventFile.{is_space, number_of};
ghost use Rattle.seq_check.specs.EventSets.{AreOf, ArePermitted, IsLine, IsNeverIn, IsRowIn};
ghost use Rattle.seq_check.specs.believed.OrderReport.{has_marks, is_tab, never_in, numbers_of, report_line_of, row_in};
ghost use Rattle.seq_check.specs.believed.Orders.{arrows, is_arrow, is_cycle, is_sequence, neighbours, steps};

use crate::arrows::Arrows;
use crate::cut::parts;
use crate::events::Events;
use crate::lists::NoList;
use crate::places::{are_lower, places_of};
use std::alloc::Global;
use value_text::{NoMemory, OwnedList, Text, TextList};

/// A line of a report.
#[derive(Drop)]
pub(crate) enum ReportLine {
    /// That of a permitted order, by the places of its events.
    Row(Vec<u16>),
    /// That of a sequence, with a good cycle.
    Never(NoList),
    /// Neither.
    Wrong,
}

// The number of the event with a name.
fn number_of(names: &[Text], name: &[u8]) -> Option<usize>
    ensures { result ≡ number_of names.now name.now }
{
    names
        .iter()
        .position(|known| name == known.as_str().as_bytes())
}

// The numbers of the events with these names, where all of them are names of events.
fn numbers_of(alloc: Global, names: &TextList, texts: &[&[u8]]) -> Result<Option<NoList>, NoMemory>
    requires { length names.now ≤ 64 }
    ensures value { IfOk result (λ numbers. numbers ≡ numbers_of names.now (map (λ text. text.now) texts.now)) }
    ensures within { IfOk result (λ numbers. IfSome numbers (All (λ event. event < length names.now))) }
{
    let mut numbers = OwnedList::new(alloc);
    for text in texts {
        match number_of(names.as_slice(), text) {
            Some(number) => numbers.push(number as u16)?,
            None => return Ok(None),
        }
    }
    Ok(Some(numbers))
}

// The numbers of the events that a line names between tabs.
fn row_order(alloc: Global, events: &Events, line: &[u8]) -> Result<Option<NoList>, NoMemory>
    ensures { IfOk result (λ numbers. numbers ≡ numbers_of events.now.names (slice_split is_tab line.now)) }
{
    events.assert_invariant();
    let parts = parts(alloc, line, b'\t')?;
    let numbers = numbers_of(alloc, events.names(), parts.as_slice())?;
    Ok(numbers)
}

// The places of the events of a permitted order.
fn permitted_places(
    alloc: Global,
    events: &Events,
    order: &[u16],
) -> Result<Option<Vec<u16>>, NoMemory>
    ensures { IfOk result (ArePermitted events.now order.now) }
{
    events.assert_invariant();
    let count = events.names().len();
    if order.len() != count {
        return Ok(None);
    }
    let places = places_of(alloc, order, count as u16)?;
    if !are_below(places.as_slice(), count) {
        return Ok(None);
    }
    if !are_lower(places.as_slice(), events.precedences().as_slice()) {
        return Ok(None);
    }
    Ok(Some(places))
}

// The places of the events of a line that is that of a permitted order.
fn read_row(alloc: Global, events: &Events, line: &[u8]) -> Result<Option<Vec<u16>>, NoMemory>
    ensures { IfOk result (IsRowIn events.now (row_in events.now line.now)) }
{
    let Some(order) = row_order(alloc, events, line)? else {
        return Ok(None);
    };
    match permitted_places(alloc, events, order.as_slice())? {
        Some(places) => Ok(Some(places)),
        None => Ok(None),
    }
}

// Whether all numbers are below another.
fn are_below(numbers: &[u16], most: usize) -> bool
    ensures { result ≡ list_all (λ number. nat_lt number most) numbers.now }
{
    numbers.iter().all(|number| (*number as usize) < most)
}

// Whether no event stands in a list twice.
fn are_distinct(sequence: &[u16]) -> bool
    ensures { result ≡ list_all (λ step. not (step.0 == step.1)) (steps sequence.now) }
{
    match sequence {
        [] => true,
        [event, rest @ ..] => {
            if !is_apart(*event, rest) {
                return false;
            }
            are_distinct(rest)
        }
    }
}

// Whether an event isn't one of a list.
fn is_apart(event: u16, others: &[u16]) -> bool
    ensures { result ≡ list_all (λ other. not (event == other)) others.now }
{
    others.iter().all(|other| event != *other)
}

// Whether a list is a sequence of events.
fn is_sequence(events: &Events, sequence: &[u16]) -> bool
    ensures { result ≡ is_sequence events.now sequence.now }
{
    sequence.len() == events.length() as usize
        && are_below(sequence, events.names().len())
        && are_distinct(sequence)
}

// Whether the one event is this one, and the other is one of those behind it.
fn begins_step(event: u16, behind: &[u16], from: u16, to: u16) -> bool
    ensures { result ≡ ((event == from) && list_any (λ other. other == to) behind.now) }
{
    event == from && behind.contains(&to)
}

// Whether the one event stands in a sequence before the other.
fn is_step(sequence: &[u16], from: u16, to: u16) -> bool
    ensures { result ≡ is_arrow (steps sequence.now) (from, to) }
{
    match sequence {
        [] => false,
        [event, rest @ ..] => {
            if begins_step(*event, rest, from, to) {
                return true;
            }
            is_step(rest, from, to)
        }
    }
}

// Whether a step or a precedence leads from the one event to the other.
fn is_arrow(precedences: &Arrows, sequence: &[u16], from: u16, to: u16) -> bool
    requires from { from < 64 }
    requires to { to < 64 }
    ensures { (pairs : List (ℕ × ℕ)) → AreOf precedences.now pairs → result ≡ is_arrow (steps sequence.now ++ pairs) (from, to) }
{
    if is_step(sequence, from, to) {
        return true;
    }
    precedences.ends(from).has(to)
}

// Whether an arrow leads from each event of a list to the next.
fn is_along(precedences: &Arrows, sequence: &[u16], cycle: &[u16]) -> bool
    requires some { 0 < length cycle.now }
    requires exist { All (λ event. event < 64) cycle.now }
    ensures { (pairs : List (ℕ × ℕ)) → AreOf precedences.now pairs → result ≡ list_all (is_arrow (steps sequence.now ++ pairs)) (neighbours cycle.now) }
{
    for at in 0..cycle.len() - 1 {
        if !is_arrow(precedences, sequence, cycle[at], cycle[at + 1]) {
            return false;
        }
    }
    true
}

// Whether a list is a cycle along the steps of a sequence and precedences.
fn is_cycle(precedences: &Arrows, sequence: &[u16], cycle: &[u16]) -> bool
    requires { All (λ event. event < 64) cycle.now }
    ensures { (pairs : List (ℕ × ℕ)) → AreOf precedences.now pairs → result ≡ is_cycle (steps sequence.now ++ pairs) cycle.now }
{
    if cycle.len() <= 1 {
        return false;
    }
    if cycle[0] != cycle[cycle.len() - 1] {
        return false;
    }
    is_along(precedences, sequence, cycle)
}

// Whether the part of this number is a text that isn't empty.
fn part_is(parts: &[&[u8]], at: usize, text: &[u8]) -> bool
    requires { 0 < length text.now }
    ensures value { result ≡ bytes_eq (slice_index_or (map (λ part. part.now) parts.now) at []) text.now }
    ensures within { result ≡ true → at < length parts.now }
{
    if at >= parts.len() {
        return false;
    }
    parts[at] == text
}

// Whether the parts of a line have the marks of one that names a sequence of this length.
fn has_marks(parts: &[&[u8]], count: usize) -> bool
    requires { count ≤ 3 }
    ensures value { result ≡ has_marks count (map (λ part. part.now) parts.now) }
    ensures within { result ≡ true → count + 1 < length parts.now }
{
    part_is(parts, 0, b"never") && part_is(parts, count + 1, b":")
}

// The numbers of the events that some parts of a line name, from the first place on and before the second.
fn numbers_between(
    alloc: Global,
    events: &Events,
    parts: &[&[u8]],
    from: usize,
    to: usize,
) -> Result<Option<NoList>, NoMemory>
    requires order { from ≤ to }
    requires within { to ≤ length parts.now }
    ensures value { IfOk result (λ numbers. numbers ≡ numbers_of events.now.names (take (to - from) (drop from (map (λ part. part.now) parts.now)))) }
    ensures below { IfOk result (λ numbers. IfSome numbers (All (λ event. event < 64))) }
{
    events.assert_invariant();
    match numbers_of(alloc, events.names(), &parts[from..to])? {
        Some(numbers) => Ok(Some(numbers)),
        None => Ok(None),
    }
}

// Whether a list is a sequence, and another a cycle along its steps and precedences.
fn is_good(events: &Events, precedences: &Arrows, sequence: &[u16], cycle: &[u16]) -> bool
    requires cycle { All (λ event. event < 64) cycle.now }
    requires arrows { AreOf precedences.now events.now.precedences }
    ensures { result ≡ (is_sequence events.now sequence.now && is_cycle (arrows events.now sequence.now) cycle.now) }
{
    if !is_sequence(events, sequence) {
        return false;
    }
    is_cycle(precedences, sequence, cycle)
}

// The sequence that the parts of a line name, where it is that of a sequence with a good cycle.
fn never_in(
    alloc: Global,
    events: &Events,
    precedences: &Arrows,
    parts: &[&[u8]],
) -> Result<Option<NoList>, NoMemory>
    requires { AreOf precedences.now events.now.precedences }
    ensures { IfOk result (IsNeverIn events.now (never_in events.now (map (λ part. part.now) parts.now))) }
{
    events.assert_invariant();
    let count = events.length() as usize;
    if !has_marks(parts, count) {
        return Ok(None);
    }
    let Some(sequence) = numbers_between(alloc, events, parts, 1, count + 1)? else {
        return Ok(None);
    };
    let Some(cycle) = numbers_between(alloc, events, parts, count + 2, parts.len())? else {
        return Ok(None);
    };
    if !is_good(events, precedences, sequence.as_slice(), cycle.as_slice()) {
        return Ok(None);
    }
    Ok(Some(sequence))
}

// The sequence of a line that is that of a sequence with a good cycle.
fn read_never(
    alloc: Global,
    events: &Events,
    precedences: &Arrows,
    line: &[u8],
) -> Result<Option<NoList>, NoMemory>
    requires { AreOf precedences.now events.now.precedences }
    ensures { IfOk result (IsNeverIn events.now (never_in events.now (slice_split is_space line.now))) }
{
    let parts = parts(alloc, line, b' ')?;
    match never_in(alloc, events, precedences, parts.as_slice())? {
        Some(sequence) => Ok(Some(sequence)),
        None => Ok(None),
    }
}

/// What a line of a report is.
///
/// # Errors
///
/// `NoMemory` where memory was refused.
pub(crate) fn read_line(
    alloc: Global,
    events: &Events,
    precedences: &Arrows,
    line: &[u8],
) -> Result<ReportLine, NoMemory>
    requires { AreOf precedences.now events.now.precedences }
    ensures { IfOk result (IsLine events.now (report_line_of events.now line.now)) }
{
    if let Some(places) = read_row(alloc, events, line)? {
        return Ok(ReportLine::Row(places));
    }
    match read_never(alloc, events, precedences, line)? {
        Some(sequence) => Ok(ReportLine::Never(sequence)),
        None => Ok(ReportLine::Wrong),
    }
}
