//! Growth: sequence by sequence.
ghost use Rattle.std.specs.Prelude.{◌≡◌, ◌≤◌, ◌<◌, ◌+◌, ◌-◌, ◌∷◌, ◌++◌, [], ℕ, All, false, length, fold, IfOk, OnOk};
ghost use Rattle.seq_check.specs.EventSets.{IsFront};
ghost use Rattle.seq_check.specs.believed.Orders.{arrows, distinct_lists, is_among, is_had, lengthened, sequences};
ghost use Rattle.seq_check.specs.believed.Verdicts.{verdict};
ghost use Rattle.seq_check.specs.declared.verdict.OrderVerdict.TheVariants.{Accepted};
ghost use Rattle.seq_cover.specs.Covering.{Covers};
ghost use Rattle.seq_cover.specs.Growing.{AreFixed, IsLeft};
ghost use Rattle.seq_cover.specs.believed.OrderGrowth.{built_from, grown, nothing_grown, settled, settled_by};
ghost use Rattle.seq_cover.specs.believed.ReportText.{report_text};
ghost use Rattle.seq_cover.specs.believed.Ways.{cycle_of};

use crate::row::build_row;
use crate::steps::{back_with, cycle_of};
use crate::suite::{Never, OrderSuite};
use crate::ways::ways_of;
use seq_check::{Arrows, Events, NoList, OpenSequences, distinct_lists, places_of, with_event};
use std::alloc::Global;
use value_text::{NoMemory, OwnedList};

// What was grown, and the sequences that no row has.
#[derive(Drop)]
struct Growth {
    suite: OrderSuite,
    opened: OpenSequences,
}

// The precedences, by the ways along them, by their ends, and turned round.
#[derive(Drop)]
struct Fixed {
    ways: Arrows,
    ends: Arrows,
    back: Arrows,
}

impl Fixed {
    // The precedences of these events.
    fn of(alloc: Global, events: &Events) -> Result<Fixed, NoMemory>
        ensures { IfOk result (λ fixed. AreFixed events.now fixed.ways fixed.ends fixed.back) }
    {
        events.assert_invariant();
        let precedences = events.precedences().as_slice();
        Ok(Fixed {
            ways: ways_of(alloc, precedences)?,
            ends: Arrows::of(alloc, precedences)?,
            back: Arrows::back(alloc, precedences)?,
        })
    }
}

impl Growth {
    // Nothing grown.
    fn new(alloc: Global, events: &Events) -> Result<Growth, NoMemory>
        ensures suite { IfOk result (λ growth. growth.suite ≡ nothing_grown) }
        ensures left { IfOk result (λ growth. IsLeft events.now growth.opened growth.suite.rows) }
    {
        events.assert_invariant();
        let opened = OpenSequences::new(alloc, events.length())?;
        Ok(Growth {
            suite: OrderSuite {
                rows: OwnedList::new(alloc),
                never: OwnedList::new(alloc),
            },
            opened,
        })
    }

    // Sets a sequence aside.
    fn set_aside(&mut self, sequence: NoList, cycle: NoList) -> Result<(), NoMemory>
        ensures rows { OnOk result (self.new.suite.rows ≡ self.old.suite.rows) }
        ensures never { OnOk result (self.new.suite.never ≡ self.old.suite.never ++ record { sequence = sequence; cycle = cycle } ∷ []) }
        ensures opened { self.new.opened ≡ self.old.opened }
    {
        self.suite.never.push(Never { sequence, cycle })
    }

    // Adds the row that is built for a sequence.
    fn add_row(
        &mut self,
        alloc: Global,
        events: &Events,
        fixed: &Fixed,
        sequence: &[u16],
    ) -> Result<(), NoMemory>
        requires left { IsLeft events.now self.old.opened self.old.suite.rows }
        requires fixed { AreFixed events.now fixed.now.ways fixed.now.ends fixed.now.back }
        requires sequence { length sequence.now ≡ events.now.len }
        requires exist { All (λ event. event < length events.now.names) sequence.now }
        ensures rows { OnOk result (self.new.suite.rows ≡ self.old.suite.rows
            ++ built_from (length events.now.names) events.now.len (arrows events.now sequence.now) self.old.suite.rows (length events.now.names) [] ∷ []) }
        ensures never { OnOk result (self.new.suite.never ≡ self.old.suite.never) }
        ensures left { OnOk result (IsLeft events.now self.new.opened self.new.suite.rows) }
    {
        events.assert_invariant();
        let count = events.names().len() as u16;
        let back = back_with(alloc, &fixed.back, sequence)?;
        let row = build_row(alloc, &back, &self.opened, events.length(), count)?;
        let places = places_of(alloc, row.as_slice(), count)?;
        self.opened.close_row(places.as_slice());
        self.suite.rows.push(row)
    }

    // Takes a sequence: it is had, or set aside, or gets a row.
    fn settle(
        &mut self,
        alloc: Global,
        events: &Events,
        fixed: &Fixed,
        front: &[u16],
        last: u16,
    ) -> Result<(), NoMemory>
        requires left { IsLeft events.now self.old.opened self.old.suite.rows }
        requires fixed { AreFixed events.now fixed.now.ways fixed.now.ends fixed.now.back }
        requires front { IsFront events.now.len (length events.now.names) front.now }
        requires last { last < length events.now.names }
        ensures suite { OnOk result (self.new.suite ≡ settled events.now self.old.suite (front.now ++ last ∷ [])) }
        ensures left { OnOk result (IsLeft events.now self.new.opened self.new.suite.rows) }
    {
        events.assert_invariant();
        if !self.opened.is_open(front, last) {
            return Ok(());
        }
        let sequence = with_event(alloc, front, last)?;
        let count = events.names().len() as u16;
        match cycle_of(alloc, &fixed.ways, &fixed.ends, sequence.as_slice(), count)? {
            Some(cycle) => self.set_aside(sequence, cycle),
            None => self.add_row(alloc, events, fixed, sequence.as_slice()),
        }
    }

    // Takes the sequences that begin with all of their events but the last.
    fn settle_all(
        &mut self,
        alloc: Global,
        events: &Events,
        fixed: &Fixed,
        front: &[u16],
    ) -> Result<(), NoMemory>
        requires left { IsLeft events.now self.old.opened self.old.suite.rows }
        requires fixed { AreFixed events.now fixed.now.ways fixed.now.ends fixed.now.back }
        requires front { IsFront events.now.len (length events.now.names) front.now }
        ensures suite { OnOk result (self.new.suite ≡ fold (settled events.now) self.old.suite (lengthened (length events.now.names) front.now)) }
        ensures left { OnOk result (IsLeft events.now self.new.opened self.new.suite.rows) }
    {
        events.assert_invariant();
        let count = events.names().len() as u16;
        for last in 0..count {
            if front.contains(&last) {
                continue;
            }
            self.settle(alloc, events, fixed, front, last)?;
        }
        Ok(())
    }

    // Takes the sequences that begin with these lists, which are all of them.
    fn settle_fronts(
        &mut self,
        alloc: Global,
        events: &Events,
        fixed: &Fixed,
        fronts: &[NoList],
    ) -> Result<(), NoMemory>
        requires left { IsLeft events.now self.old.opened self.old.suite.rows }
        requires fixed { AreFixed events.now fixed.now.ways fixed.now.ends fixed.now.back }
        requires fronts { fronts.now ≡ distinct_lists (length events.now.names) (events.now.len - 1) }
        ensures { OnOk result (self.new.suite ≡ fold (settled events.now) self.old.suite (sequences events.now)) }
    {
        events.assert_invariant();
        for front in fronts {
            self.settle_all(alloc, events, fixed, front.as_slice())?;
        }
        Ok(())
    }
}

// What is grown along the sequences that begin with these lists, which are all of them.
fn grow_from(
    alloc: Global,
    events: &Events,
    fixed: &Fixed,
    fronts: &[NoList],
) -> Result<OrderSuite, NoMemory>
    requires fixed { AreFixed events.now fixed.now.ways fixed.now.ends fixed.now.back }
    requires fronts { fronts.now ≡ distinct_lists (length events.now.names) (events.now.len - 1) }
    ensures { IfOk result (λ suite. suite ≡ grown events.now) }
{
    let mut growth = Growth::new(alloc, events)?;
    growth.settle_fronts(alloc, events, fixed, fronts)?;
    Ok(growth.suite)
}

// The rows and the sequences that are set aside, as growth takes the sequences in their order.
fn grow_suite(alloc: Global, events: &Events) -> Result<OrderSuite, NoMemory>
    ensures { IfOk result (λ suite. suite ≡ grown events.now) }
{
    events.assert_invariant();
    let fixed = Fixed::of(alloc, events)?;
    let fronts = distinct_lists(alloc, events.names().len() as u16, events.length() - 1)?;
    grow_from(alloc, events, &fixed, fronts.as_slice())
}

/// Rows that together have each sequence that a permitted order has, and the other sequences, each with a cycle as
/// the reason (greedy growth as Kuhn and others 2012 have it; precedences, cycles and ties are this project's rules).
///
/// # Errors
///
/// `NoMemory` where memory was refused.
pub fn cover_orders(alloc: Global, events: &Events) -> Result<OrderSuite, NoMemory>
    // exactly the rows and the cycles of the definition of growth
    ensures grown { IfOk result (λ suite. suite ≡ grown events.now) }
    // the rows are permitted orders, and each sequence is had by one of them or set aside with a cycle
    ensures covers { IfOk result (Covers events.now) }
    // the checker accepts the report
    ensures accepted { IfOk result (λ suite. verdict events.now (report_text events.now suite) ≡ Accepted (length suite.rows) (length suite.never)) }
{
    events.assert_invariant();
    let suite = grow_suite(alloc, events)?;
    Ok(suite)
}
