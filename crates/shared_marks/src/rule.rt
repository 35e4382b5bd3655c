ghost use Rattle.std.specs.Prelude.{◌≡◌, ℕ};
ghost use Rattle.shared_marks.specs.Facts.{IsKept};
ghost use Rattle.shared_marks.specs.Seats.{first_holding, halved, joined, marking, noting, other_half, spent};
ghost use Rattle.shared_marks.specs.Steps.{IsMarkStep, IsTest, IsTestStep, has_bit, marking_all, places_of};

use crate::holding::Holding;
use atomic_table::{Join, Play, Split, TableRule};
use std::marker::{Brand, PhantomData};

// The rule of a table of marks, which is told how many words it has.
pub(crate) struct MarkRule;

impl TableRule<(), Holding, usize> for MarkRule {
    ghost holds = { λ count state. IsKept count state.words state.views };

    ghost first = { λ _. first_holding };
}

// The place that a step is about, and the number of words of the table. Each call picks them.
pub(crate) trait Place {
    ghost place: { ℕ };

    ghost count: { ℕ };
}

impl Place for Brand {
    ghost place = { 0 };

    ghost count = { 0 };
}

// A step that marks a place.
pub(crate) struct Marking<P: Place> {
    of: PhantomData<P>,
}

impl<P: Place> Play<(), Holding> for Marking<P> {
    ghost then = { λ _ before _ after. (after ≡ (marking P.place before.0, before.1)) × IsMarkStep P.count P.place before.0 after.0 };
}

// A step that marks the places of a word whose bits its operand has.
pub(crate) struct MarkingBits;

impl Play<(), Holding> for MarkingBits {
    ghost then = { λ step before _ after. after ≡ (marking_all (places_of step.word step.first) before.0, before.1) };
}

// A step that marks a place whose bit is set already.
pub(crate) struct Noting<P: Place> {
    of: PhantomData<P>,
}

impl<P: Place> Play<(), Holding> for Noting<P> {
    ghost then = { λ _ before word after. after ≡ (noting P.place (has_bit word P.place) before.0, before.1) };
}

// A step that tests a place.
pub(crate) struct Testing<P: Place> {
    of: PhantomData<P>,
}

impl<P: Place> Play<(), Holding> for Testing<P> {
    ghost then = { λ _ before word after. IsTest P.place word before.0 after.0 × (after.1 ≡ before.1) × IsTestStep P.count P.place (has_bit word P.place) before.0 after.0 };
}

// A seat is split in halves, and two seats are joined.
pub(crate) struct Halves;

impl Split<Holding> for Halves {
    ghost left = { halved };

    ghost right = { other_half };
}

impl Join<Holding> for Halves {
    ghost both = { joined };

    ghost spent = { spent };
}
