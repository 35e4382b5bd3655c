//! The arrows of a sequence: its steps and the precedences.
ghost use Rattle.std.specs.Prelude.{◌≡◌, ◌<◌, ◌≤◌, ◌++◌, ◌⊎◌, ℕ, List, All, length, IfOk};
ghost use Rattle.seq_check.specs.EventSets.{AreBack, AreOf};
ghost use Rattle.seq_check.specs.believed.Orders.{steps};
ghost use Rattle.seq_cover.specs.Sets.{AreWays};
ghost use Rattle.seq_cover.specs.believed.Ways.{cycle_of};

use crate::cycle::cycle_from;
use crate::ways::{add_steps, first_on_cycle};
use seq_check::{Arrows, NoList};
use std::alloc::Global;
use value_text::NoMemory;

// Adds the steps of a sequence to arrows.
fn add_arrows(ends: &mut Arrows, sequence: &[u16])
    requires exist { All (λ event. event < 64) sequence.now }
    requires len { (length sequence.now ≡ 2) ⊎ (length sequence.now ≡ 3) }
    ensures { (pairs : List (ℕ × ℕ)) → AreOf ends.old pairs → AreOf ends.new (steps sequence.now ++ pairs) }
{
    match sequence {
        [first, second] => ends.add(*first, *second),
        [first, second, third] => {
            ends.add(*second, *third);
            ends.add(*first, *third);
            ends.add(*first, *second);
        }
        _ => {}
    }
}

// Adds the steps of a sequence to arrows that are turned round.
fn add_back(back: &mut Arrows, sequence: &[u16])
    requires exist { All (λ event. event < 64) sequence.now }
    requires len { (length sequence.now ≡ 2) ⊎ (length sequence.now ≡ 3) }
    ensures { (pairs : List (ℕ × ℕ)) → AreBack back.old pairs → AreBack back.new (steps sequence.now ++ pairs) }
{
    match sequence {
        [first, second] => back.add(*second, *first),
        [first, second, third] => {
            back.add(*third, *second);
            back.add(*third, *first);
            back.add(*second, *first);
        }
        _ => {}
    }
}

/// Precedences that are turned round, and with them the steps of a sequence.
///
/// # Errors
///
/// `NoMemory` where memory was refused.
pub(crate) fn back_with(alloc: Global, back: &Arrows, sequence: &[u16]) -> Result<Arrows, NoMemory>
    requires exist { All (λ event. event < 64) sequence.now }
    requires len { (length sequence.now ≡ 2) ⊎ (length sequence.now ≡ 3) }
    ensures { IfOk result (λ with. (pairs : List (ℕ × ℕ)) → AreBack back.now pairs → AreBack with (steps sequence.now ++ pairs)) }
{
    let mut with = back.copy(alloc)?;
    add_back(&mut with, sequence);
    Ok(with)
}

/// The cycle along the steps of a sequence and precedences, where there is one. The precedences are given by
/// their ways and their ends.
///
/// # Errors
///
/// `NoMemory` where memory was refused.
pub(crate) fn cycle_of(
    alloc: Global,
    ways: &Arrows,
    ends: &Arrows,
    sequence: &[u16],
    count: u16,
) -> Result<Option<NoList>, NoMemory>
    requires exist { All (λ event. event < 64) sequence.now }
    requires len { (length sequence.now ≡ 2) ⊎ (length sequence.now ≡ 3) }
    requires count { count ≤ 64 }
    ensures { IfOk result (λ cycle. (pairs : List (ℕ × ℕ)) → AreWays ways.now pairs → AreOf ends.now pairs → cycle ≡ cycle_of count (steps sequence.now ++ pairs)) }
{
    let mut ways = ways.copy(alloc)?;
    add_steps(&mut ways, sequence);
    let Some(first) = first_on_cycle(&ways, count) else {
        return Ok(None);
    };
    let mut ends = ends.copy(alloc)?;
    add_arrows(&mut ends, sequence);
    let cycle = cycle_from(alloc, &ends, count, first)?;
    Ok(Some(cycle))
}
