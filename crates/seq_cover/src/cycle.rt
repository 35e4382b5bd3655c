//! The cycle that is told for a sequence that no permitted order has.
ghost use Rattle.std.specs.Prelude.{◌≡◌, ◌<◌, ◌≤◌, ◌&&◌, ◌||◌, ◌∷◌, ℕ, List, Bool, length, nat_lt, is_some, IfOk, IfSome};
ghost use Rattle.seq_check.specs.EventSets.{AreOf, in_set};
ghost use Rattle.seq_check.specs.declared.event_set.EventSet.{EventSet};
ghost use Rattle.seq_cover.specs.Sets.{AreLevels, Holds, IsFewest};
ghost use Rattle.seq_cover.specs.believed.Ways.{cycle_by, fewest, next_near, way_back};

use seq_check::{Arrows, EventSet, NoList};
use std::alloc::Global;
use value_text::{NoMemory, OwnedList};

// The least event to which an arrow leads from an event, and which is near.
fn next_near(ends: &Arrows, near: EventSet, event: u16) -> Option<u16>
    requires { event < 64 }
    ensures value { (n : ℕ) (pairs : List (ℕ × ℕ)) (test : ℕ → Bool) → n ≤ 64 → AreOf ends.now pairs → Holds near n test → result ≡ next_near n pairs test event }
    ensures below { IfSome result (λ next. next < 64) }
{
    ends.ends(event).common(near).first()
}

// The near events, and those from which an arrow leads to one of them.
fn one_step_more(ends: &Arrows, near: EventSet, count: u16) -> EventSet
    requires { count ≤ 64 }
    ensures { (pairs : List (ℕ × ℕ)) (test : ℕ → Bool) → AreOf ends.now pairs → Holds near count test →
        Holds result count (λ event. test event || is_some (next_near count pairs test event)) }
{
    let mut wider = near;
    for event in 0..count {
        if next_near(ends, near, event).is_none() {
            continue;
        }
        wider = wider.with(event);
    }
    wider
}

// For each number of steps up to the fewest behind which a first step reaches the goal again: the events from
// which so many are enough.
fn levels_to(
    alloc: Global,
    ends: &Arrows,
    count: u16,
    goal: u16,
) -> Result<Option<Vec<EventSet>>, NoMemory>
    requires count { count ≤ 64 }
    requires goal { goal < count }
    ensures { IfOk result (λ levels. (pairs : List (ℕ × ℕ)) → AreOf ends.now pairs → IsFewest count pairs goal levels) }
{
    let mut levels = Vec::new(alloc);
    let mut near = EventSet::none().with(goal);
    for turn in 0..count {
        levels.push(near)?;
        if next_near(ends, near, goal).is_some() {
            return Ok(Some(levels));
        }
        near = one_step_more(ends, near, count);
    }
    Ok(None)
}

// The way back to the goal, by the least event each time.
fn way_along(
    alloc: Global,
    ends: &Arrows,
    levels: &[EventSet],
    goal: u16,
) -> Result<NoList, NoMemory>
    requires { goal < 64 }
    ensures { IfOk result (λ cycle. (n : ℕ) (pairs : List (ℕ × ℕ)) → n ≤ 64 → AreOf ends.now pairs → AreLevels levels.now n pairs goal →
        cycle ≡ goal ∷ way_back n pairs goal (length levels.now) goal) }
{
    let mut cycle = OwnedList::new(alloc);
    cycle.push(goal)?;
    let mut event = goal;
    let mut at = levels.len();
    while at > 0 {
        at -= 1;
        let Some(next) = next_near(ends, levels[at], event) else {
            return Ok(cycle);
        };
        cycle.push(next)?;
        event = next;
    }
    Ok(cycle)
}

/// The cycle from an event that lies on one: of the fewest steps, and each time to the least event.
///
/// # Errors
///
/// `NoMemory` where memory was refused.
pub(crate) fn cycle_from(
    alloc: Global,
    ends: &Arrows,
    count: u16,
    first: u16,
) -> Result<NoList, NoMemory>
    requires count { count ≤ 64 }
    requires first { first < count }
    ensures { IfOk result (λ cycle. (pairs : List (ℕ × ℕ)) → AreOf ends.now pairs → cycle ≡ cycle_by count pairs first (fewest count pairs first)) }
{
    match levels_to(alloc, ends, count, first)? {
        Some(levels) => Ok(way_along(alloc, ends, levels.as_slice(), first)?),
        None => {
            let mut cycle = OwnedList::new(alloc);
            cycle.push(first)?;
            Ok(cycle)
        }
    }
}
