//! Ways along arrows, as sets of the events that they lead to.
ghost use Rattle.std.specs.Prelude.{◌≡◌, ◌<◌, ◌≤◌, ◌&&◌, ◌||◌, ◌==◌, ◌++◌, ◌⊎◌, ℕ, List, All, length, find, IfOk, IfSome};
ghost use Rattle.std.specs.List.{range_with_len};
ghost use Rattle.seq_check.specs.EventSets.{in_set_at};
ghost use Rattle.seq_check.specs.believed.Orders.{steps};
ghost use Rattle.seq_cover.specs.believed.Ways.{leads};
ghost use Rattle.seq_cover.specs.Sets.{AreWays};

use seq_check::Arrows;
use std::alloc::Global;
use value_text::NoMemory;

// Whether the event is one, or a way leads to that one.
fn reaches(ways: &Arrows, event: u16, goal: u16) -> bool
    requires event { event < 64 }
    requires goal { goal < 64 }
    ensures { result ≡ ((event == goal) || in_set_at ways.now event goal) }
{
    event == goal || ways.ends(event).has(goal)
}

// Adds the ways that one arrow more gives.
fn add_way(ways: &mut Arrows, from: u16, to: u16)
    requires from { from < 64 }
    requires to { to < 64 }
    ensures { (first second : ℕ) → first < 64 → in_set_at ways.new first second
        ≡ (in_set_at ways.old first second || (((first == from) || in_set_at ways.old first from) && (in_set_at ways.old to second || (to == second)))) }
{
    let through = ways.ends(to).with(to);
    for event in 0..64 {
        if !reaches(ways, event, from) {
            continue;
        }
        ways.add_all(event, through);
    }
}

/// The ways along arrows.
///
/// # Errors
///
/// `NoMemory` where memory was refused.
pub(crate) fn ways_of(alloc: Global, pairs: &[(u16, u16)]) -> Result<Arrows, NoMemory>
    requires { All (λ pair. (pair.0 < 64) × (pair.1 < 64)) pairs.now }
    ensures { IfOk result (λ ways. AreWays ways pairs.now) }
{
    let mut ways = Arrows::new(alloc)?;
    let mut at = pairs.len();
    while at > 0 {
        at -= 1;
        let (from, to) = pairs[at];
        add_way(&mut ways, from, to);
    }
    Ok(ways)
}

/// Adds the ways that the steps of a sequence give.
pub(crate) fn add_steps(ways: &mut Arrows, sequence: &[u16])
    requires exist { All (λ event. event < 64) sequence.now }
    requires len { (length sequence.now ≡ 2) ⊎ (length sequence.now ≡ 3) }
    ensures { (pairs : List (ℕ × ℕ)) → AreWays ways.old pairs → AreWays ways.new (steps sequence.now ++ pairs) }
{
    match sequence {
        [first, second] => add_way(ways, *first, *second),
        [first, second, third] => {
            add_way(ways, *second, *third);
            add_way(ways, *first, *third);
            add_way(ways, *first, *second);
        }
        _ => {}
    }
}

/// The least event below a number that lies on a cycle.
pub(crate) fn first_on_cycle(ways: &Arrows, count: u16) -> Option<u16>
    requires { count ≤ 64 }
    ensures value { (pairs : List (ℕ × ℕ)) → AreWays ways.now pairs → result ≡ find (λ event. leads pairs event event) (range_with_len 0 count) }
    ensures below { IfSome result (λ event. event < count) }
{
    for event in 0..count {
        if ways.ends(event).has(event) {
            return Some(event);
        }
    }
    None
}
