ghost use Rattle.std.specs.Prelude.{◌≡◌, ◌<◌, ◌≤◌, ◌^◌, ℕ, IfSome, None, length, slice_index_or, true};
ghost use Rattle.std.specs.List.{list_any};
ghost use Rattle.std.specs.List.Sorted.{IsNonDecreasingBy};
ghost use Rattle.definitions.specs.believed.Demand.{demanded_sets};
ghost use Rattle.uncovered_table.specs.Bits.{InPlay, next_in, next_of, sets_in_play, skipped};
ghost use Rattle.uncovered_table.specs.Places.{is_place, set_at, slice_places, slice_start};

use crate::sets::SliceSets;
use bit_table::BitTable;
use cov_model::ParamNo;

// The place in a rising list from which on the sets have number `set` or above.
fn first_from(sets: &[u32], set: u32) -> usize
    requires { IsNonDecreasingBy (λ s. s) sets.now }
    ensures within { result ≤ length sets.now }
    ensures before { (k : ℕ) → k < result → slice_index_or sets.now k 0 < set }
    ensures rest { (k : ℕ) → result ≤ k → k < length sets.now → set ≤ slice_index_or sets.now k 0 }
{
    sets.partition_point(|s| *s < set)
}

// How many places of a set, the first of which has this rank, do not stand behind a place.
fn skipped(start: u32, from: Option<(u32, u32)>, set: u32) -> u32
    requires { skipped start from set < 2 ^ 32 }
    ensures { result ≡ skipped start from set }
{
    match from {
        Some(place) if place.0 == set => place.1.saturating_sub(start) + 1,
        _ => 0,
    }
}

// The first open tuple of a set behind a place.
fn next_in(
    sets: &SliceSets<'_>,
    bits: &BitTable,
    set: u32,
    column: ParamNo,
    from: Option<(u32, u32)>,
) -> Option<(u32, u32)>
    requires set { InPlay sets.now.model sets.now.slice column set }
    requires bits { length bits.now ≡ length (slice_places sets.now.model sets.now.slice) }
    requires from { IfSome from (λ place. list_any (is_place place) (slice_places sets.now.model sets.now.slice) ≡ true) }
    requires least { IfSome from (λ place. place.0 ≤ set) }
    ensures value { result ≡ next_in sets.now.model sets.now.slice bits.now from set }
    ensures own { IfSome result (λ place. list_any (is_place place) (slice_places sets.now.model sets.now.slice) ≡ true) }
{
    sets.assert_invariant();
    let block = sets.block(set);
    let low = block.first + skipped(block.start, from, set);
    match bits.next_set(low, block.first + block.count) {
        Some(bit) => Some((set, block.start + (bit - block.first))),
        None => None,
    }
}

// Where the sets begin that can have an open tuple behind a place.
fn first_set(sets: &[u32], from: Option<(u32, u32)>) -> usize
    requires { IsNonDecreasingBy (λ s. s) sets.now }
    ensures within { result ≤ length sets.now }
    ensures before { (k : ℕ) → k < result → IfSome from (λ place. slice_index_or sets.now k 0 < place.0) }
    ensures rest { (k : ℕ) → result ≤ k → k < length sets.now → IfSome from (λ place. place.0 ≤ slice_index_or sets.now k 0) }
    ensures all { from ≡ None → result ≡ 0 }
{
    match from {
        Some(place) => first_from(sets, place.0),
        None => 0,
    }
}

// The first open tuple of the sets in play behind a place.
pub(crate) fn next_of(
    sets: &SliceSets<'_>,
    bits: &BitTable,
    column: ParamNo,
    from: Option<(u32, u32)>,
) -> Option<(u32, u32)>
    requires column { column < length sets.now.model.params }
    requires bits { length bits.now ≡ length (slice_places sets.now.model sets.now.slice) }
    requires from { IfSome from (λ place. list_any (is_place place) (slice_places sets.now.model sets.now.slice) ≡ true) }
    ensures value { result ≡ next_of sets.now.model sets.now.slice bits.now from (sets_in_play sets.now.model sets.now.slice column) }
    ensures own { IfSome result (λ place. list_any (is_place place) (slice_places sets.now.model sets.now.slice) ≡ true) }
{
    let in_play = sets.in_play(column);
    for i in first_set(in_play, from)..in_play.len() {
        let next = next_in(sets, bits, in_play[i], column, from);
        if next.is_some() {
            return next;
        }
    }
    None
}
