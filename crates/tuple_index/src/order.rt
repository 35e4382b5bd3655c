ghost use Rattle.std.specs.Prelude.{◌≡◌, true, map, IfOk};
ghost use Rattle.std.specs.Ordering.{is_lt, nat_cmp};
ghost use Rattle.std.specs.Cmp.Lexicographic.{slice_cmp};
ghost use Rattle.definitions.specs.believed.Demand.{in_order};

use cov_model::ParamNo;
use packed_lists::PackedLists;
use std::alloc::Global;
use value_text::NoMemory;

// Whether a set stands before another in lexicographic order.
fn stands_before(set: &[ParamNo], other: &[ParamNo]) -> bool
    ensures { result ≡ is_lt (slice_cmp nat_cmp set.now other.now) }
{
    set.cmp(&other).is_lt()
}

// Whether each set stands before the next one.
fn are_in_order(sets: &PackedLists) -> bool
    ensures { result ≡ true → sets.now ≡ in_order sets.now }
{
    for i in 1..sets.len() {
        if !stands_before(sets.list(i - 1), sets.list(i)) {
            return false;
        }
    }
    true
}

// Each of the sets, as it stands.
fn lent(alloc: Global, sets: &PackedLists) -> Result<Vec<&[ParamNo]>, NoMemory>
    ensures { IfOk result (λ all. map (λ set. set.now) all.items ≡ sets.now) }
{
    let mut all = Vec::with_capacity(alloc, sets.len())?;
    for i in 0..sets.len() {
        all.push(sets.list(i))?;
    }
    Ok(all)
}

// The sets in one piece of memory.
fn packed(alloc: Global, all: &[&[ParamNo]]) -> Result<PackedLists, NoMemory>
    ensures { IfOk result (λ sets. sets ≡ map (λ set. set.now) all.now) }
{
    let mut sets = PackedLists::new(alloc);
    for set in all {
        sets.push(set)?;
    }
    Ok(sets)
}

/// The distinct sets, in lexicographic order. Takes no memory where they are so already, as those of
/// a model without sub-models and relations are.
///
/// # Errors
///
/// `NoMemory` where there is no room for ordering them.
pub fn ordered(alloc: Global, sets: PackedLists) -> Result<PackedLists, NoMemory>
    ensures { IfOk result (λ all. all ≡ in_order sets) }
{
    if are_in_order(&sets) {
        return Ok(sets);
    }
    let mut all = lent(alloc, &sets)?;
    all.sort_unstable();
    all.dedup();
    packed(alloc, &all)
}
