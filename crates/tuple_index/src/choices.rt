ghost use Rattle.std.specs.Prelude.{◌≡◌, ◌++◌, map, length, IfOk, OnOk};
ghost use Rattle.std.specs.List.{flat_map};
ghost use Rattle.definitions.specs.believed.Demand.{choose};

use std::alloc::Global;
use value_text::{NoMemory, OwnedList};

/// A list of lists.
pub type Ways<T> = OwnedList<OwnedList<T>>;

// The one list after the other.
fn joined<T: Copy + Drop>(
    alloc: Global,
    first: &[T],
    second: &[T],
) -> Result<OwnedList<T>, NoMemory>
    ensures { IfOk result (λ list. list ≡ first.now ++ second.now) }
{
    let mut both = Vec::from_slice(alloc, first)?;
    both.extend_from_slice(second)?;
    let mut list = OwnedList::new(alloc);
    list.append(both)?;
    Ok(list)
}

// Adds each of the lists, with these items before it.
fn push_joined<T: Copy + Drop>(
    alloc: Global,
    into: &mut Ways<T>,
    first: &[T],
    others: &[OwnedList<T>],
) -> Result<(), NoMemory>
    ensures { OnOk result (into.new ≡ into.old ++ map (λ other. first.now ++ other) others.now) }
{
    for other in others {
        into.push(joined(alloc, first, other.as_slice())?)?;
    }
    Ok(())
}

/// All ways to take k of the items, each in the order of the items.
///
/// # Errors
///
/// `NoMemory` where there is no room for them.
pub fn ways_to_choose<T: Copy + Drop>(
    alloc: Global,
    k: u32,
    items: &[T],
) -> Result<Ways<T>, NoMemory>
    ensures { IfOk result (λ ways. ways ≡ choose k items.now) }
{
    let mut ways = OwnedList::new(alloc);
    if k == 0 {
        ways.push(OwnedList::new(alloc))?;
        return Ok(ways);
    }
    let last = items.len().saturating_sub(k as usize - 1);
    for i in 0..last {
        let rest = ways_to_choose(alloc, k - 1, &items[i + 1..])?;
        push_joined(alloc, &mut ways, &[items[i]], rest.as_slice())?;
    }
    Ok(ways)
}

/// The unions of one way of each of two lists of ways.
pub fn cross(
    alloc: Global,
    ways: &[OwnedList<u16>],
    others: &[OwnedList<u16>],
) -> Result<Ways<u16>, NoMemory>
    ensures { IfOk result (λ both. both ≡ flat_map (λ way. map (λ other. way ++ other) others.now) ways.now) }
{
    let mut both = OwnedList::new(alloc);
    for way in ways {
        push_joined(alloc, &mut both, way.as_slice(), others)?;
    }
    Ok(both)
}
