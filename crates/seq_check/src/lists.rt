//! All lists of so many distinct events.
ghost use Rattle.std.specs.Prelude.{◌≡◌, ◌≤◌, ◌++◌, ◌∷◌, [], IfOk, OnOk};
ghost use Rattle.std.specs.List.{flat_map};
ghost use Rattle.seq_check.specs.believed.Orders.{distinct_lists, lengthened};

use std::alloc::Global;
use value_text::{NoMemory, OwnedList};

/// A list of events, by their numbers.
pub type NoList = OwnedList<u16>;

/// A list of lists of events.
pub type NoListList = OwnedList<NoList>;

/// A list of events with one more at its end.
///
/// # Errors
///
/// `NoMemory` where memory was refused.
pub fn with_event(alloc: Global, front: &[u16], event: u16) -> Result<NoList, NoMemory>
    ensures { IfOk result (λ list. list ≡ front.now ++ event ∷ []) }
{
    let mut list = OwnedList::new(alloc);
    for other in front {
        list.push(*other)?;
    }
    list.push(event)?;
    Ok(list)
}

// Adds a list, lengthened by each of the events that it has not.
fn add_lengthened(
    alloc: Global,
    front: &[u16],
    count: u16,
    into: &mut NoListList,
) -> Result<(), NoMemory>
    ensures { OnOk result (into.new ≡ into.old ++ lengthened count front.now) }
{
    for event in 0..count {
        if front.contains(&event) {
            continue;
        }
        into.push(with_event(alloc, front, event)?)?;
    }
    Ok(())
}

// Lists, each lengthened by each of the events that it has not.
fn all_lengthened(alloc: Global, lists: &[NoList], count: u16) -> Result<NoListList, NoMemory>
    ensures { IfOk result (λ longer. longer ≡ flat_map (lengthened count) lists.now) }
{
    let mut longer = OwnedList::new(alloc);
    for front in lists {
        add_lengthened(alloc, front.as_slice(), count, &mut longer)?;
    }
    Ok(longer)
}

/// All lists of so many distinct ones of the events below a number, in lexicographic order.
///
/// # Errors
///
/// `NoMemory` where memory was refused.
pub fn distinct_lists(alloc: Global, count: u16, length: u32) -> Result<NoListList, NoMemory>
    ensures { IfOk result (λ lists. lists ≡ distinct_lists count length) }
{
    let mut lists = OwnedList::new(alloc);
    lists.push(OwnedList::new(alloc))?;
    for turn in 0..length {
        lists = all_lengthened(alloc, lists.as_slice(), count)?;
    }
    Ok(lists)
}
