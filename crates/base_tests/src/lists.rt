//! Lists, marks, live values and packed lists.

use bit_table::BitTable;
use live_sets::LiveSets;
use packed_lists::PackedLists;
use std::test::Fail;
use value_text::{OwnedList, Text, TextList};

#[test]
fn texts_stand_in_a_list(rt: HostRuntime) -> Result<(), Fail> {
    let mut names = TextList::new(rt.alloc());
    names.push(Text::copy(rt.alloc(), "one")?)?;
    names.push(Text::copy(rt.alloc(), "two")?)?;
    assert!(rt; names.len() == 2 && !names.is_empty());
    assert!(rt; names.as_slice().len() == 2 && names.iter().count() == 2);
    match names.get(1) {
        Some(name) => assert!(rt; name.as_str() == "two"),
        None => assert!(rt; false),
    }
    Ok(())
}

#[test]
fn a_vector_goes_behind_a_list(rt: HostRuntime) -> Result<(), Fail> {
    let mut list = OwnedList::new(rt.alloc());
    list.append(vec![in rt.alloc(); 3u32; 2]?)?;
    list.append(vec![in rt.alloc(); 5u32; 1]?)?;
    assert!(rt; list.as_slice() == [3, 3, 5].as_slice());
    Ok(())
}

#[test]
fn marks_are_set_and_cleared(rt: HostRuntime) -> Result<(), Fail> {
    let mut table = BitTable::all_set(rt.alloc(), 70)?;
    assert!(rt; table.len() == 70 && table.count() == 70);
    table.clear(64);
    table.clear(65);
    assert!(rt; table.count() == 68);
    assert!(rt; table.next_set(64, 70) == Some(66));
    table.set(64);
    assert!(rt; table.is_set(64) && !table.is_set(65));
    Ok(())
}

// Two parameters, of two and three values.
#[test]
fn live_values_are_taken_away_and_put_back(rt: HostRuntime) -> Result<(), Fail> {
    let mut sets = Vec::new(rt.alloc());
    sets.push(BitTable::all_set(rt.alloc(), 2)?)?;
    sets.push(BitTable::all_set(rt.alloc(), 3)?)?;
    let mut live = LiveSets::new(rt.alloc(), sets)?;
    live.take_away(1, 0);
    assert!(rt; live.trail_len() == 1 && live.count(0) == 2 && live.count(1) == 2);
    live.undo(0);
    assert!(rt; live.trail_len() == 0 && live.count(1) == 3);
    Ok(())
}

#[test]
fn lists_are_packed(rt: HostRuntime) -> Result<(), Fail> {
    let mut lists = PackedLists::new(rt.alloc());
    lists.push(&[3, 1])?;
    lists.push(&[])?;
    lists.push(&[65535])?;
    assert!(rt; lists.len() == 3);
    assert!(rt; lists.list(0) == [3, 1].as_slice());
    assert!(rt; lists.list(1).is_empty());
    assert!(rt; lists.list(2) == [65535].as_slice());
    Ok(())
}
