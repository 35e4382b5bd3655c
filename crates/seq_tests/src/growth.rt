//! The growth of orders, and what it goes by.

use crate::events::read;
use seq_check::{Arrows, Events, NoList, OpenSequences, distinct_lists, places_of, with_event};
use seq_cover::{Never, OrderSuite, cover_orders};
use std::alloc::Global;
use value_text::NoMemory;

// Whether lists are these.
fn are(lists: &[NoList], wanted: &[&[u16]]) -> bool {
    if lists.len() != wanted.len() {
        return false;
    }
    for (list, numbers) in lists.iter().zip(wanted) {
        if list.as_slice() != *numbers {
            return false;
        }
    }
    true
}

// Whether these sequences are set aside, each with its cycle.
fn are_aside(never: &[Never], wanted: &[(&[u16], &[u16])]) -> bool {
    if never.len() != wanted.len() {
        return false;
    }
    for (aside, (sequence, cycle)) in never.iter().zip(wanted) {
        if aside.sequence.as_slice() != *sequence || aside.cycle.as_slice() != *cycle {
            return false;
        }
    }
    true
}

// Whether a suite has these rows, and sets these sequences aside.
fn has_rows(suite: &OrderSuite, rows: &[&[u16]], aside: &[(&[u16], &[u16])]) -> bool {
    are(suite.rows.as_slice(), rows) && are_aside(suite.never.as_slice(), aside)
}

// Whether such a suite is grown for these events.
fn is_grown(alloc: Global, events: &Events, rows: &[&[u16]], aside: &[(&[u16], &[u16])]) -> bool {
    match cover_orders(alloc, events) {
        Ok(suite) => has_rows(&suite, rows, aside),
        Err(NoMemory) => false,
    }
}

// The same for a file of events and sequences of two of them.
fn grows(alloc: Global, file: &str, rows: &[&[u16]], aside: &[(&[u16], &[u16])]) -> bool {
    match read(alloc, file, 2) {
        Ok(events) => is_grown(alloc, &events, rows, aside),
        Err(_) => false,
    }
}

// A file of events, its rows, and the sequences that are set aside, each with its cycle.
type Grown<'a> = (&'a str, &'a [&'a [u16]], &'a [(&'a [u16], &'a [u16])]);

const GROWN: &[Grown<'static>] = &[
    (
        "a\nb\nc\na < b\n",
        &[&[0, 1, 2], &[2, 0, 1]],
        &[(&[1, 0], &[0, 1, 0])],
    ),
    (
        "a\nb\na < a\n",
        &[],
        &[(&[0, 1], &[0, 0]), (&[1, 0], &[0, 0])],
    ),
    ("a\nb\n", &[&[0, 1], &[1, 0]], &[]),
];

#[test]
fn grows_rows(rt: HostRuntime) {
    for (file, rows, aside) in GROWN {
        assert!(rt; grows(rt.alloc(), file, rows, aside), "{file}");
    }
}

// Whether lists of two of three events, a longer list, and the places in an order are what they are by hand.
fn makes_lists(alloc: Global) -> Result<bool, NoMemory> {
    let lists = distinct_lists(alloc, 3, 2)?;
    let longer = with_event(alloc, &[2, 0], 1)?;
    let places = places_of(alloc, &[2, 0], 3)?;
    let pairs: &[&[u16]] = &[&[0, 1], &[0, 2], &[1, 0], &[1, 2], &[2, 0], &[2, 1]];
    Ok(
        are(lists.as_slice(), pairs)
            && longer.as_slice() == [2, 0, 1].as_slice()
            && places.as_slice() == [1, 2, 0].as_slice(),
    )
}

// Whether the arrows from 0 to 1 and from 1 to 2 lead there, turned round too, and in a copy.
fn makes_arrows(alloc: Global) -> Result<bool, NoMemory> {
    let none = Arrows::new(alloc)?;
    let arrows = Arrows::of(alloc, &[(0, 1), (1, 2)])?;
    let back = Arrows::back(alloc, &[(0, 1), (1, 2)])?;
    let copy = arrows.copy(alloc)?;
    Ok(
        none.ends(0).count() == 0
            && arrows.ends(1).first() == Some(2)
            && back.ends(1).first() == Some(0)
            && copy.ends(0).first() == Some(1)
            && copy.ends(2).count() == 0,
    )
}

// The first open sequence of two of three events.
fn first_of(alloc: Global, open: &OpenSequences) -> Result<Option<NoList>, NoMemory> {
    open.first_open(alloc, 3)
}

fn is(found: &Option<NoList>, wanted: &[u16]) -> bool {
    match found {
        Some(list) => list.as_slice() == wanted,
        None => false,
    }
}

// Whether it is the first of all, and the next one once that is closed.
fn opens(alloc: Global) -> Result<bool, NoMemory> {
    let mut open = OpenSequences::new(alloc, 2)?;
    let first = first_of(alloc, &open)?;
    open.close(&[0, 1]);
    let second = first_of(alloc, &open)?;
    Ok(is(&first, &[0, 1]) && is(&second, &[0, 2]))
}

#[test]
fn makes_what_growth_goes_by(rt: HostRuntime) {
    assert!(rt; makes_lists(rt.alloc()) == Ok(true));
    assert!(rt; makes_arrows(rt.alloc()) == Ok(true));
    assert!(rt; opens(rt.alloc()) == Ok(true));
}
