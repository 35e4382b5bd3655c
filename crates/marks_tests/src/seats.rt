//! Seats that are split, and joined before the table is closed.

ghost use Rattle.std.specs.Prelude.{◌≡◌, ◌<◌};

use crate::marks::are_marked;
use shared_marks::{Bits, MarkSeat, SharedMarks};
use std::alloc::Global;

// Marks a place from each of two seats. Whether the one sees both marks, and the other none elsewhere.
fn mark_from_both(table: &SharedMarks, seat: &mut MarkSeat, other: &mut MarkSeat) -> bool
    requires seat { seat.old.table ≡ table.now.table }
    requires other { other.old.table ≡ table.now.table }
    requires places { 64 < table.now.bits }
    ensures seat { seat.new.table ≡ table.now.table }
    ensures other { other.new.table ≡ table.now.table }
{
    table.mark(seat, 3);
    table.mark(other, 64);
    table.is_marked(seat, 3) && table.is_marked(seat, 64) && !table.is_marked(other, 4)
}

// The marks of a table of 70 places once its seats are joined; nothing where they didn't see them so, or memory was
// refused.
fn marks_of_seats(alloc: Global) -> Option<Bits> {
    let Ok((table, mut seat)) = SharedMarks::new(alloc, 70) else {
        return None;
    };
    let mut other = table.split(&mut seat);
    let are_seen = mark_from_both(&table, &mut seat, &mut other);
    table.join(&mut seat, other);
    let bits = table.close(seat);
    if are_seen { Some(bits) } else { None }
}

#[test]
fn marks_of_both_seats_are_set(rt: HostRuntime) {
    assert!(rt; are_marked(marks_of_seats(rt.alloc()), 70, &[3, 64]));
}
