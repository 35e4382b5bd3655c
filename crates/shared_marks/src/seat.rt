use crate::holding::Holding;
use atomic_table::Seat;
use std::marker::Model;

/// A seat of a table of marks: what a worker steps with. Contracts see of which table it is, and what it
/// holds: the places that it marked, those that it has seen marked, and its share of the table.
#[derive(Drop)]
pub struct MarkSeat {
    pub(crate) seat: Seat<(), Holding>,
}

impl Model for MarkSeat {
    ghost use Rattle.std.specs.Prelude.{◌≡◌, ◌<◌, []};
    ghost use Rattle.shared_marks.specs.Seats.{SeatView};

    ghost Value = { SeatView };

    ghost view = { λ a. record { table = a.seat.table_id; holds = a.seat.me.0 } };

    ghost invariant = { λ a. (a.seat.me.1 ≡ []) × (0 < a.seat.me.0.parts) };
}
