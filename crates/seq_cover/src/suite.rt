use seq_check::{NoList, NoListList};
use value_text::OwnedList;

/// A sequence that no permitted order has, with a cycle as the reason.
#[derive(Drop)]
pub struct Never {
    /// The sequence.
    pub sequence: NoList,
    /// The cycle: it begins and ends with the same event, and an arrow leads from each event to the next.
    pub cycle: NoList,
}

/// A list of such sequences.
pub type NeverList = OwnedList<Never>;

/// What growth gives.
#[derive(Drop)]
pub struct OrderSuite {
    /// The rows: permitted orders.
    pub rows: NoListList,
    /// The sequences that no permitted order has, in their order.
    pub never: NeverList,
}
