use std::collections::LinkedList;

// What a seat holds: the places that it marked, those that it has seen marked, and its share of the table,
// `parts / 2^halvings`. It is there for proofs alone: no value of it is made.
pub(crate) struct Holding {
    pub(crate) marked: LinkedList<u64>,
    pub(crate) seen: LinkedList<u64>,
    pub(crate) parts: u64,
    pub(crate) halvings: u64,
}
