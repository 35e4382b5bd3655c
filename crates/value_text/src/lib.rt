//! Texts, exact decimal numbers and patterns: what the values of a test model are made of.
//!
//! - `Text` is an owned UTF-8 text, which contracts see as its bytes.
//! - `OwnedList<T>` is the list type of most crates: contracts see the list of its items, and a
//!   refused `push` or `append` changes nothing.
//! - `same_text` and `order_text` compare two texts by their bytes, with the ASCII letters folded
//!   to lower case or not.
//! - `read_fixed` reads a decimal number exactly, and tells a text that is none from one with too
//!   many digits.
//! - `read_count` reads a count of at most 20 digits, where it lies in a range.
//! - `like` matches a text against a pattern with `*` and `?`, character by character.
//!
//! Only `Text::copy`, `OwnedList::push` and `OwnedList::append` take memory, and answer `NoMemory`
//! where it is refused.
#![tactic(auto)]

mod compare;
mod count;
mod digits;
mod fixed;
mod no_memory;
mod owned_list;
mod pattern;
mod text;

pub use compare::{order_text, same_text};
pub use count::read_count;
pub use fixed::{Fixed, FixedAnswer, read_fixed};
pub use no_memory::NoMemory;
pub use owned_list::OwnedList;
pub use pattern::like;
pub use text::{Text, TextList};
