//! Files of events with precedences, orders of these events, and the checker of a report on them.
//!
//! - `read_events` reads a file of events: the events, or its first refusal.
//! - `check_orders` says of a report whether each of its lines is that of a permitted order or of a sequence
//!   that no permitted order has, with a cycle as the reason, and whether each sequence is in a row or named.
//! - specs/Orders says what a permitted order and a sequence are, specs/EventFile how a file of events is read,
//!   specs/OrderReport what the lines of a report are, and specs/Verdicts what is said of a report.
#![tactic(auto)]

mod arrows;
mod cut;
mod event_line;
mod event_names;
mod event_set;
mod events;
mod fault;
mod lists;
mod open;
mod places;
mod reading;
mod report_line;
mod verdict;

pub use arrows::Arrows;
pub use event_set::EventSet;
pub use events::{Events, PairList};
pub use fault::{EventCode, EventLimit, EventsFault};
pub use lists::{NoList, NoListList, distinct_lists, with_event};
pub use open::OpenSequences;
pub use places::places_of;
pub use reading::read_events;
pub use verdict::{OrderVerdict, check_orders};
