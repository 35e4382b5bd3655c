//! The growth of orders of events: rows that together have each sequence of two or three events that a permitted
//! order has, and for each other sequence a cycle as the reason.
//!
//! - `cover_orders` gives the rows and the sequences that are set aside.
//! - `report_text` is their report, and `verdict_text` what is said of one.
//! - specs/Ways says what a cycle is that is told, specs/OrderGrowth how rows grow, and specs/Covering what the rows and
//!   the cycles are for.
#![tactic(auto)]

mod cycle;
mod grow;
mod row;
mod steps;
mod suite;
mod text;
mod ways;

pub use grow::cover_orders;
pub use suite::{Never, NeverList, OrderSuite};
pub use text::{report_text, verdict_text};
