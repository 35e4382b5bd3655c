//! The parameter lines and the group lines of a model file, read to parameters and a demand.
//!
//! - `parse_params` reads both, and answers the raw model or the first refusal. By
//!   `params_read_back` it reads what is written.
//!
//! It takes memory for what it gives, and for the names that it looks up; `NoMemory` comes where
//! that is refused.
#![tactic(auto)]

mod cut;
mod fault;
mod group;
mod name_set;
mod param;
mod piece;
mod raw_model;
mod reading;

pub use raw_model::{RawModel, params_read_back, parse_params};
