//! Where the workers of a call report before their share of the work.
#![tactic(auto)]

mod gate;

pub use gate::{Gate, OpenGate};
