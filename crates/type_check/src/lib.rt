//! The model that a model file spells: the whole reading, from the bytes to a sound `TestModel`.
//!
//! - `read_model` reads the sections, the parameters and groups, and the trees of the constraints,
//!   and then looks up and checks the terms of the trees. What it answers is the model of the file,
//!   as specs/ModelOf says, or the first refusal.
//! - `files_have_one_answer` states that each file has exactly one answer, a model or a refusal, and
//!   `models_are_sound` that the models are sound.
//!
//! It takes memory for the model, whose texts are copies; `NoMemory` comes where that is refused.
#![tactic(auto)]

mod constraint;
mod fault;
mod laws;
mod reading;
mod rules;
mod scope;

pub use laws::{files_have_one_answer, models_are_sound};
pub use reading::read_model;
