//! Files in the form of ACTS as model files for `pict`.
//!
//! - `translate` gives the model file that a file becomes, line by line, or its first refusal: a line and an
//!   `ActsCode`.
//! - `translations_say_the_same` states that the model file says what the file says.
//! - specs/ActsFiles says what a file declares, specs/Meaning what its constraints mean on a row, specs/Translation
//!   what is written for it, and specs/SameModels when a model says the same.
#![tactic(auto)]

mod code;
mod constraint;
mod kind;
mod laws;
mod line;
mod name_set;
mod parameter;
mod relation;
mod scope;
mod section;
mod text;
mod token;
mod translator;
mod write;

pub use code::{ActsCode, ActsFault};
pub use laws::translations_say_the_same;
pub use translator::translate;
