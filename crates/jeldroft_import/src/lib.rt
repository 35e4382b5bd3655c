//! The command `import` of `jeldroft`: a model file from one in the form of ACTS.
//!
//! - `run_import` is the call that the program makes, over any folder and sinks.
//! - specs/Imports says which model file, or which cause for none, a file calls for.
//!
//! The translation is that of `acts_front`. Where a line is refused, it is read again for what is told: which part of it
//! isn't taken, and what could stand there.
#![tactic(auto)]

mod cause;
mod constraint;
mod declared;
mod found;
mod kind;
mod parameter;
mod part;
mod pieces;
mod place;
mod read;
mod relation;
mod run;
mod source_line;
mod token;
mod told;

pub use cause::ImportCause;
pub use run::run_import;
