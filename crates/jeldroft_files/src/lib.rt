//! What the commands of `jeldroft` share: how a model and a table are read, where a text goes, and why a command ends
//! without what it is asked for.
//!
//! - `read_model_file` and `read_table` read the files of a command; a table's cells are parted by tabs or by commas
//!   (RFC 4180). `read_model_text` and `read_table_text` give the bytes of the file too, so that a place in it can be
//!   told.
//! - `commas_read_as_tabs` is the law that a table has the same rows with tabs as with commas.
//! - `write_text` writes a text to a file, whole or not at all, or to standard output.
//! - `Failure` says why a command ends early, and its exit status. specs/Runs says how a command ends that writes one
//!   text. `missing_column` names the parameter that a table has no column for.
#![tactic(auto)]

mod column;
mod failure;
mod laws;
mod model_file;
mod model_text;
mod output;
mod refused_model;
mod tabbed;
mod table;

pub use column::missing_column;
pub use failure::{Cause, Failure};
pub use laws::commas_read_as_tabs;
pub use model_file::{opts_of, read_model_file, read_model_text};
pub use model_text::ModelText;
pub use output::{end_with, status_of_end, write_text};
pub use refused_model::RefusedModel;
pub use table::{TableText, is_comma, read_table, read_table_text};
