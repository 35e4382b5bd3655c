//! The lines, the sections and the tokens of a model file, and the codes by which it is refused.
//!
//! - `split_model` sorts the lines of a file into parameters, groups and constraints.
//! - `next_token` gives the tokens of a constraint line, one after another.
//! - `ModelFault` is why a file is refused, a line and a `DiagCode`; `Note` is what is told of a
//!   file that is accepted.
//! - `ModelOpts` is how a file is to be read.
//! - `trimmed` is a text without the blanks at its ends.
//! - `cut_line` takes the first line from a file, of whatever form, and `cut_at_line_feed` leaves it its carriage
//!   return; `without_mark` is a file without a byte-order mark.
//!
//! The texts of `Sections` are slices of the file, and tokens are places in their line. But for
//! `split_model`, which answers `NoMemory` where a list could not grow, no call takes memory.
#![tactic(auto)]

mod bytes;
mod diag;
mod fault;
mod line_kind;
mod lines;
mod note;
mod options;
mod scan;
mod sections;
mod token;
mod trim;

pub use diag::{Diag, DiagCode};
pub use fault::{LimitName, ModelFault};
pub use lines::{cut_at_line_feed, cut_line, without_mark};
pub use note::{Note, NoteCode, NoteList};
pub use options::{Marks, ModelOpts, OrderWord};
pub use sections::{NumLine, NumLineList, Sections, split_model};
pub use token::{Lexed, Token, TokenKind, next_token};
pub use trim::{trimmed, without_first_blanks};
