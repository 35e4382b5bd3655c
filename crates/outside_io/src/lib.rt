//! What the programs touch of the world outside: a folder of files, and sinks that take bytes.
//!
//! - `Folder` and `Sink` say what a call did where that is told, and count the faults of the device
//!   behind them: a call answers `Failed` only where its count of faults rose. Each has one ghost
//!   function, `seen`, whose value is a record of all that it tells.
//! - `RealFolder`, `InputFolder` and `RealSink` are the edge to the operating system's files and
//!   streams.
//! - `write_file`, `replace_file` and `put` take no memory of the caller.
//! - Who writes several texts in a row, as `put_pieces` does, says what a sink did by `Puts`, which
//!   composes by the laws beside it.
#![tactic(auto)]

mod answers;
mod folder;
mod input_folder;
mod pieces;
mod real_folder;
mod real_sink;
mod sink;
mod transfer;
mod words;

pub use answers::{ReadAnswer, WriteAnswer};
pub use folder::Folder;
pub use input_folder::InputFolder;
pub use pieces::put_pieces;
pub use real_folder::RealFolder;
pub use real_sink::RealSink;
pub use sink::Sink;
pub use words::command_words;
