//! Folders and sinks in memory, for tests and for the clauses that stand where everything is told or
//! nothing fails.
//!
//! - `MemFolder` and `MemSink` stand in memory and tell everything; they fail where that is asked
//!   for, and where the bytes are more than the room.
//! - `MemPipe` is a sink whose reader goes away.
//! - `SureFolder` and `SureSink` never fail.
#![tactic(auto)]

mod copying;
mod file_list;
mod mem_file;
mod mem_folder;
mod mem_pipe;
mod mem_sink;
mod sure_folder;
mod sure_sink;

pub use file_list::{ByteList, FileHeld, FileList};
pub use mem_folder::{Calls, MemFolder};
pub use mem_pipe::MemPipe;
pub use mem_sink::MemSink;
pub use sure_folder::SureFolder;
pub use sure_sink::SureSink;
