//! Refutation trees: why no row serves an omitted tuple, and the proof that lists them.
//!
//! - `TreeToken` is a token of a tree in preorder, `Omissions` a proof: its form and its omitted tuples
//!   with their trees.
//! - `tree_ok` tells whether a tree refutes its tuple; `TreeChecker` tells the same of many trees, with the constraints
//!   compiled where that pays.
//! - `put_format` and `put_omission` append the lines of a proof file, for which there has to be room;
//!   `format_len` and `omission_len` tell how much. `write_omission` makes the room itself.
//! - `read_omissions` reads a proof file, or tells the first line that isn't one of a proof.
//!
//! But for calls that answer `NoMemory`, no call takes memory.
#![tactic(auto)]

mod checker;
mod checking;
mod cutting;
mod fault;
mod holders;
mod numeral;
mod omissions;
mod reading;
mod spelling;
mod table_size;
mod token;
mod tree_check;
mod writing;

pub use checker::TreeChecker;
pub use checking::tree_ok;
pub use fault::ProofFault;
pub use omissions::{Omission, Omissions, ProofForm};
pub use reading::read_omissions;
pub use token::{TreeBuf, TreeToken};
pub use writing::{format_len, omission_len, put_format, put_omission, write_omission};
