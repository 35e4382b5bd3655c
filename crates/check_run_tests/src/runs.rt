//! What runs of these tests share: the three files `m`, `r` and `p` in memory, and what a run leaves.

use check_cli::run_check;
use memory_io::{MemFolder, MemSink};
use std::alloc::Global;
use std::thread::Threads;
use test_runs::{calls_of, words_of};
use value_text::NoMemory;

/// A model whose one constraint leaves three rows.
pub const MODEL: &[u8] = b"A: 1, 2\nB: x, y\nIF [A] = 1 THEN [B] = \"x\";\n";

/// Its report.
pub const REPORT: &[u8] = b"A\tB\n1\tx\n2\tx\n2\ty\n";

/// Its proof.
pub const PROOF: &[u8] = b"pict-proof 1\nomit 0=0 1=1 : L1\n";

/// The three in their files.
pub const FILES: &[(&str, &[u8])] = &[("m", MODEL), ("r", REPORT), ("p", PROOF)];

/// What is said of them.
pub const ACCEPTED: &str = "accepted: 3 rows, 1 omissions\n";

/// What a run is given.
#[derive(Clone, Copy)]
pub struct Given<'a> {
    /// The words behind the program's name.
    pub words: &'a [&'a str],
    /// The files, each with its name.
    pub files: &'a [(&'a str, &'a [u8])],
    /// The numbers of the calls of the folder that fail, from 1.
    pub fail: &'a [u64],
    /// How many bytes fit into standard output, and into standard error.
    pub room: (usize, usize),
}

/// A run of `m r p` on these files.
pub fn on_files<'a>(files: &'a [(&'a str, &'a [u8])]) -> Given<'a> {
    Given {
        words: &["m", "r", "p"],
        files,
        fail: &[],
        room: (1 << 10, 1 << 10),
    }
}

fn add_files(files: &[(&str, &[u8])], folder: &mut MemFolder) -> Result<(), NoMemory> {
    for (name, bytes) in files {
        folder.add(name, bytes)?;
    }
    Ok(())
}

/// The folder of a run.
pub fn folder_of(alloc: Global, given: &Given) -> Result<MemFolder, NoMemory> {
    let mut folder = MemFolder::new(alloc, calls_of(alloc, given.fail)?);
    add_files(given.files, &mut folder)?;
    Ok(folder)
}

/// What a run left.
#[derive(Drop)]
pub struct Ended {
    /// Its status.
    pub status: u8,
    /// Standard output.
    pub written: MemSink,
    /// Standard error.
    pub told: MemSink,
}

impl Ended {
    // Whether the run ended with this status, and the two streams got these texts.
    fn is(&self, status: u8, written: &str, told: &str) -> bool {
        let is_written = self.written.bytes() == written.as_bytes();
        let is_told = self.told.bytes() == told.as_bytes();
        self.status == status && is_written && is_told
    }
}

// Runs `pictcheck` in this folder.
fn run_in<R: Threads + Sync>(
    rt: &R,
    alloc: Global,
    words: &[String],
    files: &mut MemFolder,
    room: (usize, usize),
) -> Result<Ended, NoMemory> {
    let mut written = MemSink::up_to(alloc, room.0)?;
    let mut told = MemSink::up_to(alloc, room.1)?;
    let status = run_check(rt, alloc, words, files, &mut written, &mut told);
    Ok(Ended {
        status,
        written,
        told,
    })
}

/// Runs `pictcheck`.
///
/// # Errors
///
/// `NoMemory` where the words, the folder or the sinks could not be had.
pub fn run<R: Threads + Sync>(rt: &R, alloc: Global, given: &Given) -> Result<Ended, NoMemory> {
    let words = words_of(alloc, given.words)?;
    let mut files = folder_of(alloc, given)?;
    run_in(rt, alloc, words.as_slice(), &mut files, given.room)
}

/// Whether a run ends with this status, and the two streams get these texts. `false` too where `run` gives
/// `NoMemory`.
pub fn ends_as<R: Threads + Sync>(
    rt: &R,
    alloc: Global,
    given: &Given,
    status: u8,
    written: &str,
    told: &str,
) -> bool {
    match run(rt, alloc, given) {
        Ok(ended) => ended.is(status, written, told),
        Err(NoMemory) => false,
    }
}

/// Whether a run on a model, a report and a proof ends so.
pub fn ends_on<'a, R: Threads + Sync>(
    rt: &R,
    alloc: Global,
    model: &'a [u8],
    report: &'a [u8],
    proof: &'a [u8],
    end: (u8, &str, &str),
) -> bool {
    let files = [("m", model), ("r", report), ("p", proof)];
    ends_as(rt, alloc, &on_files(&files), end.0, end.1, end.2)
}

/// Whether a run with these words on the model, its report and its proof ends so.
pub fn ends_on_model<'a, R: Threads + Sync>(
    rt: &R,
    alloc: Global,
    words: &'a [&'a str],
    status: u8,
    written: &str,
    told: &str,
) -> bool {
    let given = Given {
        words,
        ..on_files(FILES)
    };
    ends_as(rt, alloc, &given, status, written, told)
}
