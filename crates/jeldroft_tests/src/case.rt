//! A run in a table: what it is given and what it leaves.

use jeldroft_cli::run_jeldroft;
use memory_io::{Calls, MemFolder, MemSink};
use outside_io::Sink;
use std::alloc::Global;
use std::thread::Threads;
use value_text::NoMemory;

/// A model whose one constraint leaves three rows.
pub const MODEL: &str = "A: 1, 2\nB: x, y\nIF [A] = 1 THEN [B] = \"x\";\n";

/// Its table.
pub const TABLE: &str = "A\tB\n1\tx\n2\tx\n2\ty\n";

/// Its proof.
pub const PROOF: &str = "pict-proof 1\nomit 0=0 1=1 : L1\n";

/// A run.
#[derive(Clone, Copy)]
pub struct Case<'a> {
    /// The words behind the program's name.
    pub words: &'a [&'a str],
    /// The files, each with its text.
    pub files: &'a [(&'a str, &'a str)],
    /// Its exit status.
    pub status: u8,
    /// What standard output gets.
    pub out: &'a str,
    /// What standard error gets.
    pub told: &'a str,
    /// What files hold afterwards.
    pub left: &'a [(&'a str, &'a str)],
}

// Words as the program gets them.
fn words_of(alloc: Global, words: &[&str]) -> Result<Vec<String>, NoMemory> {
    let mut all = Vec::new(alloc);
    for word in words {
        all.push(String::from_str(alloc, word)?)?;
    }
    Ok(all)
}

// A folder with these files, and with room for what runs write.
fn folder_of(alloc: Global, files: &[(&str, &str)]) -> Result<MemFolder, NoMemory> {
    let mut folder = MemFolder::new(alloc, Calls::new(alloc));
    for (name, text) in files {
        folder.add(name, text.as_bytes())?;
    }
    for name in &["m", "t", "p", "o.csv", "r"] {
        folder.room_for(name, 1 << 12)?;
    }
    Ok(folder)
}

// Whether files hold these texts.
fn holds(folder: &MemFolder, left: &[(&str, &str)]) -> bool {
    left.iter()
        .all(|(name, text)| folder.held(name) == Some(text.as_bytes()))
}

/// Runs a case with this standard output, and with a standard error that may be a terminal; whether all but what standard
/// output gets comes as the case says.
///
/// # Errors
///
/// `NoMemory` where the words, the folder or the sinks could not be had.
pub fn ends_beside<R: Threads + Sync, O: Sink>(
    rt: &R,
    alloc: Global,
    case: &Case<'_>,
    out: &mut O,
    terminal: bool,
) -> Result<bool, NoMemory> {
    let words = words_of(alloc, case.words)?;
    let mut folder = folder_of(alloc, case.files)?;
    let mut told = MemSink::up_to(alloc, 1 << 12)?;
    let status = run_jeldroft(
        rt,
        alloc,
        words.as_slice(),
        &mut folder,
        out,
        &mut told,
        terminal,
    );
    let is_told = told.bytes() == case.told.as_bytes();
    Ok(status == case.status && is_told && holds(&folder, case.left))
}

/// The same without a terminal.
///
/// # Errors
///
/// As `ends_beside`.
pub fn ends_with<R: Threads + Sync, O: Sink>(
    rt: &R,
    alloc: Global,
    case: &Case<'_>,
    out: &mut O,
) -> Result<bool, NoMemory> {
    ends_beside(rt, alloc, case, out, false)
}

/// Whether a run leaves what the case says.
///
/// # Errors
///
/// `NoMemory` where the words, the folder or the sinks could not be had.
pub fn ends_as<R: Threads + Sync>(
    rt: &R,
    alloc: Global,
    case: &Case<'_>,
) -> Result<bool, NoMemory> {
    let mut out = MemSink::up_to(alloc, 1 << 12)?;
    let ended = ends_with(rt, alloc, case, &mut out)?;
    Ok(ended && out.bytes() == case.out.as_bytes())
}
