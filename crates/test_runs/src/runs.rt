use memory_io::{ByteList, Calls, FileHeld, FileList, MemFolder, MemSink, SureFolder};
use pict_cli::run_pict;
use std::alloc::Global;
use std::thread::Threads;
use value_text::{NoMemory, Text};

/// What a run is given.
#[derive(Clone, Copy)]
pub struct Given<'a> {
    /// The words behind the program's name.
    pub words: &'a [&'a str],
    /// The name of the model file.
    pub name: &'a str,
    /// Its bytes.
    pub model: &'a [u8],
    /// The name of a row file and its bytes, where there is one.
    pub rows: Option<(&'a str, &'a [u8])>,
    /// The numbers of the calls of the folder that fail, from 1.
    pub fail: &'a [u64],
    /// How many bytes fit into standard output, and into standard error.
    pub room: (usize, usize),
    /// The name of a file that may be written.
    pub written: &'a str,
}

/// A run with these words where the file `m` has these bytes, with room enough, also for a file `p`.
pub fn on_model<'a>(words: &'a [&'a str], model: &'a [u8]) -> Given<'a> {
    Given {
        words,
        name: "m",
        model,
        rows: None,
        fail: &[],
        room: (1 << 16, 1 << 10),
        written: "p",
    }
}

/// The numbers of calls that fail.
pub fn calls_of(alloc: Global, numbers: &[u64]) -> Result<Calls, NoMemory> {
    let mut calls = Calls::new(alloc);
    for number in numbers {
        calls.push(*number)?;
    }
    Ok(calls)
}

/// The words of a command.
pub fn words_of(alloc: Global, words: &[&str]) -> Result<Vec<String>, NoMemory> {
    let mut all = Vec::new(alloc);
    for word in words {
        all.push(String::from_str(alloc, word)?)?;
    }
    Ok(all)
}

fn bytes_of(alloc: Global, bytes: &[u8]) -> Result<ByteList, NoMemory> {
    let mut list = ByteList::new(alloc);
    for byte in bytes {
        list.push(*byte)?;
    }
    Ok(list)
}

/// A folder that never fails, with these bytes in the file `m`; every other name reads as no bytes.
pub fn sure_folder(alloc: Global, model: &[u8]) -> Result<SureFolder, NoMemory> {
    let name = Text::copy(alloc, "m")?;
    let bytes = bytes_of(alloc, model)?;
    let mut files = FileList::new(alloc);
    files.push(FileHeld { name, bytes })?;
    Ok(SureFolder::new(files))
}

fn folder_of(alloc: Global, given: &Given) -> Result<MemFolder, NoMemory> {
    let mut folder = MemFolder::new(alloc, calls_of(alloc, given.fail)?);
    folder.add(given.name, given.model)?;
    if let Some((name, bytes)) = given.rows {
        folder.add(name, bytes)?;
    }
    folder.room_for(given.written, 1 << 16)?;
    Ok(folder)
}

/// What a run left.
#[derive(Drop)]
pub struct Ended {
    /// Its status.
    pub status: u8,
    /// Standard output.
    pub written: MemSink,
    /// Standard error.
    pub told: MemSink,
    /// The folder.
    pub files: MemFolder,
}

/// Runs `pict`, with 5 as the seed that no word gives.
///
/// # Errors
///
/// `NoMemory` where the words, the folder or the sinks could not be had.
pub fn run<R: Threads + Sync>(rt: &R, alloc: Global, given: &Given) -> Result<Ended, NoMemory> {
    let words = words_of(alloc, given.words)?;
    let mut files = folder_of(alloc, given)?;
    let mut written = MemSink::up_to(alloc, given.room.0)?;
    let mut told = MemSink::up_to(alloc, given.room.1)?;
    let status = run_pict(
        rt,
        alloc,
        words.as_slice(),
        &mut files,
        &mut written,
        &mut told,
        5,
    );
    Ok(Ended {
        status,
        written,
        told,
        files,
    })
}

impl Ended {
    /// Whether the run ended with this status, and the two streams got these texts.
    pub fn is(&self, status: u8, written: &str, told: &str) -> bool {
        let is_written = self.written.bytes() == written.as_bytes();
        let is_told = self.told.bytes() == told.as_bytes();
        self.status == status && is_written && is_told
    }

    /// Whether there is a file of this name, and it holds these bytes.
    pub fn holds(&self, name: &str, bytes: &[u8]) -> bool {
        match self.files.held(name) {
            Some(held) => held == bytes,
            None => false,
        }
    }
}

/// Whether a run ends with this status, and the two streams get these texts. `false` too where `run` gives
/// `NoMemory`.
pub fn ends_as<R: Threads + Sync>(
    rt: &R,
    alloc: Global,
    given: &Given,
    status: u8,
    written: &str,
    told: &str,
) -> bool {
    match run(rt, alloc, given) {
        Ok(ended) => ended.is(status, written, told),
        Err(NoMemory) => false,
    }
}

/// Whether a run ends with status 0 and this report, tells nothing, and leaves this text in the file that it
/// may write. `false` too where `run` gives `NoMemory`.
pub fn writes<R: Threads + Sync>(
    rt: &R,
    alloc: Global,
    given: &Given,
    report: &str,
    text: &str,
) -> bool {
    match run(rt, alloc, given) {
        Ok(ended) => ended.is(0, report, "") && ended.holds(given.written, text.as_bytes()),
        Err(NoMemory) => false,
    }
}
