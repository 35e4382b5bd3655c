ghost use Rattle.std.specs.Prelude.{◌≡◌, ◌≢◌, ◌≤◌, [], None, length, if◌then◌else◌};
ghost use Rattle.outside_io.specs.believed.Faults.{GoesOn};
ghost use Rattle.outside_io.specs.Faults.{one_more, is_failed_read, is_failed_write};

use crate::answers::{ReadAnswer, WriteAnswer};
use crate::folder::Folder;
use crate::transfer::{StreamFault, read_whole, write_whole};
use std::fs::File;
use std::io::ErrorKind;
use std::marker::Model;
use std::rt::Files;
use std::{fs, str};

/// The files of the operating system, under their paths. It tells neither what they hold nor which
/// call fails. One count of faults stands behind the reads of all names, and one behind the writes.
#[derive(Drop)]
pub struct RealFolder<R: Files + Drop> {
    rt: R,
    read_errors: u64,
    write_errors: u64,
}

impl<R: Files + Drop> Model for RealFolder<R> {
    ghost use Rattle.outside_io.specs.Faults.{FaultCounts};

    ghost Value = { FaultCounts };

    ghost view = { λ folder. record { reads = folder.read_errors; writes = folder.write_errors } };
}

impl<R: Files + Drop> RealFolder<R> {
    /// The files of a runtime, with no fault so far.
    pub fn new(rt: R) -> Self
        ensures { result ≡ record { reads = 0; writes = 0 } }
    {
        RealFolder {
            rt,
            read_errors: 0,
            write_errors: 0,
        }
    }

    /// Opens a file, and reads it to its end; `Failed` where the one or the other met a fault.
    fn read_named(&self, name: &str, into: &mut Vec<u8>, most: usize) -> ReadAnswer
        requires { into.old.items ≡ [] }
        ensures { result ≡ ReadAnswer.Whole → length into.new.items ≤ most }
    {
        match fs::open(&self.rt, name) {
            Ok(mut file) => read_whole(&mut file, into, most),
            Err(_) => ReadAnswer::Failed,
        }
    }

    /// Makes a file, and writes it whole; `Failed` where the one or the other met a fault.
    fn write_named(&self, name: &str, bytes: &[u8]) -> WriteAnswer {
        match fs::create(&self.rt, name) {
            Ok(mut file) => answer_of(write_whole(&mut file, bytes)),
            Err(_) => WriteAnswer::Failed,
        }
    }

    /// Whether a name may be given to another file: it has none, or a regular one of its own. A link
    /// stays, and so does a device or a pipe.
    fn is_replaceable(&self, name: &str) -> bool {
        match fs::symlink_metadata(&self.rt, name) {
            Ok(metadata) => metadata.is_file(),
            Err(error) => error.kind() == ErrorKind::NotFound,
        }
    }

    /// Makes the file of a name beside it, and then gives it the name. Where that can't be begun, the
    /// file is written straight.
    fn replace_named(&self, name: &str, bytes: &[u8]) -> WriteAnswer {
        let mut room = [0u8; LONGEST_NAME];
        let Some(part) = part_name(name, &mut room) else {
            return self.write_named(name, bytes);
        };
        if !self.is_replaceable(name) {
            return self.write_named(name, bytes);
        }
        match File::create_new(&self.rt, part) {
            Ok(file) => self.fill_and_rename(file, part, name, bytes),
            Err(_) => self.write_named(name, bytes),
        }
    }

    /// Writes the bytes to a file that is named `part`, and gives it the name. After `Failed` it is
    /// removed.
    fn fill_and_rename(
        &self,
        mut file: R::File,
        part: &str,
        name: &str,
        bytes: &[u8],
    ) -> WriteAnswer {
        let written = write_whole(&mut file, bytes).is_ok();
        drop(file);
        if written && fs::rename(&self.rt, part, name).is_ok() {
            return WriteAnswer::Done;
        }
        let _ = fs::remove_file(&self.rt, part);
        WriteAnswer::Failed
    }

    /// Counts the fault of a read, if it is one, and keeps the bytes of a whole one alone.
    pub(crate) fn count_read(&mut self, answer: ReadAnswer, into: &mut Vec<u8>) -> ReadAnswer
        ensures same { result ≡ answer }
        ensures whole { result ≡ ReadAnswer.Whole → into.new.items ≡ into.old.items }
        ensures empty { result ≢ ReadAnswer.Whole → into.new.items ≡ [] }
        ensures counts { self.new ≡ record self.old {
          reads = if is_failed_read answer then one_more self.old.reads else self.old.reads;
        } }
        ensures goes_on { GoesOn self.old.reads self.new.reads }
    {
        if answer != ReadAnswer::Whole {
            into.clear();
        }
        if answer == ReadAnswer::Failed {
            self.read_errors = self.read_errors.saturating_add(1);
        }
        answer
    }

    /// Counts the fault of a write, if it is one.
    fn count_write(&mut self, answer: WriteAnswer) -> WriteAnswer
        ensures same { result ≡ answer }
        ensures counts { self.new ≡ record self.old {
          writes = if is_failed_write answer then one_more self.old.writes else self.old.writes;
        } }
        ensures goes_on { GoesOn self.old.writes self.new.writes }
    {
        if answer == WriteAnswer::Failed {
            self.write_errors = self.write_errors.saturating_add(1);
        }
        answer
    }
}

// The longest name that the system takes, in bytes.
const LONGEST_NAME: usize = 4096;

// What stands behind the name of a file that is written in place of another.
const PART: &[u8] = b".part";

/// How bytes were written to a file.
fn answer_of(written: Result<(), StreamFault>) -> WriteAnswer {
    match written {
        Ok(()) => WriteAnswer::Done,
        Err(_) => WriteAnswer::Failed,
    }
}

/// The name of the file that is written in place of a named one, beside it; `None` where it is too
/// long.
fn part_name<'a>(name: &str, room: &'a mut [u8; LONGEST_NAME]) -> Option<&'a str> {
    let end = name.len().checked_add(PART.len())?;
    if end > LONGEST_NAME {
        return None;
    }
    room[..name.len()].copy_from_slice(name.as_bytes());
    room[name.len()..end].copy_from_slice(PART);
    str::from_utf8(&room[..end]).ok()
}

impl<R: Files + Drop> Folder for RealFolder<R> {
    ghost seen = { λ folder. record {
      files = λ _. None;
      read_faults = λ _. folder.reads;
      write_faults = λ _. folder.writes;
      read_fails = λ _. None;
      write_fails = λ _ _. None;
    } };

    /// Stops at the first byte beyond `most`, at the end or at a fault.
    fn read_file(&mut self, name: &str, into: &mut Vec<u8>, most: usize) -> ReadAnswer
        ensures within { result ≡ ReadAnswer.Whole → length into.new.items ≤ most }
        ensures empty { result ≢ ReadAnswer.Whole → into.new.items ≡ [] }
        ensures counts { self.new ≡ record self.old {
          reads = if is_failed_read result then one_more self.old.reads else self.old.reads;
        } }
        ensures goes_on { GoesOn self.old.reads self.new.reads }
    {
        into.clear();
        let answer = self.read_named(name, into, most);
        self.count_read(answer, into)
    }

    /// Empties the file, or makes it, and stops at the end of the bytes or at a fault.
    fn write_file(&mut self, name: &str, bytes: &[u8]) -> WriteAnswer
        ensures counts { self.new ≡ record self.old {
          writes = if is_failed_write result then one_more self.old.writes else self.old.writes;
        } }
        ensures goes_on { GoesOn self.old.writes self.new.writes }
    {
        let answer = self.write_named(name, bytes);
        self.count_write(answer)
    }

    /// Writes a file beside the named one, and renames it. A path that is no regular file, and one
    /// beside which no file can be made, is written straight.
    fn replace_file(&mut self, name: &str, bytes: &[u8]) -> WriteAnswer
        ensures counts { self.new ≡ record self.old {
          writes = if is_failed_write result then one_more self.old.writes else self.old.writes;
        } }
        ensures goes_on { GoesOn self.old.writes self.new.writes }
    {
        let answer = self.replace_named(name, bytes);
        self.count_write(answer)
    }
}
