ghost use Rattle.std.specs.Prelude.{◌≡◌, ◌≢◌, ◌≤◌, [], None, length, if◌then◌else◌};
ghost use Rattle.outside_io.specs.believed.Faults.{GoesOn};
ghost use Rattle.outside_io.specs.Faults.{one_more, is_failed_read, is_failed_write};

use crate::answers::{ReadAnswer, WriteAnswer};
use crate::folder::Folder;
use crate::real_folder::RealFolder;
use crate::transfer::read_whole;
use std::io::Read;
use std::marker::Model;
use std::rt::Files;

// The name under which a stream is read.
const INPUT: &str = "-";

/// The files of the operating system, and under the name `-` what a stream has left to read, as
/// standard input. It tells as little as `RealFolder`, and counts faults as it does.
#[derive(Drop)]
pub struct InputFolder<R: Files + Drop, I: Read + Drop> {
    files: RealFolder<R>,
    input: I,
}

impl<R: Files + Drop, I: Read + Drop> Model for InputFolder<R, I> {
    ghost use Rattle.outside_io.specs.Faults.{FaultCounts};

    ghost Value = { FaultCounts };

    ghost view = { λ folder. folder.files };
}

impl<R: Files + Drop, I: Read + Drop> InputFolder<R, I> {
    /// The files of a runtime and a stream, with no fault so far.
    pub fn new(rt: R, input: I) -> Self
        ensures { result ≡ record { reads = 0; writes = 0 } }
    {
        InputFolder {
            files: RealFolder::new(rt),
            input,
        }
    }
}

impl<R: Files + Drop, I: Read + Drop> Folder for InputFolder<R, I> {
    ghost seen = { λ folder. record {
      files = λ _. None;
      read_faults = λ _. folder.reads;
      write_faults = λ _. folder.writes;
      read_fails = λ _. None;
      write_fails = λ _ _. None;
    } };

    /// Stops at the first byte beyond `most`, at the end or at a fault.
    fn read_file(&mut self, name: &str, into: &mut Vec<u8>, most: usize) -> ReadAnswer
        ensures within { result ≡ ReadAnswer.Whole → length into.new.items ≤ most }
        ensures empty { result ≢ ReadAnswer.Whole → into.new.items ≡ [] }
        ensures counts { self.new ≡ record self.old {
          reads = if is_failed_read result then one_more self.old.reads else self.old.reads;
        } }
        ensures goes_on { GoesOn self.old.reads self.new.reads }
    {
        if name != INPUT {
            return self.files.read_file(name, into, most);
        }
        into.clear();
        let answer = read_whole(&mut self.input, into, most);
        self.files.count_read(answer, into)
    }

    fn write_file(&mut self, name: &str, bytes: &[u8]) -> WriteAnswer
        ensures counts { self.new ≡ record self.old {
          writes = if is_failed_write result then one_more self.old.writes else self.old.writes;
        } }
        ensures goes_on { GoesOn self.old.writes self.new.writes }
    {
        self.files.write_file(name, bytes)
    }

    fn replace_file(&mut self, name: &str, bytes: &[u8]) -> WriteAnswer
        ensures counts { self.new ≡ record self.old {
          writes = if is_failed_write result then one_more self.old.writes else self.old.writes;
        } }
        ensures goes_on { GoesOn self.old.writes self.new.writes }
    {
        self.files.replace_file(name, bytes)
    }
}
