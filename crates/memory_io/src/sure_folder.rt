ghost use Rattle.std.specs.Prelude.{◌≡◌, ◌≢◌, ℕ, ◌<◌, ◌≤◌, List, [], false, length, None, Some, AllPairs, unwrap_or};
ghost use Rattle.outside_io.specs.Faults.{is_failed_read};

use crate::copying::copy_up_to;
use crate::file_list::FileList;
use outside_io::{Folder, ReadAnswer, WriteAnswer};
use std::marker::Model;

/// A folder that never fails. It is given its files, and tells each of them until its name is
/// written. Every other name is untold and reads as no bytes. A write keeps no bytes.
#[derive(Drop)]
pub struct SureFolder {
    files: FileList,
}

impl Model for SureFolder {
    ghost use Rattle.std.specs.Prelude.{List};
    ghost use Rattle.memory_io.specs.declared.file_list.FileHeld.{FileHeld};

    ghost Value = { List FileHeld };

    ghost view = { λ folder. folder.files };
}

impl SureFolder {
    /// A folder of these files, whose names are distinct. Takes no memory.
    pub fn new(files: FileList) -> SureFolder
        requires { AllPairs (λ one other. one.name ≢ other.name) files }
        ensures { result ≡ files }
    {
        SureFolder { files }
    }
}

impl Folder for SureFolder {
    ghost use Rattle.memory_io.specs.FileLists.{bytes_of, told_of, without};

    ghost seen = { λ files. record {
      files = told_of files;
      read_faults = λ _. 0;
      write_faults = λ _. 0;
      read_fails = λ _. Some false;
      write_fails = λ _ _. Some false;
    } };

    /// A name that was not given, or that was written, reads as no bytes.
    fn read_file(&mut self, name: &str, into: &mut Vec<u8>, most: usize) -> ReadAnswer
        ensures whole { result ≡ ReadAnswer.Whole →
            into.new.items ≡ unwrap_or (bytes_of self.old name.now) [] }
        ensures within { result ≡ ReadAnswer.Whole → length into.new.items ≤ most }
        ensures empty { result ≢ ReadAnswer.Whole → into.new.items ≡ [] }
        ensures too_long { result ≡ ReadAnswer.TooLong →
            most < length (unwrap_or (bytes_of self.old name.now) []) }
        ensures never_fails { is_failed_read result ≡ false }
        ensures same { self.new ≡ self.old }
    {
        into.clear();
        let bytes = self.files.bytes_of(name).unwrap_or(&[]);
        copy_up_to(bytes, into, most)
    }

    /// Takes the file of the name out of the list.
    fn write_file(&mut self, name: &str, _bytes: &[u8]) -> WriteAnswer
        ensures done { result ≡ WriteAnswer.Done }
        ensures untold { bytes_of self.new name.now ≡ None }
        ensures others { (other : List ℕ) → other ≢ name.now →
            bytes_of self.new other ≡ bytes_of self.old other }
        ensures taken_out { self.new ≡ without self.old name.now }
    {
        self.files.take_out(name);
        WriteAnswer::Done
    }

    fn replace_file(&mut self, name: &str, bytes: &[u8]) -> WriteAnswer
        ensures done { result ≡ WriteAnswer.Done }
        ensures untold { bytes_of self.new name.now ≡ None }
        ensures others { (other : List ℕ) → other ≢ name.now →
            bytes_of self.new other ≡ bytes_of self.old other }
        ensures taken_out { self.new ≡ without self.old name.now }
    {
        self.write_file(name, bytes)
    }
}
