ghost use Rattle.std.specs.Prelude.{◌≡◌, ◌≢◌, ◌<◌, ◌≤◌, [], ◌∷◌, ◌++◌, true, false, length, max, position, unwrap_or, Some, IsSomeAnd, OnOk, OnErr, if◌then◌else◌};
ghost use Rattle.std.specs.Option.{option_copied};
ghost use Rattle.outside_io.specs.believed.Faults.{GoesOn};
ghost use Rattle.outside_io.specs.Faults.{one_more, is_failed_read, is_failed_write};

use crate::copying::copy_up_to;
use crate::mem_file::MemFile;
use outside_io::{Folder, ReadAnswer, WriteAnswer};
use std::alloc::Global;
use std::marker::Model;
use value_text::{NoMemory, OwnedList};

/// A list of numbers of calls.
pub type Calls = OwnedList<u64>;

/// Files in memory. It tells what every name holds, and whether the next call fails.
///
/// A read fails exactly where the name has no file or the call is listed, a write exactly where the
/// name was given no room, the bytes are more than that room, or the call is listed.
#[derive(Drop)]
pub struct MemFolder {
    files: Vec<MemFile>,
    calls: u64,
    fail: Calls,
    read_errors: u64,
    write_errors: u64,
}

impl Model for MemFolder {
    ghost use Rattle.memory_io.specs.MemFolder.{FolderInMemory};

    ghost Value = { FolderInMemory };

    ghost view = { λ folder. record {
      slots = folder.files.items;
      calls = folder.calls;
      fail = folder.fail;
      read_faults = folder.read_errors;
      write_faults = folder.write_errors;
    } };
}

impl MemFolder {
    ghost use Rattle.memory_io.specs.MemFolder.{PutsSlot, file_of, room_of, is_named, is_listed, fits};

    /// A folder without files. `fail` lists the numbers of the calls of `read_file` and `write_file`
    /// that fail; they are counted together, from 1. Takes no memory.
    pub fn new(alloc: Global, fail: Calls) -> MemFolder
        ensures { result ≡ record {
          slots = [];
          calls = 0;
          fail = fail;
          read_faults = 0;
          write_faults = 0;
        } }
    {
        MemFolder {
            files: Vec::new(alloc),
            calls: 0,
            fail,
            read_errors: 0,
            write_errors: 0,
        }
    }

    /// Puts a file there. The room of its name becomes at least its length.
    ///
    /// # Errors
    ///
    /// `NoMemory` where memory for it was refused. The folder is then as before.
    pub fn add(&mut self, name: &str, bytes: &[u8]) -> Result<(), NoMemory>
        ensures ok { OnOk result (PutsSlot
            (record {
              name = name.now;
              file = Some bytes.now;
              room = max (unwrap_or (room_of self.old.slots name.now) 0) (length bytes.now);
            })
            self.old.slots self.new.slots) }
        ensures rest { self.new ≡ record self.old { slots = self.new.slots } }
        ensures err { OnErr result (self.new ≡ self.old) }
    {
        match self.place(name) {
            Some(at) => {
                let file = &mut self.files[at];
                file.raise_room(bytes.len())?;
                file.fill(bytes);
                Ok(())
            }
            None => {
                let mut file = MemFile::new(*self.files.allocator(), name, bytes.len())?;
                file.fill(bytes);
                self.push(file)
            }
        }
    }

    /// Makes room for a file of up to `most` bytes under a name.
    ///
    /// # Errors
    ///
    /// `NoMemory` where that room could not be had. The folder is then as before.
    pub fn room_for(&mut self, name: &str, most: usize) -> Result<(), NoMemory>
        ensures ok { OnOk result (PutsSlot
            (record {
              name = name.now;
              file = file_of self.old.slots name.now;
              room = max (unwrap_or (room_of self.old.slots name.now) 0) most;
            })
            self.old.slots self.new.slots) }
        ensures rest { self.new ≡ record self.old { slots = self.new.slots } }
        ensures err { OnErr result (self.new ≡ self.old) }
    {
        match self.place(name) {
            Some(at) => self.files[at].raise_room(most),
            None => {
                let file = MemFile::new(*self.files.allocator(), name, most)?;
                self.push(file)
            }
        }
    }

    /// The bytes of the file of a name; `None` exactly where it has none. Takes no memory.
    pub fn held(&self, name: &str) -> Option<&[u8]>
        ensures { option_copied result ≡ file_of self.now.slots name.now }
    {
        match self.place(name) {
            Some(at) => self.files[at].file(),
            None => None,
        }
    }

    /// The place of a name among the files.
    fn place(&self, name: &str) -> Option<usize>
        ensures { result ≡ position (is_named name.now) self.now.slots }
    {
        self.files.iter().position(|file| file.is_named(name))
    }

    /// Adds a slot at the end.
    fn push(&mut self, file: MemFile) -> Result<(), NoMemory>
        ensures ok { OnOk result (self.new ≡ record self.old { slots = self.old.slots ++ file ∷ [] }) }
        ensures err { OnErr result (self.new ≡ self.old) }
    {
        self.files.push(file)?;
        Ok(())
    }

    /// Makes bytes the file of a name; whether they fit the room that the name was given.
    fn overwrite(&mut self, name: &str, bytes: &[u8]) -> bool
        ensures fits { result ≡ fits (room_of self.old.slots name.now) (length bytes.now) }
        ensures done { result ≡ true → PutsSlot
            (record {
              name = name.now;
              file = Some bytes.now;
              room = unwrap_or (room_of self.old.slots name.now) 0;
            })
            self.old.slots self.new.slots }
        ensures rest { self.new ≡ record self.old { slots = self.new.slots } }
        ensures refused { result ≡ false → self.new ≡ self.old }
    {
        match self.place(name) {
            Some(at) => {
                let file = &mut self.files[at];
                if bytes.len() > file.room() {
                    return false;
                }
                file.fill(bytes);
                true
            }
            None => false,
        }
    }

    /// Counts the fault of a read.
    fn read_failed(&mut self) -> ReadAnswer
        ensures answer { result ≡ ReadAnswer.Failed }
        ensures counted { self.new ≡ record self.old { read_faults = one_more self.old.read_faults } }
        ensures goes_on { GoesOn self.old.read_faults self.new.read_faults }
    {
        self.read_errors = self.read_errors.saturating_add(1);
        ReadAnswer::Failed
    }

    /// Counts a call, and says whether it is listed as one that fails.
    fn begin_call(&mut self) -> bool
        ensures counted { self.new ≡ record self.old { calls = one_more self.old.calls } }
        ensures listed { result ≡ is_listed self.old }
    {
        self.calls = self.calls.saturating_add(1);
        self.fail.as_slice().contains(&self.calls)
    }
}

impl Folder for MemFolder {
    ghost use Rattle.memory_io.specs.MemFolder.{file_of, next_read_fails, next_write_fails, room_of, PutsSlot};

    ghost seen = { λ folder. record {
      files = λ name. Some (file_of folder.slots name);
      read_faults = λ _. folder.read_faults;
      write_faults = λ _. folder.write_faults;
      read_fails = λ name. Some (next_read_fails folder name);
      write_fails = λ name size. Some (next_write_fails folder name size);
    } };

    /// Memory is asked only for a file that is read whole.
    fn read_file(&mut self, name: &str, into: &mut Vec<u8>, most: usize) -> ReadAnswer
        ensures whole { result ≡ ReadAnswer.Whole → file_of self.old.slots name.now ≡ Some into.new.items }
        ensures within { result ≡ ReadAnswer.Whole → length into.new.items ≤ most }
        ensures empty { result ≢ ReadAnswer.Whole → into.new.items ≡ [] }
        ensures too_long { result ≡ ReadAnswer.TooLong →
            IsSomeAnd (file_of self.old.slots name.now) (λ bytes. most < length bytes) }
        ensures fits { result ≡ ReadAnswer.NoMemory →
            IsSomeAnd (file_of self.old.slots name.now) (λ bytes. length bytes ≤ most) }
        ensures fails { next_read_fails self.old name.now ≡ is_failed_read result }
        ensures goes_on { GoesOn self.old.read_faults self.new.read_faults }
        ensures folder { self.new ≡ record self.old {
          calls = one_more self.old.calls;
          read_faults =
              if is_failed_read result then one_more self.old.read_faults else self.old.read_faults;
        } }
    {
        into.clear();
        if self.begin_call() {
            return self.read_failed();
        }
        match self.held(name) {
            Some(bytes) => copy_up_to(bytes, into, most),
            None => self.read_failed(),
        }
    }

    /// Fails where the bytes are more than the room of the name, and then changes no file.
    fn write_file(&mut self, name: &str, bytes: &[u8]) -> WriteAnswer
        ensures fails { next_write_fails self.old name.now (length bytes.now) ≡ is_failed_write result }
        ensures done { result ≡ WriteAnswer.Done → PutsSlot
            (record {
              name = name.now;
              file = Some bytes.now;
              room = unwrap_or (room_of self.old.slots name.now) 0;
            })
            self.old.slots self.new.slots }
        ensures failed { result ≡ WriteAnswer.Failed → self.new.slots ≡ self.old.slots }
        ensures goes_on { GoesOn self.old.write_faults self.new.write_faults }
        ensures folder { self.new ≡ record self.old {
          slots = self.new.slots;
          calls = one_more self.old.calls;
          write_faults =
              if is_failed_write result then one_more self.old.write_faults else self.old.write_faults;
        } }
    {
        if self.begin_call() || !self.overwrite(name, bytes) {
            self.write_errors = self.write_errors.saturating_add(1);
            return WriteAnswer::Failed;
        }
        WriteAnswer::Done
    }

    /// As `write_file`, which changes no file where it fails.
    fn replace_file(&mut self, name: &str, bytes: &[u8]) -> WriteAnswer
        ensures fails { next_write_fails self.old name.now (length bytes.now) ≡ is_failed_write result }
        ensures done { result ≡ WriteAnswer.Done → PutsSlot
            (record {
              name = name.now;
              file = Some bytes.now;
              room = unwrap_or (room_of self.old.slots name.now) 0;
            })
            self.old.slots self.new.slots }
        ensures failed { result ≡ WriteAnswer.Failed → self.new.slots ≡ self.old.slots }
        ensures goes_on { GoesOn self.old.write_faults self.new.write_faults }
        ensures folder { self.new ≡ record self.old {
          slots = self.new.slots;
          calls = one_more self.old.calls;
          write_faults =
              if is_failed_write result then one_more self.old.write_faults else self.old.write_faults;
        } }
    {
        self.write_file(name, bytes)
    }
}
