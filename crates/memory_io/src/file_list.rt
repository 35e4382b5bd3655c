ghost use Rattle.std.specs.Prelude.{◌≡◌, ◌≢◌, ◌==◌, ℕ, ◌^◌, ◌<◌, List, [], ◌∷◌, ◌++◌, None, length, slice_get, OnOk, OnErr, OnSome};
ghost use Rattle.std.specs.Option.{option_copied};
ghost use Rattle.std.specs.Slice.Iter.{iter_rest};
ghost use Rattle.std.specs.Iterator.Adapters.{IterYieldsInOrder};

use std::alloc::Global;
use std::marker::Model;
use std::slice::Iter;
use value_text::{NoMemory, OwnedList, Text};

/// A list of bytes.
pub type ByteList = OwnedList<u8>;

/// A file: its name and its bytes.
#[derive(Drop)]
pub struct FileHeld {
    /// The name.
    pub name: Text,
    /// The bytes.
    pub bytes: ByteList,
}

/// A list of files. Contracts see the list of its items.
#[derive(Drop)]
pub struct FileList {
    files: Vec<FileHeld>,
}

impl Model for FileList {
    ghost use Rattle.std.specs.Prelude.{List};
    ghost use Rattle.memory_io.specs.declared.file_list.FileHeld.{FileHeld};

    ghost Value = { List FileHeld };

    ghost view = { λ list. list.files.items };
}

impl FileList {
    ghost use Rattle.memory_io.specs.FileLists.{bytes_of, without};
    ghost use Rattle.memory_io.specs.declared.file_list.FileHeld.{FileHeld};

    /// The empty list. Takes no memory; the list keeps the allocator for what it is given later.
    pub fn new(alloc: Global) -> Self
        ensures { result ≡ [] }
    {
        FileList {
            files: Vec::new(alloc),
        }
    }

    /// The number of files.
    pub fn len(&self) -> usize
        ensures { result ≡ length self.now }
    {
        self.files.len()
    }

    /// Whether there is no file.
    pub fn is_empty(&self) -> bool
        ensures { result ≡ (length self.now == 0) }
    {
        self.files.is_empty()
    }

    /// The file at a place counted from 0; `None` exactly where the place is not below the length.
    pub fn get(&self, at: usize) -> Option<&FileHeld>
        ensures value { option_copied result ≡ slice_get self.now at }
        ensures within { OnSome result (at < length self.now) }
    {
        self.files.get(at)
    }

    /// The files, one after another.
    pub fn iter(&self) -> Iter<'_, FileHeld>
        ensures rest { iter_rest result ≡ self.now }
        ensures bound { length (iter_rest result) < 2 ^ 64 }
        ensures runs { IterYieldsInOrder FileHeld }
    {
        self.files.iter()
    }

    /// Adds a file at the end. After a refusal the list is as before.
    ///
    /// # Errors
    ///
    /// `NoMemory` where the list could not grow.
    pub fn push(&mut self, file: FileHeld) -> Result<(), NoMemory>
        ensures ok { OnOk result (self.new ≡ self.old ++ file ∷ []) }
        ensures err { OnErr result (self.new ≡ self.old) }
    {
        self.files.push(file)?;
        Ok(())
    }

    /// The bytes of the file of a name, where one is listed.
    pub(crate) fn bytes_of(&self, name: &str) -> Option<&[u8]>
        ensures { option_copied result ≡ bytes_of self.now name.now }
    {
        let file = self.files.iter().find(|file| file.name.as_str() == name)?;
        Some(file.bytes.as_slice())
    }

    /// Takes the files of a name out. Takes no memory.
    pub(crate) fn take_out(&mut self, name: &str)
        ensures taken_out { self.new ≡ without self.old name.now }
        ensures gone { bytes_of self.new name.now ≡ None }
        ensures others { (other : List ℕ) → other ≢ name.now →
            bytes_of self.new other ≡ bytes_of self.old other }
    {
        self.files.retain(|file| file.name.as_str() != name);
    }
}
