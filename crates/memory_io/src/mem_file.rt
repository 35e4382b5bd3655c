ghost use Rattle.std.specs.Prelude.{◌≡◌, ◌≤◌, max, length, None, Some, IfOk, OnOk, OnErr};
ghost use Rattle.std.specs.Option.{option_copied};

use std::alloc::Global;
use std::marker::Model;
use value_text::{NoMemory, Text};

/// What a folder in memory keeps under one name: the file, where there is one, and the most bytes
/// that a write may put there. Memory for as many bytes is kept from the start.
#[derive(Drop)]
pub(crate) struct MemFile {
    name: Text,
    bytes: Vec<u8>,
    is_there: bool,
    room: usize,
}

impl Model for MemFile {
    ghost use Rattle.std.specs.Prelude.{◌≤◌, None, Some, length, vec_capacity, if◌then◌else◌};
    ghost use Rattle.memory_io.specs.MemFolder.{Slot};

    ghost Value = { Slot };

    ghost view = { λ file. record {
      name = file.name;
      file = if file.is_there then Some file.bytes.items else None;
      room = file.room;
    } };

    ghost invariant = { λ file.
        (length file.bytes.items ≤ file.room) × (file.room ≤ vec_capacity file.bytes) };
}

impl MemFile {
    ghost use Rattle.memory_io.specs.MemFolder.{is_named};

    /// A name without a file, with a room for `room` bytes.
    pub(crate) fn new(alloc: Global, name: &str, room: usize) -> Result<MemFile, NoMemory>
        ensures { IfOk result (λ file. file ≡ record { name = name.now; file = None; room = room }) }
    {
        let name = Text::copy(alloc, name)?;
        let bytes = Vec::with_capacity(alloc, room)?;
        Ok(MemFile {
            name,
            bytes,
            is_there: false,
            room,
        })
    }

    /// Whether this is the slot of a name.
    pub(crate) fn is_named(&self, name: &str) -> bool
        ensures { result ≡ is_named name.now self.now }
    {
        self.name.as_str() == name
    }

    /// The most bytes that a write may put here.
    pub(crate) fn room(&self) -> usize
        ensures { result ≡ self.now.room }
    {
        self.room
    }

    /// The bytes of the file, where there is one.
    pub(crate) fn file(&self) -> Option<&[u8]>
        ensures { option_copied result ≡ self.now.file }
    {
        if self.is_there {
            Some(self.bytes.as_slice())
        } else {
            None
        }
    }

    /// Raises the room to `most` bytes, where it is less.
    pub(crate) fn raise_room(&mut self, most: usize) -> Result<(), NoMemory>
        ensures ok { OnOk result (self.new ≡ record self.old { room = max self.old.room most }) }
        ensures err { OnErr result (self.new ≡ self.old) }
    {
        if most <= self.room {
            return Ok(());
        }
        let held = self.bytes.len();
        self.bytes.reserve(most - held)?;
        self.room = most;
        Ok(())
    }

    /// Makes `bytes` the file. Takes no memory.
    pub(crate) fn fill(&mut self, bytes: &[u8])
        requires { length bytes.now ≤ self.old.room }
        ensures { self.new ≡ record self.old { file = Some bytes.now } }
    {
        self.bytes.clear();
        let copied = self.bytes.extend_from_slice(bytes);
        prove!(copied.is_ok());
        self.is_there = true;
    }
}
