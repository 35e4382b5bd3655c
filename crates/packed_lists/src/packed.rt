ghost use Rattle.std.specs.Prelude.{◌≡◌, ◌<◌, ◌≤◌, ◌++◌, ◌∷◌, [], ℕ, length, slice_index_or, slice_range, ◌==◌, OnOk, OnErr};
ghost use Rattle.packed_lists.specs.Packed.{begin_of};

use std::alloc::Global;
use std::marker::Model;
use value_text::NoMemory;

/// Lists of numbers. All together they have fewer than 2^32 numbers.
#[derive(Drop)]
pub struct PackedLists {
    numbers: Vec<u16>,
    ends: Vec<u32>,
}

impl Model for PackedLists {
    ghost use Rattle.std.specs.Prelude.{ℕ, List, length};
    ghost use Rattle.packed_lists.specs.Packed.{AreEnds, cut};

    ghost Value = { List (List ℕ) };

    ghost view = { λ lists. cut 0 lists.ends.items lists.numbers.items };

    ghost invariant = { λ lists. AreEnds 0 lists.ends.items (length lists.numbers.items) };
}

// Where the list of a number begins.
#[inline]
fn begin_of(ends: &[u32], i: usize) -> usize
    requires { i < length ends.now }
    ensures { result ≡ begin_of 0 ends.now i }
{
    if i == 0 { 0 } else { ends[i - 1] as usize }
}

// The numbers between two places.
#[inline]
fn between(numbers: &[u16], begin: usize, end: usize) -> &[u16]
    requires order { begin ≤ end }
    requires within { end ≤ length numbers.now }
    ensures { result.now ≡ slice_range numbers.now begin end }
{
    &numbers[begin..end]
}

impl PackedLists {
    /// No lists.
    pub fn new(alloc: Global) -> Self
        ensures { result ≡ [] }
    {
        PackedLists {
            numbers: Vec::new(alloc),
            ends: Vec::new(alloc),
        }
    }

    /// How many lists there are.
    pub fn len(&self) -> usize
        ensures { result ≡ length self.now }
    {
        self.ends.len()
    }

    /// Whether there is no list.
    pub fn is_empty(&self) -> bool
        ensures { result ≡ (length self.now == 0) }
    {
        self.len() == 0
    }

    /// The list of this number, from 0.
    #[inline]
    pub fn list(&self, i: usize) -> &[u16]
        requires { i < length self.now }
        ensures { result.now ≡ slice_index_or self.now i [] }
    {
        let begin = begin_of(self.ends.as_slice(), i);
        let end = self.ends[i] as usize;
        between(self.numbers.as_slice(), begin, end)
    }

    /// Puts a list behind the others.
    ///
    /// # Errors
    ///
    /// `NoMemory` where there is no room; the lists are as before then.
    pub fn push(&mut self, list: &[u16]) -> Result<(), NoMemory>
        ensures ok { OnOk result (self.new ≡ self.old ++ list.now ∷ []) }
        ensures err { OnErr result (self.new ≡ self.old) }
    {
        let Ok(end) = u32::try_from(self.numbers.len() + list.len()) else {
            return Err(NoMemory);
        };
        self.numbers.reserve(list.len())?;
        self.ends.push(end)?;
        let copied = self.numbers.extend_from_slice(list);
        prove!(copied.is_ok());
        Ok(())
    }
}
