ghost use Rattle.std.specs.Prelude.{◌≡◌, ◌+◌, ◌%◌, ◌<◌, ◌≤◌, false, drop, length, slice_index_or, take};
ghost use Rattle.std.specs.List.{count_by};
ghost use Rattle.std.specs.Slots.{IsFull, slots_items, slots_len};
ghost use Rattle.bit_table.specs.Marks.{AreMarksFrom};

use atomic_table::Closed;
use std::alloc::Global;
use std::marker::Model;

// The number of bits of a word.
pub(crate) const WORD_BITS: usize = 64;

/// The marks of a closed table, a bit each. Contracts see the list of the marks.
#[derive(Drop)]
pub struct Bits {
    pub(crate) words: Vec<u64>,
    pub(crate) size: u32,
}

impl Model for Bits {
    ghost use Rattle.std.specs.Prelude.{◌*◌, ◌≤◌, Bool, List, length};
    ghost use Rattle.bit_table.specs.Words.{marks_of};

    ghost Value = { List Bool };

    ghost view = { λ a. marks_of a.words.items a.size };

    ghost invariant = { λ a. a.size ≤ 64 * length a.words.items };
}

impl Bits {
    /// The number of places. Takes no memory.
    pub fn len(&self) -> u32
        ensures { result ≡ length self.now }
    {
        self.size
    }

    /// Whether a place is marked. Takes no memory.
    pub fn has(&self, place: u32) -> bool
        requires { place < length self.now }
        ensures { result ≡ slice_index_or self.now place false }
    {
        let place = place as usize;
        let word = self.words[place / WORD_BITS];
        (word >> (place % WORD_BITS)) & 1 == 1
    }

    /// The marks of up to 64 places from a multiple of 64 on, as the lowest bits of a word, whose other bits are 0. Takes
    /// no memory.
    pub fn marks_from(&self, from: u32, count: u32) -> u64
        requires aligned { from % 64 ≡ 0 }
        requires some { 0 < count }
        requires few { count ≤ 64 }
        requires within { from + count ≤ length self.now }
        ensures { AreMarksFrom self.now from count result }
    {
        self.marks_in_word(from as usize, count as usize)
    }

    /// How many of the `count` neighbouring places from `from` on are marked. Takes no memory.
    pub fn count_marked(&self, from: u32, count: u32) -> u32
        requires { from + count ≤ length self.now }
        ensures { result ≡ count_by (λ mark. mark) (take count (drop from self.now)) }
    {
        let end = from as usize + count as usize;
        let mut place = from as usize;
        let mut marked = 0;
        while place < end {
            let near = (WORD_BITS - place % WORD_BITS).min(end - place);
            marked += self.marks_in_word(place, near).count_ones();
            place += near;
        }
        marked
    }

    // The marks of neighbouring places that share a word, as the lowest bits of a word, whose other bits are 0.
    fn marks_in_word(&self, from: usize, count: usize) -> u64
        requires some { 0 < count }
        requires shared { from % 64 + count ≤ 64 }
        requires within { from + count ≤ length self.now }
        ensures { AreMarksFrom self.now from count result }
    {
        let word = self.words[from / WORD_BITS];
        (word >> (from % WORD_BITS)) & (u64::MAX >> (WORD_BITS - count))
    }
}

// The words of a closed table, in a vector that is as long.
pub(crate) fn words_of(closed: &Closed<(), Global>, mut into: Vec<u64>) -> Vec<u64>
    requires full { IsFull closed.now.words }
    requires room { length into.items ≡ slots_len closed.now.words }
    ensures { result.items ≡ slots_items closed.now.words }
{
    for i in 0..into.len() {
        into[i] = closed.word(i);
    }
    into
}
