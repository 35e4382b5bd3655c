ghost use Rattle.std.specs.Prelude.{◌≡◌, ◌*◌, ◌+◌, ◌-◌, ◌<◌, ◌≤◌, ℕ, true, false, length, replicate, slice_index_or, slice_set, IfOk, MatchOption};
ghost use Rattle.std.specs.Int.{bit_at};
ghost use Rattle.std.specs.List.{count_by};
ghost use Rattle.bit_table.specs.Marks.{AreMarksFrom, IsFirstSet, NoneSet};
ghost use Rattle.bit_table.specs.Words.{AreBits};

use std::alloc::Global;
use std::marker::Model;
use value_text::NoMemory;

/// The number of bits of a word.
const WORD_BITS: usize = 64;

/// Marks on places numbered from 0, a bit each.
#[derive(Drop)]
pub struct BitTable {
    words: Vec<u64>,
    size: u32,
    set_count: u32,
}

impl Model for BitTable {
    ghost use Rattle.std.specs.Prelude.{◌≡◌, ◌*◌, ◌≤◌, Bool, List, length};
    ghost use Rattle.std.specs.List.{count_by};
    ghost use Rattle.bit_table.specs.Words.{marks_of};

    ghost Value = { List Bool };

    ghost view = { λ table. marks_of table.words.items table.size };

    ghost invariant = { λ table. (table.size ≤ 64 * length table.words.items)
        × (table.set_count ≡ count_by (λ mark. mark) (marks_of table.words.items table.size)) };
}

// The 64 bits of two neighbouring words from a bit of the first on.
#[inline]
fn across(low: u64, high: u64, bit: usize) -> u64
    requires first { 0 < bit }
    requires within { bit < 64 }
    ensures below { (i : ℕ) → bit + i < 64 → bit_at result i ≡ bit_at low (bit + i) }
    ensures above { (i : ℕ) → 64 ≤ bit + i → i < 64 → bit_at result i ≡ bit_at high (bit + i - 64) }
{
    (low >> bit) | (high << (WORD_BITS - bit))
}

// The `count` bits from bit `bit` of word `at` on, as the lowest bits of a word. They reach into the next word where
// this one has fewer. The other bits mean nothing.
#[inline]
fn bits_from(words: &[u64], at: usize, bit: usize, count: usize) -> u64
    requires some { 0 < count }
    requires few { count ≤ 64 }
    requires bit { bit < 64 }
    requires within { 64 * at + bit + count ≤ 64 * length words.now }
    ensures { AreBits (slice_index_or words.now at 0) (slice_index_or words.now (at + 1) 0) bit count result }
{
    if bit + count <= WORD_BITS {
        words[at] >> bit
    } else {
        across(words[at], words[at + 1], bit)
    }
}

impl BitTable {
    /// A table of `size` places, each of them marked.
    ///
    /// # Errors
    ///
    /// `NoMemory` where there is no room for the marks.
    pub fn all_set(alloc: Global, size: u32) -> Result<BitTable, NoMemory>
        ensures { IfOk result (λ table. table ≡ replicate size true) }
    {
        let words = vec![in alloc; u64::MAX; size as usize / WORD_BITS + 1]?;
        Ok(BitTable {
            words,
            size,
            set_count: size,
        })
    }

    /// The number of places.
    pub fn len(&self) -> u32
        ensures { result ≡ length self.now }
    {
        self.size
    }

    /// Whether a place is marked.
    #[inline]
    pub fn is_set(&self, place: u32) -> bool
        requires { place < length self.now }
        ensures { result ≡ slice_index_or self.now place false }
    {
        let place = place as usize;
        let word = self.words[place / WORD_BITS];
        (word >> (place % WORD_BITS)) & 1 == 1
    }

    /// Takes the mark of a place away, where it has one.
    #[inline]
    pub fn clear(&mut self, place: u32)
        requires { place < length self.old }
        ensures { self.new ≡ slice_set self.old place false }
    {
        let at = place as usize / WORD_BITS;
        let bit = place as usize % WORD_BITS;
        let word = self.words[at];
        self.words[at] = word & !(1 << bit);
        self.set_count -= ((word >> bit) & 1) as u32;
    }

    /// Marks a place, where it has no mark.
    #[inline]
    pub fn set(&mut self, place: u32)
        requires { place < length self.old }
        ensures { self.new ≡ slice_set self.old place true }
    {
        let at = place as usize / WORD_BITS;
        let bit = place as usize % WORD_BITS;
        let word = self.words[at];
        self.words[at] = word | (1 << bit);
        self.set_count += 1 - ((word >> bit) & 1) as u32;
    }

    /// The number of marked places.
    pub fn count(&self) -> u32
        ensures { result ≡ count_by (λ mark. mark) self.now }
    {
        self.set_count
    }

    /// The first marked place from `from` on and before `to`; `None` where no such place is marked.
    pub fn next_set(&self, from: u32, to: u32) -> Option<u32>
        requires ordered { from ≤ to }
        requires within { to ≤ length self.now }
        ensures { MatchOption result (NoneSet self.now from to) (λ place. IsFirstSet self.now from to place) }
    {
        let words = self.words.as_slice();
        let end = to as usize;
        let mut place = from as usize;
        while place < end {
            let rest = words[place / WORD_BITS] >> (place % WORD_BITS);
            if rest != 0 {
                let first = place + rest.trailing_zeros() as usize;
                return if first < end {
                    Some(first as u32)
                } else {
                    None
                };
            }
            place = (place / WORD_BITS + 1) * WORD_BITS;
        }
        None
    }

    /// The marks of the `count` neighbouring places from `from` on, at most 64, as the lowest bits of a word,
    /// whose other bits are 0.
    #[inline]
    pub fn marks_from(&self, from: u32, count: u32) -> u64
        requires few { count ≤ 64 }
        requires within { from + count ≤ length self.now }
        ensures { AreMarksFrom self.now from count result }
    {
        if count == 0 {
            return 0;
        }
        let words = self.words.as_slice();
        let at = from as usize / WORD_BITS;
        let bit = from as usize % WORD_BITS;
        let word = bits_from(words, at, bit, count as usize);
        word & (u64::MAX >> (WORD_BITS - count as usize))
    }
}
