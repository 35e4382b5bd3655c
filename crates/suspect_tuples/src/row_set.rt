ghost use Rattle.std.specs.Prelude.{◌≡◌, ◌+◌, ◌/◌, ◌<◌, ◌==◌, ◌||◌, ℕ, All, length, nat_lt, slice_index_or, IfOk};
ghost use Rattle.bit_table.specs.Words.{mark_at};
ghost use Rattle.definitions.specs.believed.Demand.{is_among};

use std::alloc::Global;
use std::marker::Model;
use value_text::NoMemory;

// The number of bits of a word.
const WORD_BITS: usize = 64;

// Some of the rows of a list, a bit for each row. Contracts see the words.
#[derive(Drop)]
pub(crate) struct RowSet {
    words: Vec<u64>,
}

impl Model for RowSet {
    ghost use Rattle.std.specs.Prelude.{List, ℕ};

    ghost Value = { List ℕ };

    ghost view = { λ set. set.words.items };
}

// The number of words that have a bit for each of so many rows.
pub(crate) fn word_count(rows: usize) -> usize
    ensures { result ≡ rows / 64 + 1 }
{
    rows / WORD_BITS + 1
}

// Marks a row.
fn mark(words: &mut [u64], at: usize)
    requires { at / 64 < length words.old }
    ensures long { length words.new ≡ length words.old }
    ensures marks { (other : ℕ) → mark_at words.new other ≡ (mark_at words.old other || at == other) }
{
    let word = words[at / WORD_BITS];
    words[at / WORD_BITS] = word | (1 << (at % WORD_BITS));
}

impl RowSet {
    // The rows of these numbers, of a list of so many rows.
    pub(crate) fn of(alloc: Global, count: usize, numbers: &[u32]) -> Result<RowSet, NoMemory>
        requires { All (λ number. number < count) numbers.now }
        ensures { IfOk result (λ set. (at : ℕ) → mark_at set at ≡ is_among numbers.now at) }
    {
        let mut words = vec![in alloc; 0u64; word_count(count)]?;
        for number in numbers {
            mark(&mut words, *number as usize);
        }
        Ok(RowSet { words })
    }

    // All rows of a list of so many.
    pub(crate) fn all(alloc: Global, count: usize) -> Result<RowSet, NoMemory>
        ensures { IfOk result (λ set. (at : ℕ) → mark_at set at ≡ nat_lt at count) }
    {
        let mut words = vec![in alloc; 0u64; word_count(count)]?;
        for at in 0..count {
            mark(&mut words, at);
        }
        Ok(RowSet { words })
    }

    // The word of a number; 0 past the last.
    #[inline]
    pub(crate) fn word(&self, k: usize) -> u64
        ensures { result ≡ slice_index_or self.now k 0 }
    {
        match self.words.get(k) {
            Some(word) => *word,
            None => 0,
        }
    }
}
