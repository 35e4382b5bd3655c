ghost use Rattle.std.specs.Prelude.{◌≡◌, ◌||◌, ◌+◌, ◌*◌, ◌==◌, ◌<◌, ◌≤◌, ℕ, false, All, length, slice_index_or};
ghost use Rattle.std.specs.Int.{bit_at};
ghost use Rattle.bit_table.specs.Words.{mark_at};
ghost use Rattle.shared_marks.specs.Adding.{are_behind};

use crate::bits::WORD_BITS;

// Sets the flags at the places of these ranks behind a base.
pub(crate) fn set_flags(flags: &mut [bool], base: usize, ranks: &[u32])
    requires base { base < 64 }
    requires within { All (λ rank. base + rank < length flags.old) ranks.now }
    ensures long { length flags.new ≡ length flags.old }
    ensures each { (place : ℕ) → slice_index_or flags.new place false ≡ (slice_index_or flags.old place false || are_behind base ranks.now place) }
{
    for rank in ranks {
        flags[base + *rank as usize] = true;
    }
}

// The word whose lowest bits are these flags, 64 at most, and whose other bits are 0.
fn word_of(flags: &[bool]) -> u64
    requires { length flags.now ≤ 64 }
    ensures { (bit : ℕ) → (bit_at result bit == 1) ≡ slice_index_or flags.now bit false }
{
    let mut word: u64 = 0;
    for bit in 0..flags.len() {
        if flags[bit] {
            word |= 1 << bit;
        }
    }
    word
}

// Puts flags as the bits of words.
pub(crate) fn pack(flags: &[bool], words: &mut [u64])
    requires { length flags.now ≡ 64 * length words.old }
    ensures long { length words.new ≡ length words.old }
    ensures each { (place : ℕ) → mark_at words.new place ≡ slice_index_or flags.now place false }
{
    for at in 0..words.len() {
        let first = at * WORD_BITS;
        words[at] = word_of(&flags[first..first + WORD_BITS]);
    }
}
