ghost use Rattle.std.specs.Prelude.{◌≡◌, false, ◌==◌, ◌<◌, ◌≤◌, ◌^◌, ◌*◌, ℕ, length, slice_index_or, if◌then◌else◌};
ghost use Rattle.uncovered_table.specs.Words.{bit_in, common, sum_to};

// The number of bits of a word.
pub(crate) const WORD_BITS: usize = 64;

// How many bits words have in common with a mask.
pub(crate) fn count_common(words: &[u64], mask: &[u64]) -> u32
    requires room { length words.now ≤ length mask.now }
    requires few { length words.now < 2 ^ 20 }
    ensures { result ≡ sum_to (common words.now mask.now) (64 * length words.now) }
{
    let mut count: u32 = 0;
    for i in 0..words.len() {
        count += (words[i] & mask[i]).count_ones();
    }
    count
}

// Clears a bit, if there is a word for it, and tells whether it was set. A word without the bit isn't
// written, so that the next read of it need not wait.
#[inline]
pub(crate) fn clear_bit(words: &mut Vec<u64>, place: usize) -> bool
    ensures none { result ≡ false → bit_in words.old.items place ≡ 0 }
    ensures long { length words.new.items ≡ length words.old.items }
    ensures each { (k : ℕ) → bit_in words.new.items k ≡ (if k == place then 0 else bit_in words.old.items k) }
{
    let at = place / WORD_BITS;
    if at >= words.len() {
        return false;
    }
    let bit = place % WORD_BITS;
    let word = words[at];
    if (word >> bit) & 1 == 0 {
        return false;
    }
    words[at] = word & !(1 << bit);
    true
}

// Sets a bit.
#[inline]
pub(crate) fn set_bit(words: &mut [u64], place: usize)
    requires { place < 64 * length words.old }
    ensures long { length words.new ≡ length words.old }
    ensures each { (k : ℕ) → bit_in words.new k ≡ (if k == place then 1 else bit_in words.old k) }
{
    let at = place / WORD_BITS;
    let word = words[at];
    words[at] = word | (1 << (place % WORD_BITS));
}

// How many words there are without those at the end that have no bit.
pub(crate) fn used(words: &[u64]) -> usize
    ensures within { result ≤ length words.now }
    ensures rest { (i : ℕ) → result ≤ i → slice_index_or words.now i 0 ≡ 0 }
{
    let mut count = words.len();
    while count > 0 && words[count - 1] == 0 {
        count -= 1;
    }
    count
}

// Sets the bits from `from` up to but not including `to`.
pub(crate) fn set_bits(words: &mut [u64], from: usize, to: usize)
    requires { to ≤ 64 * length words.old }
    ensures long { length words.new ≡ length words.old }
    ensures inside { (k : ℕ) → from ≤ k → k < to → bit_in words.new k ≡ 1 }
    ensures outside { (k : ℕ) → (from ≤ k → k < to → ⊥) → bit_in words.new k ≡ bit_in words.old k }
{
    for place in from..to {
        set_bit(words, place);
    }
}
