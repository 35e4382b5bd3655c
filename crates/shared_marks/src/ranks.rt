ghost use Rattle.std.specs.Prelude.{◌≡◌, ◌||◌, ◌+◌, ◌*◌, ◌/◌, ◌%◌, ◌==◌, ◌<◌, ◌≤◌, ℕ, All, length};
ghost use Rattle.std.specs.List.{list_any};
ghost use Rattle.bit_table.specs.Words.{mark_at};
ghost use Rattle.shared_marks.specs.Adding.{Marks, are_behind, is_in_words, is_of_word};

use crate::bits::WORD_BITS;
use crate::flags::{pack, set_flags};
use crate::seat::MarkSeat;
use crate::table::SharedMarks;

/// The fewest words in which bits are gathered: each bit of a word waits for the one before.
const FEWEST_WORDS: usize = 4;

/// The most words whose bits are flags first, so that none waits.
const MOST_FLAG_WORDS: usize = 8;

/// As many flags as these words have bits.
const MOST_FLAGS: usize = 512;

// Sets the bit of a place in words.
fn put_bit(words: &mut [u64], place: usize)
    requires { place / 64 < length words.old }
    ensures long { length words.new ≡ length words.old }
    ensures each { (other : ℕ) → mark_at words.new other ≡ (place == other || mark_at words.old other) }
{
    let word = words[place / WORD_BITS];
    words[place / WORD_BITS] = word | (1 << (place % WORD_BITS));
}

// Sets the bits of the places of these ranks behind a base.
fn put_bits(words: &mut [u64], base: usize, ranks: &[u32])
    requires base { base < 64 }
    requires within { All (λ rank. base + rank < 64 * length words.old) ranks.now }
    ensures long { length words.new ≡ length words.old }
    ensures each { (place : ℕ) → mark_at words.new place ≡ (mark_at words.old place || are_behind base ranks.now place) }
{
    for rank in ranks {
        put_bit(words, base + *rank as usize);
    }
}

// Marks the places of a word whose bits a number has.
fn mark_bits(table: &SharedMarks, seat: &mut MarkSeat, word: u32, bits: u64)
    requires table { seat.old.table ≡ table.now.table }
    requires word { 64 * word ≤ table.now.bits }
    ensures { Marks (is_of_word word bits) seat.old seat.new }
{
    if bits != 0 {
        table.mark_word(seat, word, bits);
    }
}

// Marks the places whose bits are set in these words, which stand for the words of the table from `first` on.
fn mark_words(table: &SharedMarks, seat: &mut MarkSeat, first: u32, words: &[u64])
    requires table { seat.old.table ≡ table.now.table }
    requires within { 64 * (first + length words.now) ≤ table.now.bits + 64 }
    ensures { Marks (is_in_words first words.now) seat.old seat.new }
{
    table.assert_invariant();
    for at in 0..words.len() {
        mark_bits(table, seat, first + at as u32, words[at]);
    }
}

// Marks the places of these ranks behind a base, whose bits are gathered in words first: one step for each word
// that has some.
fn mark_gathered(
    table: &SharedMarks,
    seat: &mut MarkSeat,
    base: u32,
    ranks: &[u32],
    words: &mut [u64],
)
    requires table { seat.old.table ≡ table.now.table }
    requires within { 64 * (base / 64 + length words.old) ≤ table.now.bits + 64 }
    requires room { All (λ rank. base % 64 + rank < 64 * length words.old) ranks.now }
    ensures { Marks (are_behind base ranks.now) seat.old seat.new }
{
    words.fill(0);
    put_bits(words, base as usize % WORD_BITS, ranks);
    mark_words(table, seat, base / WORD_BITS as u32, words);
}

// The same for few words, whose bits are gathered as flags.
fn mark_flagged(
    table: &SharedMarks,
    seat: &mut MarkSeat,
    base: u32,
    ranks: &[u32],
    words: &mut [u64],
)
    requires table { seat.old.table ≡ table.now.table }
    requires few { length words.old ≤ 8 }
    requires within { 64 * (base / 64 + length words.old) ≤ table.now.bits + 64 }
    requires room { All (λ rank. base % 64 + rank < 64 * length words.old) ranks.now }
    ensures { Marks (are_behind base ranks.now) seat.old seat.new }
{
    let mut all = [false; MOST_FLAGS];
    let flags = &mut all[..words.len() * WORD_BITS];
    set_flags(flags, base as usize % WORD_BITS, ranks);
    pack(flags, words);
    mark_words(table, seat, base / WORD_BITS as u32, words);
}

// Marks the places of these ranks behind a base one by one.
fn mark_each(table: &SharedMarks, seat: &mut MarkSeat, base: u32, ranks: &[u32])
    requires table { seat.old.table ≡ table.now.table }
    requires within { All (λ rank. base + rank < table.now.bits) ranks.now }
    ensures { Marks (are_behind base ranks.now) seat.old seat.new }
{
    table.assert_invariant();
    for rank in ranks {
        table.mark_lightly(seat, base + *rank);
    }
}

// Marks the places of these ranks behind a base. All places of the set are fewer than a number; there are words
// to gather bits in, as many as the caller likes.
pub(crate) fn mark_ranks(
    table: &SharedMarks,
    seat: &mut MarkSeat,
    base: u32,
    size: u32,
    ranks: &[u32],
    words: &mut [u64],
)
    requires table { seat.old.table ≡ table.now.table }
    requires within { base + size ≤ table.now.bits }
    requires ranks { All (λ rank. rank < size) ranks.now }
    ensures { Marks (are_behind base ranks.now) seat.old seat.new }
{
    let needed = (base as usize % WORD_BITS + size as usize) / WORD_BITS + 1;
    if needed > words.len() {
        return mark_each(table, seat, base, ranks);
    }
    // packing the flags of a set pays where most of its places are served
    if needed <= MOST_FLAG_WORDS && ranks.len() >= size as usize {
        return mark_flagged(table, seat, base, ranks, &mut words[..needed]);
    }
    if needed < FEWEST_WORDS {
        return mark_each(table, seat, base, ranks);
    }
    mark_gathered(table, seat, base, ranks, &mut words[..needed]);
}
