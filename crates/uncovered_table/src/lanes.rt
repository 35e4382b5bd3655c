ghost use Rattle.std.specs.Prelude.{◌≡◌, ◌+◌, ◌<◌, ◌≤◌, ◌^◌, All, Some, length, take};
ghost use Rattle.std.specs.Int.{bit_at};
ghost use Rattle.uncovered_table.specs.Bits.{bit_count};
ghost use Rattle.uncovered_table.specs.Words.{AreCounted, AreRaised};

use crate::words::WORD_BITS;
use bit_table::BitTable;
use std::simd::prelude::*;

// The number of scores that are raised at once.
pub(crate) const LANES: usize = 8;

// Half of it, for the scores that are left.
const HALF: usize = 4;

// 8 counts with the lowest bits of a word, each added to its count.
#[inline(always)]
fn with_lanes(word: u64, counts: u32x8) -> u32x8
    requires long { length counts ≡ 8 }
    requires low { All (λ count. count < 2 ^ 31) counts }
    ensures { AreRaised (bit_at word) counts result }
{
    let places = u32x8::from_array([1, 2, 4, 8, 16, 32, 64, 128]);
    let none = (u32x8::splat((word & 255) as u32) & places).simd_eq(u32x8::splat(0));
    counts + none.select(u32x8::splat(0), u32x8::splat(1))
}

// 8 counts with the marks of a few neighbouring places, each added to its count.
#[inline(always)]
pub(crate) fn with_marks(bits: &BitTable, begin: u32, count: u32, counts: u32x8) -> u32x8
    requires few { count ≤ 8 }
    requires within { begin + count ≤ length bits.now }
    requires long { length counts ≡ 8 }
    requires low { All (λ count. count < 2 ^ 31) counts }
    ensures { AreCounted (λ i. bit_count bits.now (Some (begin + i))) count counts result }
{
    with_lanes(bits.marks_from(begin, count), counts)
}

// Puts the first of 8 counts.
pub(crate) fn put_counts(counts: u32x8, scores: &mut [u32])
    requires few { length scores.old ≤ 8 }
    requires long { length counts ≡ 8 }
    ensures { scores.new ≡ take (length scores.old) counts }
{
    let first = counts.to_array();
    scores.copy_from_slice(&first[..scores.len()]);
}

// Adds the lowest bits of a word to 8 scores at once.
#[inline]
fn add_lanes(word: u64, scores: &mut [u32])
    requires long { length scores.old ≡ 8 }
    requires low { All (λ score. score < 2 ^ 31) scores.old }
    ensures { AreRaised (bit_at word) scores.old scores.new }
{
    with_lanes(word, u32x8::from_slice(scores)).copy_to_slice(scores);
}

// A bit of a word.
#[inline]
fn bit_of(word: u64, i: usize) -> u32
    requires { i < 64 }
    ensures value { result ≡ bit_at word i }
    ensures small { result ≤ 1 }
{
    ((word >> i) & 1) as u32
}

// Adds the lowest bits of a word to 4 scores at once.
#[inline]
fn add_half(word: u64, scores: &mut [u32])
    requires long { length scores.old ≡ 4 }
    requires low { All (λ score. score < 2 ^ 31) scores.old }
    ensures { AreRaised (bit_at word) scores.old scores.new }
{
    let places = u32x4::from_array([1, 2, 4, 8]);
    let none = (u32x4::splat((word & 255) as u32) & places).simd_eq(u32x4::splat(0));
    let bits = none.select(u32x4::splat(0), u32x4::splat(1));
    (u32x4::from_slice(scores) + bits).copy_to_slice(scores);
}

// Adds the lowest bits of a word to scores, one by one.
#[inline]
fn add_each(word: u64, scores: &mut [u32])
    requires few { length scores.old < 64 }
    requires low { All (λ score. score < 2 ^ 31) scores.old }
    ensures { AreRaised (bit_at word) scores.old scores.new }
{
    for i in 0..scores.len() {
        scores[i] += bit_of(word, i);
    }
}

// Adds the lowest bits of a word to a few scores.
#[inline]
fn add_few(word: u64, scores: &mut [u32])
    requires few { length scores.old < 64 }
    requires low { All (λ score. score < 2 ^ 31) scores.old }
    ensures { AreRaised (bit_at word) scores.old scores.new }
{
    if scores.len() < HALF {
        add_each(word, scores);
        return;
    }
    let (now, later) = scores.split_at_mut(HALF);
    add_half(word, now);
    add_each(word >> HALF, later);
}

// Adds the lowest bits of a word to scores.
fn add_word(word: u64, scores: &mut [u32])
    requires low { All (λ score. score < 2 ^ 31) scores.old }
    ensures { AreRaised (bit_at word) scores.old scores.new }
{
    if scores.len() < LANES {
        add_few(word, scores);
        return;
    }
    let (now, later) = scores.split_at_mut(LANES);
    add_lanes(word, now);
    add_word(word >> LANES, later);
}

// Adds to scores the marks of neighbouring places.
fn add_some(bits: &BitTable, begin: u32, scores: &mut [u32])
    requires few { length scores.old ≤ 64 }
    requires within { begin + length scores.old ≤ length bits.now }
    requires low { All (λ score. score < 2 ^ 31) scores.old }
    ensures { AreRaised (λ i. bit_count bits.now (Some (begin + i))) scores.old scores.new }
{
    let word = bits.marks_from(begin, scores.len() as u32);
    if word != 0 {
        add_word(word, scores);
    }
}

// Adds to scores the marks of as many neighbouring places, from `begin` on.
pub(crate) fn add_marks(bits: &BitTable, begin: u32, scores: &mut [u32])
    requires within { begin + length scores.old ≤ length bits.now }
    requires few { length bits.now ≤ 2 ^ 26 }
    requires low { All (λ score. score < 2 ^ 31) scores.old }
    ensures { AreRaised (λ i. bit_count bits.now (Some (begin + i))) scores.old scores.new }
{
    if scores.len() <= WORD_BITS {
        add_some(bits, begin, scores);
        return;
    }
    let (now, later) = scores.split_at_mut(WORD_BITS);
    add_some(bits, begin, now);
    add_marks(bits, begin + WORD_BITS as u32, later);
}
