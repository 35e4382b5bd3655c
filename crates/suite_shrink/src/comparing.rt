ghost use Rattle.std.specs.Prelude.{◌≡◌, ◌+◌, ◌%◌, ◌<◌, ◌≤◌, true, length};
ghost use Rattle.suite_shrink.specs.Within.{AreWithin};

use shared_marks::Bits;

// The number of places that a word tells of.
const WORD_BITS: u32 = 64;

// Whether those of the `count` places from `from` on that are marked in one table are marked in
// another.
fn is_word_within(inner: &Bits, outer: &Bits, from: u32, count: u32) -> bool
    requires long { length outer.now ≡ length inner.now }
    requires aligned { from % 64 ≡ 0 }
    requires some { 0 < count }
    requires few { count ≤ 64 }
    requires within { from + count ≤ length inner.now }
    ensures { result ≡ true → AreWithin inner.now outer.now from (from + count) }
{
    inner.marks_from(from, count) & !outer.marks_from(from, count) == 0
}

// Whether the places that are marked in one table are marked in another.
pub(crate) fn are_within(inner: &Bits, outer: &Bits) -> bool
    requires { length outer.now ≡ length inner.now }
    ensures { result ≡ true → AreWithin inner.now outer.now 0 (length inner.now) }
{
    let end = inner.len();
    let mut from = 0;
    while from < end {
        let count = WORD_BITS.min(end - from);
        if !is_word_within(inner, outer, from, count) {
            return false;
        }
        from += count;
    }
    true
}
