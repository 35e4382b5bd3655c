ghost use Rattle.std.specs.Prelude.{◌≡◌};
ghost use Rattle.value_text.specs.believed.Numbers.{count_of};

use crate::digits::{is_digits, value_of};

// The most digits of a count, leading zeros too.
const COUNT_DIGITS: usize = 20;

/// The count that 1 to 20 digits write, where it is from `least` to `most`; `None` exactly where
/// the text is no such count (this project's rule). Leading zeros count as digits. Takes no memory.
pub fn read_count(text: &str, least: u64, most: u64) -> Option<u64>
    ensures { result ≡ count_of text.now least most }
{
    let digits = text.as_bytes();
    if digits.len() > COUNT_DIGITS || !is_digits(digits) {
        return None;
    }
    let value = value_of(digits);
    if value < u128::from(least) || value > u128::from(most) {
        return None;
    }
    Some(value as u64)
}
