ghost use Rattle.std.specs.Prelude.{◌≡◌, ◌≤◌, ◌*◌, ◌^◌, ◌-◌, pos, ◌++◌, length, is_some, position, IfSome, IsTrue};
ghost use Rattle.std.specs.Char.{is_ascii_digit};
ghost use Rattle.std.specs.List.{list_all};
ghost use Rattle.std.specs.Str.Parse.{digits_value};
ghost use Rattle.value_text.specs.believed.Numbers.{number_of, is_minus, without_sign, is_point, is_decimal, whole_digits, decimal_digits};

use crate::digits::{is_digits, value_of};
use std::marker::Model;

/// A decimal number with up to 9 decimals, kept as an integer scaled by 10^9. Contracts see that integer.
#[derive(Debug, Drop, Clone, Copy, PartialEq, Eq, PartialOrd, Ord)]
pub struct Fixed {
    scaled: i128,
}

impl Model for Fixed {
    ghost use Rattle.std.specs.Prelude.{ℤ};

    ghost Value = { ℤ };

    ghost view = { λ number. number.scaled };

    ghost inverse = { λ scaled. record { scaled = scaled } };
}

impl Fixed {
    /// The number times 10^9. Takes no memory.
    pub fn scaled(self) -> i128
        ensures { result ≡ self }
    {
        self.scaled
    }
}

/// What a text is as a number.
#[derive(Debug, Drop, Clone, Copy, PartialEq, Eq)]
pub enum FixedAnswer {
    /// The number that the text spells.
    Number(Fixed),
    /// The text spells no decimal number.
    NotNumber,
    /// The text spells a decimal number, but with more than 28 digits before the point or more than 9 behind it.
    TooWide,
}

// The most digits before the point and behind it.
const WHOLE_DIGITS: usize = 28;

const DECIMAL_DIGITS: usize = 9;

/// The number that a text spells: an optional sign, 1 to 28 digits, and optionally a point with 1
/// to 9 digits (this project's rule). `TooWide` comes where the text has this form but for more
/// than 28 digits before the point or more than 9 behind it, and `NotNumber` where it has not.
/// Takes no memory.
pub fn read_fixed(text: &str) -> FixedAnswer
    ensures { result ≡ number_of text.now }
{
    let bytes = text.as_bytes();
    let Some((whole, decimals)) = decimal_parts(bytes) else {
        return FixedAnswer::NotNumber;
    };
    if whole.len() > WHOLE_DIGITS || decimals.len() > DECIMAL_DIGITS {
        return FixedAnswer::TooWide;
    }
    let size = scaled_size(whole, decimals);
    let scaled = if is_minus(bytes) { -size } else { size };
    FixedAnswer::Number(Fixed { scaled })
}

// Whether the sign is a minus.
fn is_minus(text: &[u8]) -> bool
    ensures { result ≡ is_minus text.now }
{
    text.first() == Some(&b'-')
}

// The text without its sign.
fn without_sign(text: &[u8]) -> &[u8]
    ensures { result.now ≡ without_sign text.now }
{
    match text {
        [b'+' | b'-', rest @ ..] => rest,
        _ => text,
    }
}

// The place of the first point.
fn point_of(text: &[u8]) -> Option<usize>
    ensures { result ≡ position is_point text.now }
{
    text.iter().position(|byte| *byte == b'.')
}

// The digits before the point and behind it, where the text is a decimal number of any width.
fn decimal_parts(text: &[u8]) -> Option<(&[u8], &[u8])>
    ensures decimal { is_some result ≡ is_decimal text.now }
    ensures parts { IfSome result (λ parts. (parts.0.now ≡ whole_digits text.now) × (parts.1.now ≡ decimal_digits text.now)) }
    ensures digits { IfSome result (λ parts. IsTrue (list_all is_ascii_digit parts.0.now) × IsTrue (list_all is_ascii_digit parts.1.now)) }
{
    let unsigned = without_sign(text);
    match point_of(unsigned) {
        Some(at) => {
            let (whole, decimals) = (&unsigned[..at], &unsigned[at + 1..]);
            if is_digits(whole) && is_digits(decimals) {
                Some((whole, decimals))
            } else {
                None
            }
        }
        None => if is_digits(unsigned) {
            Some((unsigned, &[]))
        } else {
            None
        },
    }
}

// The size of the number that the digits before the point and behind it write, times 10^9.
fn scaled_size(whole: &[u8], decimals: &[u8]) -> i128
    requires whole { IsTrue (list_all is_ascii_digit whole.now) }
    requires whole_width { length whole.now ≤ 28 }
    requires decimals { IsTrue (list_all is_ascii_digit decimals.now) }
    requires decimals_width { length decimals.now ≤ 9 }
    ensures { result ≡ pos (digits_value 10 (whole.now ++ decimals.now) * 10 ^ (9 - length decimals.now)) }
{
    let decimal_unit = 10u128.pow(9 - decimals.len() as u32);
    (value_of(whole) * 1_000_000_000 + value_of(decimals) * decimal_unit) as i128
}
