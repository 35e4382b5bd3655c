ghost use Rattle.std.specs.Prelude.{◌≡◌, ◌==◌, ◌<◌, ◌≤◌, ◌-◌, ◌^◌, ◌&&◌, not, [], ◌∷◌, true, MatchOption, nat_lt};
ghost use Rattle.std.specs.Char.{is_ascii_digit};
ghost use Rattle.std.specs.List.{list_all};
ghost use Rattle.std.specs.Str.Parse.{digits_value};
ghost use Rattle.definitions.specs.believed.ProofText.{number_where};
ghost use Rattle.refutation.specs.Reading.{is_numeral};

// Whether each byte is a digit.
fn are_digits(text: &[u8]) -> bool
    ensures { result ≡ list_all is_ascii_digit text.now }
{
    text.iter().all(|byte| byte.is_ascii_digit())
}

// Whether a text is a number in decimal, without a leading zero.
fn is_numeral(text: &[u8]) -> bool
    ensures { result ≡ is_numeral text.now }
{
    match text {
        [] | [b'0', _, ..] => false,
        _ => are_digits(text),
    }
}

// The number that digits write, where it has no more than 32 bits.
fn value_of(digits: &[u8]) -> Option<u32>
    requires { list_all is_ascii_digit digits.now ≡ true }
    ensures { MatchOption result (2 ^ 32 ≤ digits_value 10 digits.now) (λ value. value ≡ digits_value 10 digits.now) }
{
    let mut value: u64 = 0;
    for digit in digits {
        value = value * 10 + u64::from(*digit - b'0');
        if value > u64::from(u32::MAX) {
            return None;
        }
    }
    Some(value as u32)
}

// The same as of `read_number`, of a text of any length.
fn read_long(text: &[u8]) -> Option<u32>
    ensures { result ≡ number_where (λ n. nat_lt n (2 ^ 32)) text.now }
{
    if !is_numeral(text) {
        return None;
    }
    value_of(text)
}

// The number that a digit writes.
fn digit_value(byte: u8) -> u32
    requires { is_ascii_digit byte ≡ true }
    ensures value { result ≡ byte - 48 }
    ensures small { result < 10 }
{
    u32::from(byte - b'0')
}

// The number that a text of one byte spells.
fn read_one(byte: u8) -> Option<u32>
    ensures { result ≡ number_where (λ n. nat_lt n (2 ^ 32)) (byte ∷ []) }
{
    if byte.is_ascii_digit() {
        Some(digit_value(byte))
    } else {
        None
    }
}

// Whether two bytes are digits, and the first is no zero.
fn are_two_digits(first: u8, last: u8) -> bool
    ensures { result ≡ (not (first == 48) && is_ascii_digit first && is_ascii_digit last) }
{
    first != b'0' && first.is_ascii_digit() && last.is_ascii_digit()
}

// The number that a text of two bytes spells.
fn read_two(first: u8, last: u8) -> Option<u32>
    ensures { result ≡ number_where (λ n. nat_lt n (2 ^ 32)) (first ∷ last ∷ []) }
{
    if are_two_digits(first, last) {
        Some(digit_value(first) * 10 + digit_value(last))
    } else {
        None
    }
}

// The number that a text spells in decimal without leading zeros, where it has no more than 32 bits. Most have one
// digit or two, and are read without a loop.
pub(crate) fn read_number(text: &[u8]) -> Option<u32>
    ensures { result ≡ number_where (λ n. nat_lt n (2 ^ 32)) text.now }
{
    match text {
        [only] => read_one(*only),
        [first, last] => read_two(*first, *last),
        _ => read_long(text),
    }
}
