//! What texts spell, how they are ordered, and which patterns they match.

use std::cmp::Ordering;
use std::test::Fail;
use value_text::{FixedAnswer, like, order_text, read_count, read_fixed, same_text};

// Texts, and the number times 10^9 that each spells.
const NUMBERS: &[(&str, i128)] = &[
    ("0", 0),
    ("-0", 0),
    ("+7", 7_000_000_000),
    ("007", 7_000_000_000),
    ("1.5", 1_500_000_000),
    ("1.50", 1_500_000_000),
    ("-0.000000001", -1),
    (
        "9999999999999999999999999999",
        9_999_999_999_999_999_999_999_999_999_000_000_000,
    ),
    (
        "-9999999999999999999999999999.999999999",
        -9_999_999_999_999_999_999_999_999_999_999_999_999,
    ),
];

const NO_NUMBERS: &[&str] = &[
    "", "+", "1.", ".5", "1e3", "1..2", "1.2.3", "+-1", " 1", "1 ", "1,5", "\u{661}",
];

const TOO_WIDE: &[&str] = &[
    "99999999999999999999999999999",
    "-00000000000000000000000000001",
    "1.1234567890",
    "0.0000000000",
];

// The number that a text spells, times 10^9.
fn scaled_of(text: &str) -> Option<i128> {
    match read_fixed(text) {
        FixedAnswer::Number(number) => Some(number.scaled()),
        _ => None,
    }
}

#[test]
fn reads_numbers(rt: HostRuntime) {
    for (text, scaled) in NUMBERS {
        assert!(rt; scaled_of(text) == Some(*scaled), "{text}");
    }
    for text in NO_NUMBERS {
        assert!(rt; read_fixed(text) == FixedAnswer::NotNumber, "{text}");
    }
    for text in TOO_WIDE {
        assert!(rt; read_fixed(text) == FixedAnswer::TooWide, "{text}");
    }
}

// Texts with the least and the most that each may count, and what it counts.
const COUNTS: &[(&str, u64, u64, Option<u64>)] = &[
    ("1", 1, 9, Some(1)),
    ("9", 1, 9, Some(9)),
    ("0", 1, 9, None),
    ("10", 1, 9, None),
    ("007", 7, 7, Some(7)),
    ("000000000000000000007", 0, 7, None),
    ("18446744073709551615", 0, u64::MAX, Some(u64::MAX)),
    ("18446744073709551616", 0, u64::MAX, None),
    ("5", 6, 4, None),
    ("", 0, 9, None),
    ("+7", 0, 9, None),
    ("7 ", 0, 9, None),
];

#[test]
fn reads_counts(rt: HostRuntime) {
    for (text, least, most, count) in COUNTS {
        assert!(rt; read_count(text, *least, *most) == *count, "{text}");
    }
}

// Two texts, whether letters of either case are one, and their order.
const ORDERS: &[(&str, &str, bool, Ordering)] = &[
    ("", "", true, Ordering::Equal),
    ("", "a", false, Ordering::Less),
    ("Abc", "aBC", true, Ordering::Equal),
    ("Abc", "aBC", false, Ordering::Less),
    ("B", "a", true, Ordering::Greater),
    ("B", "a", false, Ordering::Less),
    ("AB", "abc", true, Ordering::Less),
    ("Z", "_", true, Ordering::Greater),
    ("Z", "_", false, Ordering::Less),
    ("É", "é", true, Ordering::Less),
];

#[test]
fn orders_texts(rt: HostRuntime) {
    for (a, b, fold, order) in ORDERS {
        let same = *order == Ordering::Equal;
        assert!(rt; order_text(a, b, *fold) == *order, "{a} and {b}");
        assert!(rt; same_text(a, b, *fold) == same, "{a} and {b}");
    }
}

// A pattern, a text, whether letters of either case are one, and whether they match.
const MATCHES: &[(&str, &str, bool, bool)] = &[
    ("", "", false, true),
    ("", "a", false, false),
    ("*", "", false, true),
    ("?", "", false, false),
    ("a*b*", "AB", true, true),
    ("a*b*", "AB", false, false),
    ("?", "é", false, true),
    ("??", "é", false, false),
    ("É", "é", true, false),
    ("ab", "abc", false, false),
    ("ab", "a", false, false),
    ("*b", "abab", false, true),
    ("*ab*b", "xaab", false, false),
    ("a*b?c*", "a--bb-c", false, true),
    ("*a?c*", "abbaxc", false, true),
    ("a*", "ba", false, false),
    ("*é?", "aéé€", false, true),
];

#[test]
fn matches_patterns(rt: HostRuntime) {
    for (pattern, text, fold, matches) in MATCHES {
        assert!(rt;
            like(pattern, text, *fold) == *matches,
            "{pattern} on {text}"
        );
    }
}

// A search that tries each place for each star would not end.
#[test]
fn matches_many_stars_at_once(rt: HostRuntime) -> Result<(), Fail> {
    let mut pattern = String::new(rt.alloc());
    for _ in 0..30 {
        pattern.push_str("*a")?;
    }
    pattern.push('b')?;
    let mut text = String::new(rt.alloc());
    for _ in 0..2000 {
        text.push('a')?;
    }
    assert!(rt; !like(pattern.as_str(), text.as_str(), true));
    text.push('B')?;
    assert!(rt; like(pattern.as_str(), text.as_str(), true));
    Ok(())
}
