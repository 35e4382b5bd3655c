//! What is wrong with a parameter line, as `Name (enum): red, green`.
use crate::declared::kind_above;
use crate::found::Found;
use crate::kind::{Kind, is_name, is_same, is_word_byte};
use crate::part::Part;
use crate::pieces::Pieces;

// The most values that are looked at, and the most that are compared with each other.
const MOST_VALUES: u32 = 1 << 22;

const MOST_COMPARED: usize = 256;

/// The name at the start of a text, and what stands behind it.
pub(crate) fn cut_name(text: Part<'_>) -> (Part<'_>, Part<'_>) {
    let end = text.text.iter().position(|byte| !is_word_byte(*byte));
    let len = end.unwrap_or(text.text.len());
    (text.up_to(len), text.behind(len).without_first_blanks())
}

// The first of some parts that is no value of a type.
fn no_value<'a>(text: Part<'a>, values: Part<'a>, kind: Kind) -> Option<Found<'a>> {
    let mut pieces = Pieces::of(values);
    for _ in 0..MOST_VALUES {
        let piece = pieces.take()?;
        if !kind.has_value(piece.text) {
            return Some(Found::before(piece, text, kind.value()));
        }
    }
    None
}

// What is wrong behind the name of a parameter.
fn no_type<'a>(text: Part<'a>, behind: Part<'a>) -> Option<Found<'a>> {
    if !behind.begins_with(b'(') {
        return Some(Found::in_place_of(behind, "the type in parentheses, as \"(enum)\""));
    }
    let (word, behind) = behind.behind(1).cut(b')');
    let word = word.trimmed();
    let Some(kind) = Kind::of(word.text) else {
        return Some(Found::before(word, text, "the type int, enum or boolean"));
    };
    let Some(behind) = behind else {
        return Some(Found::in_place_of(text.behind(text.text.len()), "\")\""));
    };
    let behind = behind.without_first_blanks();
    if !behind.begins_with(b':') {
        return Some(Found::in_place_of(behind, "\":\" and the values"));
    }
    no_value(text, behind.behind(1), kind)
}

/// Why a text isn't a parameter line.
pub(crate) fn no_parameter(text: Part<'_>) -> Option<Found<'_>> {
    let (name, behind) = cut_name(text);
    if !is_name(name.text) {
        return Some(Found::in_place_of(text, "the name of a parameter"));
    }
    no_type(text, behind)
}

// Whether a part is one of those that are taken before it.
fn is_repeated(values: Part<'_>, place: usize, value: Part<'_>, fold: bool) -> bool {
    let mut pieces = Pieces::of(values);
    for _ in 0..place {
        match pieces.take() {
            Some(piece) if is_same(piece.text, value.text, fold) => return true,
            Some(_) => {}
            None => return false,
        }
    }
    false
}

/// The first of some parts between commas that is the same as an earlier one.
pub(crate) fn repeated<'a>(list: Part<'a>, fold: bool, words: &'static str) -> Option<Found<'a>> {
    let mut pieces = Pieces::of(list);
    for place in 0..MOST_COMPARED {
        let piece = pieces.take()?;
        if is_repeated(list, place, piece, fold) {
            return Some(Found::is(piece, words));
        }
    }
    None
}

/// Which name or value of a parameter line was declared before.
pub(crate) fn declared_again<'a>(
    bytes: &[u8],
    number: u32,
    text: Part<'a>,
    fold: bool,
) -> Option<Found<'a>> {
    let (name, behind) = cut_name(text);
    if kind_above(bytes, number, name.text, fold).is_some() {
        return Some(Found::is(
            name,
            "is the name of a parameter that a line above declares",
        ));
    }
    let (word, behind) = behind.behind(1).cut(b')');
    let (_, values) = behind?.cut(b':');
    let is_truth = Kind::of(word.trimmed().text) == Some(Kind::Boolean);
    repeated(
        values?,
        fold || is_truth,
        "is a value that stands before in this line",
    )
}
