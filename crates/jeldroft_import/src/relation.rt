//! What is wrong with a relation line, as `Name: (First, Second, 2)`.
use crate::declared::kind_above;
use crate::found::Found;
use crate::kind::{are_few_digits, is_name};
use crate::parameter::{cut_name, repeated};
use crate::part::Part;
use crate::pieces::Pieces;

// The most members that are looked at, and the most that are looked up above.
const MOST_MEMBERS: u32 = 1 << 22;

const MOST_LOOKED_UP: u32 = 256;

// The list in parentheses at the end of a text.
fn list_in(text: Part<'_>) -> Option<Part<'_>> {
    let (_, behind) = text.cut(b':');
    let list = behind?.without_first_blanks();
    Some(list.behind(1).up_to(list.text.len().saturating_sub(2)))
}

// The members in a list, and the strength behind them.
fn cut_strength(list: Part<'_>) -> Option<(Part<'_>, Part<'_>)> {
    let behind = list.text.iter().rev().position(|byte| *byte == b',')?;
    let place = list.text.len().saturating_sub(behind.saturating_add(1));
    Some((
        list.up_to(place),
        list.behind(place.saturating_add(1)).trimmed(),
    ))
}

// What is wrong in the list of a relation.
fn no_list<'a>(text: Part<'a>, list: Part<'a>) -> Option<Found<'a>> {
    let Some((members, strength)) = cut_strength(list) else {
        return Some(Found::before(
            list.trimmed(),
            text,
            "parameters and a strength, as \"First, Second, 2\"",
        ));
    };
    let mut pieces = Pieces::of(members);
    for _ in 0..MOST_MEMBERS {
        let Some(piece) = pieces.take() else {
            break;
        };
        if !is_name(piece.text) {
            return Some(Found::before(piece, text, "the name of a parameter"));
        }
    }
    if are_few_digits(strength.text) {
        return None;
    }
    Some(Found::before(strength, text, "the strength, a number of 1 to 9 digits"))
}

/// Why a text isn't a relation line.
pub(crate) fn no_relation(text: Part<'_>) -> Option<Found<'_>> {
    let (name, behind) = cut_name(text);
    if !is_name(name.text) {
        return Some(Found::in_place_of(text, "the name of a relation"));
    }
    if !behind.begins_with(b':') {
        return Some(Found::in_place_of(behind, "\":\""));
    }
    let list = behind.behind(1).without_first_blanks();
    if !list.begins_with(b'(') {
        return Some(Found::in_place_of(list, "\"(\""));
    }
    if !list.text.ends_with(b")") {
        return Some(Found::in_place_of(text.behind(text.text.len()), "\")\" at the end"));
    }
    no_list(text, list_in(text)?)
}

// The first member that no line above declares.
fn unknown_member<'a>(
    bytes: &[u8],
    number: u32,
    members: Part<'a>,
    fold: bool,
) -> Option<Found<'a>> {
    let mut pieces = Pieces::of(members);
    for _ in 0..MOST_LOOKED_UP {
        let piece = pieces.take()?;
        if kind_above(bytes, number, piece.text, fold).is_none() {
            return Some(Found::is(piece, "is no parameter that a line above declares"));
        }
    }
    None
}

/// Which member of a relation line is unknown, or stands twice.
pub(crate) fn bad_member<'a>(
    bytes: &[u8],
    number: u32,
    text: Part<'a>,
    fold: bool,
) -> Option<Found<'a>> {
    let (members, _) = cut_strength(list_in(text)?)?;
    match unknown_member(bytes, number, members, fold) {
        Some(found) => Some(found),
        None => repeated(members, fold, "is a member of this relation twice"),
    }
}

/// The strength of a relation line, which isn't from 1 to the number of its members.
pub(crate) fn bad_strength(text: Part<'_>) -> Option<Found<'_>> {
    let (_, strength) = cut_strength(list_in(text)?)?;
    Some(Found::is(
        strength,
        "is no strength from 1 to the number of the members",
    ))
}
