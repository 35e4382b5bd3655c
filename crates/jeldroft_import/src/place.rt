//! Where a line is refused, what stands there, and what is wrong with it. Nothing here takes memory.
use crate::constraint::{no_constraint, types_differ, unknown_parameter};
use crate::found::Found;
use crate::parameter::{declared_again, no_parameter};
use crate::part::{Part, text_of};
use crate::relation::{bad_member, bad_strength, no_relation};
use acts_front::ActsCode;

/// What was found in a line that is refused by a code; nothing where it is on no line, or can't be told more exactly.
pub(crate) fn found_in<'a>(
    bytes: &[u8],
    line: &'a [u8],
    number: u32,
    code: ActsCode,
    fold: bool,
) -> Option<Found<'a>> {
    let text = text_of(line);
    match code {
        ActsCode::A1 | ActsCode::A8 => None,
        ActsCode::A2 => Some(Found::in_place_of(
            text,
            "one of the headers [System], [Parameter], [Relation] and [Constraint], in this order",
        )),
        ActsCode::A3 => no_parameter(text),
        ActsCode::A4 => declared_again(bytes, number, text, fold),
        ActsCode::A5 => no_relation(text),
        ActsCode::A6 => bad_member(bytes, number, text, fold),
        ActsCode::A7 => bad_strength(text),
        ActsCode::A9 => no_constraint(text),
        ActsCode::A10 => unknown_parameter(bytes, number, text, fold),
        ActsCode::A11 => types_differ(bytes, number, text, fold),
    }
}
