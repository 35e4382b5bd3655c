//! Which literals name a value.
use cov_model::{Literal, Param, Value};
use value_text::{FixedAnswer, Text, read_fixed, same_text};

// Whether a name equals a literal.
fn equals(name: &Text, literal: &Literal, fold: bool) -> bool {
    match literal {
        Literal::Words(text) => same_text(name.as_str(), text.as_str(), fold),
        Literal::Number(number) => match read_fixed(name.as_str()) {
            FixedAnswer::Number(own) => own == *number,
            FixedAnswer::NotNumber | FixedAnswer::TooWide => false,
        },
    }
}

// Whether the first name of a value equals a literal.
fn is_first_named(value: &Value, literal: &Literal, fold: bool) -> bool {
    match value.names.get(0) {
        Some(name) => equals(name, literal, fold),
        None => false,
    }
}

// Whether some name of a value equals a literal.
fn is_named(value: &Value, literal: &Literal, fold: bool) -> bool {
    value
        .names
        .as_slice()
        .iter()
        .any(|name| equals(name, literal, fold))
}

/// The value of which a literal is a later name, where it is no first name of another one.
pub(crate) fn later_named<'a>(
    param: &'a Param,
    literal: &Literal,
    fold: bool,
) -> Option<&'a Value> {
    let values = param.values.as_slice();
    if values
        .iter()
        .any(|value| is_first_named(value, literal, fold))
    {
        return None;
    }
    values.iter().find(|value| is_named(value, literal, fold))
}
