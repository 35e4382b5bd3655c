//! The parameters that the lines above a line declare.
use crate::kind::{Kind, is_same};
use crate::part::{Part, text_of};
use model_lex::{cut_line, without_mark};

// Whether a text that begins with `[` is the header of the parameters.
fn is_header_of_parameters(text: &[u8]) -> bool {
    text.eq_ignore_ascii_case(b"[Parameter]")
}

// The type of the parameter that a line declares, if it has this name.
fn kind_in(text: Part<'_>, name: &[u8], fold: bool) -> Option<Kind> {
    let (declared, behind) = text.cut(b'(');
    if !is_same(declared.trimmed().text, name, fold) {
        return None;
    }
    let (kind, _) = behind?.cut(b')');
    Kind::of(kind.trimmed().text)
}

/// The type of the parameter of a name, where a line above this one declares it.
pub(crate) fn kind_above(bytes: &[u8], number: u32, name: &[u8], fold: bool) -> Option<Kind> {
    let mut rest = without_mark(bytes);
    let mut declares = false;
    for _ in 1..number {
        if rest.is_empty() {
            return None;
        }
        let (line, behind) = cut_line(rest);
        rest = behind;
        let text = text_of(line);
        if text.begins_with(b'[') {
            declares = is_header_of_parameters(text.text);
        } else if declares {
            if let Some(kind) = kind_in(text, name, fold) {
                return Some(kind);
            }
        }
    }
    None
}
