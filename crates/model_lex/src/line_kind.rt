ghost use Rattle.std.specs.Prelude.{◌≡◌, ◌≤◌, length};
ghost use Rattle.std.specs.List.{list_any};
ghost use Rattle.model_lex.specs.believed.Sections.{goes_on, has_colon, is_word_among, is_ignored, is_opening_mark, kind_of, misplaced, opening_len, opening_words, opens_group, opens_rule};

use crate::bytes::{first_word, is_word, without_first_blanks};
use crate::diag::DiagCode;

/// What a line is that isn't ignored (PICT's guide; ACTS guide for relations).
#[derive(Debug, Drop, Clone, Copy, PartialEq, Eq)]
pub enum LineKind {
    /// It declares a parameter.
    Param,
    /// It gives a sub-model or a relation.
    Group,
    /// It belongs to a constraint.
    Rule,
}

/// Whether a line is ignored: it has blanks alone, or is a comment.
#[tactic(auto, using(crate::proofs::Runs::all_blank_is))]
pub fn is_ignored(text: &[u8]) -> bool
    ensures { result ≡ is_ignored text.now }
{
    let rest = without_first_blanks(text);
    rest.is_empty() || rest[0] == b'#'
}

/// What a line that isn't ignored is, behind a line of a kind.
pub fn kind_of(before: LineKind, text: &[u8]) -> LineKind
    ensures { result ≡ kind_of before text.now }
{
    if matches!(before, LineKind::Rule) || opens_rule(text) {
        LineKind::Rule
    } else if opens_group(text) {
        LineKind::Group
    } else {
        LineKind::Param
    }
}

/// Why a line of a kind is refused behind a line of another kind, where it is.
pub fn misplaced(before: LineKind, kind: LineKind, text: &[u8]) -> Option<DiagCode>
    ensures { result ≡ misplaced before kind text.now }
{
    match (before, kind) {
        (LineKind::Group, LineKind::Param) => Some(DiagCode::LateParameter),
        (LineKind::Param, LineKind::Param) if !has_colon(text) => Some(DiagCode::NoColon),
        _ => None,
    }
}

// Whether a colon stands in a line.
fn has_colon(text: &[u8]) -> bool
    ensures { result ≡ has_colon text.now }
{
    text.iter().any(|byte| *byte == b':')
}

// Whether a line is a group.
fn opens_group(text: &[u8]) -> bool
    ensures { result ≡ opens_group text.now }
{
    matches!(without_first_blanks(text), [b'{' | b'@', ..])
}

// Whether a line opens a constraint.
#[tactic(auto, using(crate::proofs::Runs::all_blank_is, crate::proofs::Opening::goes_on_blanks))]
fn opens_rule(text: &[u8]) -> bool
    ensures { result ≡ opens_rule text.now }
{
    let rest = without_first_blanks(text);
    !rest.is_empty() && goes_on(rest)
}

// Whether opening words alone are left, or opening words before an opening mark.
fn goes_on(text: &[u8]) -> bool
    ensures { result ≡ goes_on 0 text.now }
{
    let mut rest = without_first_blanks(text);
    while !rest.is_empty() {
        if is_opening_mark(rest[0]) {
            return true;
        }
        let len = opening_len(rest);
        if len == 0 {
            return false;
        }
        rest = without_first_blanks(&rest[len..]);
    }
    true
}

// Whether a byte is `[` or `(`.
fn is_opening_mark(byte: u8) -> bool
    ensures { result ≡ is_opening_mark byte }
{
    byte == b'[' || byte == b'('
}

// How long the opening word at the start of a text is; 0 where none stands there.
fn opening_len(text: &[u8]) -> usize
    ensures value { result ≡ opening_len text.now }
    ensures within { result ≤ length text.now }
{
    let word = first_word(text);
    if is_opening_word(word) { word.len() } else { 0 }
}

// Whether a word may open a constraint.
fn is_opening_word(word: &[u8]) -> bool
    ensures { result ≡ is_word_among opening_words word.now }
{
    is_word(b"IF", word)
        || is_word(b"NOT", word)
        || is_word(b"ISNEGATIVE", word)
        || is_word(b"ISPOSITIVE", word)
}
