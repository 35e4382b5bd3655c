//! Reading the pieces of a parameter line, each of which stands for values.
ghost use Rattle.std.specs.Prelude.{◌≡◌, ◌<◌, ◌^◌, ◌∷◌, [], ◌≤◌, Some, None, Ok, Err, true, false, map, min, length, MatchOption, IfOk, OnOk, IsTrue, slice_index_or};
ghost use Rattle.std.specs.Char.{is_ascii_digit};
ghost use Rattle.std.specs.List.{list_all};
ghost use Rattle.std.specs.Str.Parse.{digits_value};
ghost use Rattle.value_text.specs.believed.Numbers.{is_digits};
ghost use Rattle.cov_model.specs.believed.Sound.{param_at};
ghost use Rattle.model_parse.specs.believed.Pieces.{begins_with};
ghost use Rattle.model_parse.specs.Rules.{Gives};
ghost use Rattle.model_parse.specs.Steps.{and_each, and_then, refused_or};
ghost use Rattle.model_parse.specs.believed.Values.{has_weight, weight_of, weight_text, names_text, without_prefix, names_of, value_of, name_code, piece_code, is_reference, referred};
ghost use Rattle.model_parse.specs.ValueSteps.{names_code, is_known, place_of, piece_values, keep_name, keep_names, add_value, add_piece};

use crate::cut::{before_mark, begins_with, behind_mark, cut_last, is_unfit, pieces};
use crate::fault::bad;
use crate::name_set::NameSet;
use crate::reading::Reading;
use cov_model::{Param, Value};
use model_lex::{
    DiagCode, LimitName, Marks, ModelFault, ModelOpts, Note, NoteCode, NoteList, trimmed,
};
use std::alloc::Global;
use value_text::{NoMemory, OwnedList, Text, TextList};

// The least number that is no weight any more.
const WEIGHT_END: u64 = 1 << 32;

// Whether a text is one or more digits.
#[tactic(auto, using(value_text::proofs::DigitLemmas::is_digits_nonempty))]
fn is_digits(text: &[u8]) -> bool
    ensures { result ≡ is_digits text.now }
{
    !text.is_empty() && are_digits(text)
}

// Whether each byte is a digit.
fn are_digits(text: &[u8]) -> bool
    ensures { result ≡ list_all is_ascii_digit text.now }
{
    text.iter().all(|byte| byte.is_ascii_digit())
}

// The number that digits write, or `WEIGHT_END` where that is less.
fn weight_value(digits: &[u8]) -> u64
    requires { IsTrue (list_all is_ascii_digit digits.now) }
    ensures { result ≡ min WEIGHT_END (digits_value 10 digits.now) }
{
    let mut value = 0;
    for digit in digits {
        value = (value * 10 + u64::from(*digit - b'0')).min(WEIGHT_END);
    }
    value
}

// The names of a piece before its weight, and the digits of the weight; `None` exactly where the
// piece has no weight.
fn cut_weight(piece: &str) -> Option<(&str, &str)>
    ensures { MatchOption result (has_weight piece.now ≡ false) (λ parts. (has_weight piece.now ≡ true) × (parts.0.now ≡ names_text piece.now) × (parts.1.now ≡ weight_text piece.now)) }
{
    let body = before_mark(piece, b')')?;
    let (names, inside) = cut_last(body, b'(')?;
    let digits = trimmed(inside);
    if is_digits(digits.as_bytes()) {
        Some((names, digits))
    } else {
        None
    }
}

// The names of a piece, and its weight, or `WEIGHT_END` where that is less.
fn read_weight(piece: &str) -> (&str, u64)
    ensures names { result.0.now ≡ names_text piece.now }
    ensures weight { result.1 ≡ min WEIGHT_END (weight_of piece.now) }
{
    match cut_weight(piece) {
        Some((names, digits)) => (names, weight_value(digits.as_bytes())),
        None => (piece, 1),
    }
}

// A part without one mark of negative values at its start.
fn without_prefix(part: &str, prefix: u8) -> &str
    requires { prefix < 128 }
    ensures { result.now ≡ without_prefix prefix part.now }
{
    match behind_mark(part, prefix) {
        Some(rest) => trimmed(rest),
        None => part,
    }
}

// The parts without one mark of negative values at the start of each.
fn without_prefixes<'a>(
    alloc: Global,
    parts: &[&'a str],
    prefix: u8,
) -> Result<OwnedList<&'a str>, NoMemory>
    requires { prefix < 128 }
    ensures { IfOk result (λ names. map (λ name. name.now) names ≡ map (without_prefix prefix) (map (λ part. part.now) parts.now)) }
{
    let mut names = OwnedList::new(alloc);
    for part in parts {
        names.push(without_prefix(part, prefix))?;
    }
    Ok(names)
}

// Why a value may not be called so.
fn name_code(name: &str, prefix: u8) -> Option<DiagCode>
    ensures { result ≡ name_code prefix name.now }
{
    if name.is_empty() {
        Some(DiagCode::EmptyValueName)
    } else if begins_with(name, prefix) || is_unfit(name) {
        Some(DiagCode::BadValueName)
    } else {
        None
    }
}

// Why a value may not have these names: the first reason.
fn names_code(names: &[&str], prefix: u8) -> Option<DiagCode>
    ensures { result ≡ names_code prefix (map (λ name. name.now) names.now) }
{
    for name in names {
        let code = name_code(name, prefix);
        if code.is_some() {
            return code;
        }
    }
    None
}

// A name that is kept unless it is known, and otherwise noted.
fn keep_name(
    alloc: Global,
    fold: bool,
    line: u32,
    name: &str,
    own: &mut TextList,
    known: &mut NameSet,
    notes: &mut NoteList,
) -> Result<(), NoMemory>
    ensures { OnOk result (keep_name fold line (record { names = own.old; known = known.old; notes = notes.old }) name.now ≡ record { names = own.new; known = known.new; notes = notes.new }) }
{
    if known.holds(alloc, name, fold)? {
        let code = NoteCode::RepeatedValueName;
        return notes.push(Note { line, code });
    }
    known.add(alloc, name, fold)?;
    own.push(Text::copy(alloc, name)?)
}

// The names that are kept of a value's.
fn keep_names(
    alloc: Global,
    fold: bool,
    line: u32,
    names: &[&str],
    known: &mut NameSet,
    notes: &mut NoteList,
) -> Result<TextList, NoMemory>
    ensures { IfOk result (λ own. keep_names fold line (record { names = []; known = known.old; notes = notes.old }) (map (λ name. name.now) names.now)
        ≡ record { names = own; known = known.new; notes = notes.new }) }
{
    let mut own = OwnedList::new(alloc);
    for name in names {
        keep_name(alloc, fold, line, name, &mut own, known, notes)?;
    }
    Ok(own)
}

// Adds a value of these names without those that are known, unless none is left; refused where too
// many are left.
fn add_value(
    alloc: Global,
    fold: bool,
    line: u32,
    read: &mut Reading,
    names: &[&str],
    weight: u32,
    negative: bool,
) -> Result<(), ModelFault>
    ensures { Gives (add_value fold line read.old (record { names = map (λ name. name.now) names.now; weight = weight; negative = negative })) (λ done. read.new) result }
{
    let names = keep_names(alloc, fold, line, names, &mut read.known, &mut read.notes)?;
    let count = names.len() as u64;
    if count > LimitName::Names.most() {
        return Err(ModelFault::Limit(LimitName::Names, count));
    }
    if count > 0 {
        read.values.push(Value {
            names,
            weight,
            negative,
        })?;
    }
    Ok(())
}

// Adds a copy of a value, as a reference asks for it: its names are kept or noted like written ones.
fn add_copy(
    alloc: Global,
    fold: bool,
    line: u32,
    read: &mut Reading,
    value: &Value,
) -> Result<(), ModelFault>
    ensures { Gives (add_value fold line read.old value.now) (λ done. read.new) result }
{
    let names = borrowed(alloc, value.names.as_slice())?;
    add_value(
        alloc,
        fold,
        line,
        read,
        names.as_slice(),
        value.weight,
        value.negative,
    )
}

// The texts, borrowed.
fn borrowed(alloc: Global, texts: &[Text]) -> Result<OwnedList<&str>, NoMemory>
    ensures { IfOk result (λ names. map (λ name. name.now) names ≡ texts.now) }
{
    let mut names = OwnedList::new(alloc);
    for text in texts {
        names.push(text.as_str())?;
    }
    Ok(names)
}

// Adds copies of these values, one after another.
fn add_copies(
    alloc: Global,
    fold: bool,
    line: u32,
    read: &mut Reading,
    values: &[Value],
) -> Result<(), ModelFault>
    ensures { Gives (and_each (add_value fold line) read.old values.now) (λ done. read.new) result }
{
    for value in values {
        add_copy(alloc, fold, line, read, value)?;
    }
    Ok(())
}

// Adds the value that a piece spells.
fn add_spelled(
    alloc: Global,
    opts: &ModelOpts,
    line: u32,
    read: &mut Reading,
    piece: &str,
) -> Result<(), ModelFault>
    requires alias { opts.now.marks.alias < 128 }
    requires prefix { opts.now.marks.prefix < 128 }
    ensures { Gives (and_then (refused_or line (piece_code opts.now.marks piece.now) (Ok (value_of opts.now.marks piece.now))) (add_value opts.now.fold line read.old)) (λ done. read.new) result }
{
    let prefix = opts.marks.prefix;
    let (text, weight) = read_weight(piece);
    if weight == 0 || weight >= WEIGHT_END {
        return Err(bad(line, DiagCode::BadWeight));
    }
    let parts = pieces(alloc, text, opts.marks.alias)?;
    let names = without_prefixes(alloc, parts.as_slice(), prefix)?;
    if let Some(code) = names_code(names.as_slice(), prefix) {
        return Err(bad(line, code));
    }
    let negative = is_negative(parts.as_slice(), prefix);
    add_value(
        alloc,
        opts.fold,
        line,
        read,
        names.as_slice(),
        weight as u32,
        negative,
    )
}

// Whether the first part begins with the mark of negative values.
fn is_negative(parts: &[&str], prefix: u8) -> bool
    ensures { result ≡ begins_with prefix (slice_index_or (map (λ part. part.now) parts.now) 0 []) }
{
    match parts {
        [first, ..] => begins_with(first, prefix),
        [] => false,
    }
}

// The name between the angle brackets of a reference; `None` exactly where a piece is none.
fn referred(piece: &str) -> Option<&str>
    ensures { MatchOption result (is_reference piece.now ≡ false) (λ name. (is_reference piece.now ≡ true) × (name.now ≡ referred piece.now)) }
{
    if piece.len() < 2 {
        return None;
    }
    let body = before_mark(piece, b'>')?;
    Some(trimmed(behind_mark(body, b'<')?))
}

/// Adds what a piece of a parameter line stands for, behind parameters with these names: one value, or
/// copies of those of the parameter to which it refers.
pub(crate) fn add_piece(
    alloc: Global,
    opts: &ModelOpts,
    line: u32,
    params: &[Param],
    known: &NameSet,
    read: &mut Reading,
    piece: &str,
) -> Result<(), ModelFault>
    requires alias { opts.now.marks.alias < 128 }
    requires prefix { opts.now.marks.prefix < 128 }
    requires numbered { length known.now ≤ length params.now }
    ensures { Gives (add_piece opts.now line params.now known.now read.old piece.now) (λ done. read.new) result }
{
    let Some(name) = referred(piece) else {
        return add_spelled(alloc, opts, line, read, piece);
    };
    match known.place(alloc, name, opts.fold)? {
        Some(p) => add_copies(alloc, opts.fold, line, read, params[p].values.as_slice()),
        None => Err(bad(line, DiagCode::UnknownReference)),
    }
}
