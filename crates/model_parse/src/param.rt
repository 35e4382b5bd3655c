//! Reading parameter lines.
ghost use Rattle.std.specs.Prelude.{◌≡◌, ◌<◌, ◌≤◌, ◌++◌, ◌∷◌, [], false, map, length, IfOk, OnOk};
ghost use Rattle.std.specs.List.{list_all};
ghost use Rattle.value_text.specs.believed.Numbers.{is_number};
ghost use Rattle.value_text.specs.believed.Texts.{folded};
ghost use Rattle.cov_model.specs.believed.Sound.{first_name, is_numeric};
ghost use Rattle.model_lex.specs.Sections.{line_seen};
ghost use Rattle.model_parse.specs.Rules.{Gives};
ghost use Rattle.model_parse.specs.Steps.{and_each};
ghost use Rattle.model_parse.specs.ValueSteps.{is_known, add_piece};
ghost use Rattle.model_parse.specs.ParamSteps.{Counts, IsOneMore, param_code, read_values, add_param, read_param, read_params, no_params};

use crate::cut::{cut_colon, is_unfit, pieces};
use crate::fault::bad;
use crate::name_set::NameSet;
use crate::piece::add_piece;
use crate::reading::{ParamsRead, Reading};
use cov_model::{Param, ParamList, Value, ValueList};
use model_lex::{DiagCode, LimitName, ModelFault, ModelOpts, NoteList, NumLine, trimmed};
use std::alloc::Global;
use std::mem;
use value_text::{FixedAnswer, NoMemory, OwnedList, Text, read_fixed};

// Why a parameter may not be called so, behind parameters with these names.
fn param_code(
    alloc: Global,
    known: &NameSet,
    name: &str,
    fold: bool,
) -> Result<Option<DiagCode>, NoMemory>
    ensures { IfOk result (λ code. code ≡ param_code fold known.now name.now) }
{
    if name.is_empty() {
        return Ok(Some(DiagCode::EmptyParameterName));
    }
    if is_unfit(name) {
        return Ok(Some(DiagCode::BadParameterName));
    }
    if known.holds(alloc, name, fold)? {
        Ok(Some(DiagCode::RepeatedParameter))
    } else {
        Ok(None)
    }
}

// Reads the pieces of a list of values, one after another.
fn add_pieces(
    alloc: Global,
    opts: &ModelOpts,
    line: u32,
    params: &[Param],
    known: &NameSet,
    read: &mut Reading,
    pieces: &[&str],
) -> Result<(), ModelFault>
    requires alias { opts.now.marks.alias < 128 }
    requires prefix { opts.now.marks.prefix < 128 }
    requires numbered { length known.now ≤ length params.now }
    ensures { Gives (and_each (add_piece opts.now line params.now known.now) read.old (map (λ piece. piece.now) pieces.now)) (λ done. read.new) result }
{
    for piece in pieces {
        add_piece(alloc, opts, line, params, known, read, piece)?;
    }
    Ok(())
}

// The values of a list of values, with the notes so far.
fn read_values(
    alloc: Global,
    opts: &ModelOpts,
    line: u32,
    params: &[Param],
    known: &NameSet,
    notes: NoteList,
    list: &str,
) -> Result<Reading, ModelFault>
    requires separator { opts.now.marks.separator < 128 }
    requires alias { opts.now.marks.alias < 128 }
    requires prefix { opts.now.marks.prefix < 128 }
    requires numbered { length known.now ≤ length params.now }
    ensures { Gives (read_values opts.now line params.now known.now notes list.now) (λ next. next) result }
{
    let pieces = pieces(alloc, list, opts.marks.separator)?;
    let mut read = Reading {
        values: OwnedList::new(alloc),
        known: NameSet::new(alloc),
        notes,
    };
    add_pieces(
        alloc,
        opts,
        line,
        params,
        known,
        &mut read,
        pieces.as_slice(),
    )?;
    Ok(read)
}

// Whether the first name of each value is a number.
fn is_numeric(values: &[Value]) -> bool
    ensures { result ≡ is_numeric values.now }
{
    values.iter().all(has_number)
}

// Whether the first name of a value is a number.
fn has_number(value: &Value) -> bool
    ensures { result ≡ is_number (first_name value.now) }
{
    match value.names.as_slice() {
        [first, ..] => matches!(read_fixed(first.as_str()), FixedAnswer::Number(_)),
        [] => false,
    }
}

// Adds a parameter of this name with these values, and its name to those that are known.
fn push_param(
    alloc: Global,
    fold: bool,
    line: u32,
    name: &str,
    values: ValueList,
    params: &mut ParamList,
    known: &mut NameSet,
) -> Result<(), NoMemory>
    requires { is_known fold known.old name.now ≡ false }
    ensures params { OnOk result (params.new ≡ params.old ++ record { name = name.now; line = line; numeric = is_numeric values; values = values } ∷ []) }
    ensures known { OnOk result (known.new ≡ known.old ++ folded fold name.now ∷ []) }
{
    known.add(alloc, name, fold)?;
    let numeric = is_numeric(values.as_slice());
    params.push(Param {
        name: Text::copy(alloc, name)?,
        line,
        numeric,
        values,
    })
}

// Adds a parameter of this name with the values of its line, unless these are too many. The notes
// of the line hold those of the lines before.
fn add_param(
    alloc: Global,
    fold: bool,
    line: u32,
    name: &str,
    read: &mut ParamsRead,
    on_line: Reading,
) -> Result<(), ModelFault>
    requires { is_known fold read.old.known name.now ≡ false }
    ensures value { Gives (add_param fold line name.now read.old.params read.old.known on_line) (λ done. read.new) result }
    ensures more { OnOk result (IsOneMore (length read.old.params) (length read.old.known) (length read.new.params) (length read.new.known)) }
{
    let Reading {
        values,
        notes,
        known: _,
    } = on_line;
    let count = values.len() as u64;
    if count > LimitName::Values.most() {
        return Err(ModelFault::Limit(LimitName::Values, count));
    }
    push_param(
        alloc,
        fold,
        line,
        name,
        values,
        &mut read.params,
        &mut read.known,
    )?;
    read.notes = notes;
    Ok(())
}

// Reads a parameter line behind what is read of the lines before it.
fn read_param(
    alloc: Global,
    opts: &ModelOpts,
    read: &mut ParamsRead,
    line: NumLine<'_>,
) -> Result<(), ModelFault>
    requires separator { opts.now.marks.separator < 128 }
    requires alias { opts.now.marks.alias < 128 }
    requires prefix { opts.now.marks.prefix < 128 }
    requires numbered { length read.old.known ≤ length read.old.params }
    ensures value { Gives (read_param opts.now read.old (line_seen line.entry)) (λ done. read.new) result }
    ensures more { OnOk result (IsOneMore (length read.old.params) (length read.old.known) (length read.new.params) (length read.new.known)) }
{
    let (name, list) = cut_colon(line.text);
    let name = trimmed(name);
    if let Some(code) = param_code(alloc, &read.known, name, opts.fold)? {
        return Err(bad(line.line, code));
    }
    // The notes so far go along with the values of the line, and come back with them.
    let notes = mem::replace(&mut read.notes, OwnedList::new(alloc));
    let on_line = read_values(
        alloc,
        opts,
        line.line,
        read.params.as_slice(),
        &read.known,
        notes,
        list,
    )?;
    add_param(alloc, opts.fold, line.line, name, read, on_line)
}

// The parameters of these lines, one after another.
fn read_lines(
    alloc: Global,
    opts: &ModelOpts,
    lines: &[NumLine<'_>],
) -> Result<ParamsRead, ModelFault>
    requires separator { opts.now.marks.separator < 128 }
    requires alias { opts.now.marks.alias < 128 }
    requires prefix { opts.now.marks.prefix < 128 }
    ensures value { Gives (and_each (read_param opts.now) no_params (map line_seen lines.now)) (λ next. next) result }
    ensures count { IfOk result (λ read. Counts read (length lines.now)) }
{
    let mut read = ParamsRead {
        params: OwnedList::new(alloc),
        known: NameSet::new(alloc),
        notes: OwnedList::new(alloc),
    };
    for line in lines {
        read_param(alloc, opts, &mut read, *line)?;
    }
    Ok(read)
}

/// The parameters of all parameter lines.
pub(crate) fn read_params(
    alloc: Global,
    opts: &ModelOpts,
    lines: &[NumLine<'_>],
) -> Result<ParamsRead, ModelFault>
    requires separator { opts.now.marks.separator < 128 }
    requires alias { opts.now.marks.alias < 128 }
    requires prefix { opts.now.marks.prefix < 128 }
    ensures value { Gives (read_params opts.now (map line_seen lines.now)) (λ next. next) result }
    ensures count { IfOk result (λ read. Counts read (length lines.now)) }
    ensures some { OnOk result (0 < length lines.now) }
    ensures few { OnOk result (length lines.now ≤ 256) }
{
    if lines.is_empty() {
        return Err(bad(1, DiagCode::NoParameters));
    }
    let count = lines.len() as u64;
    if count > LimitName::Params.most() {
        return Err(ModelFault::Limit(LimitName::Params, count));
    }
    read_lines(alloc, opts, lines)
}
