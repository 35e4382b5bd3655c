//! Names of values that are dropped, since they stood before in the line of their parameter.
use crate::file_lines::FileLines;
use crate::finding::Finding;
use crate::model_source::ModelSource;
use crate::notes::tell_notes;
use crate::shown::Shown;
use crate::table_notes::count_on;
use cov_model::{Param, TestModel};
use model_lex::{Marks, Note, trimmed};
use outside_io::Sink;
use refusal_places::ModelPlaces;
use std::alloc::Global;
use std::str::from_utf8;
use value_text::NoMemory;

// The most bytes of a model file.
const MOST_BYTES: usize = 1 << 22;

// What stands in a line from a column on.
fn text_from(line: &[u8], column: u32) -> &str {
    let Ok(text) = from_utf8(line) else {
        return "";
    };
    let place = column.saturating_sub(1) as usize;
    match text.char_indices().nth(place) {
        Some((start, _)) => text.get(start..).unwrap_or(""),
        None => "",
    }
}

// The name of a value at the start of a text: what stands before the next mark, without blanks.
fn name_in(text: &str, marks: Marks) -> &str {
    let end = text
        .as_bytes()
        .iter()
        .position(|byte| *byte == marks.separator || *byte == marks.alias);
    match end {
        Some(end) => trimmed(text.get(..end).unwrap_or(text)),
        None => trimmed(text),
    }
}

// Writes the warning on a name that an earlier value of a parameter has.
fn warn_of_name<E: Sink>(
    file: &str,
    note: &Note,
    column: u32,
    param: &Param,
    name: &str,
    diag: &mut E,
) {
    let shown = Shown::of(name.as_bytes());
    let mut finding = Finding::on(diag, file);
    finding.place(note.line);
    finding.place(column);
    finding.text(": warning: expected a name that no earlier value of ");
    finding.text(param.name.as_str());
    finding.text(" has, found \"");
    finding.text(shown.text());
    finding.text(shown.end());
    finding.text("\"; it is dropped");
    finding.code(note.code.code());
}

// Writes the warnings on the line of a parameter, whose repeated names stand in these columns.
fn tell_line<E: Sink>(
    file: &str,
    source: &ModelSource,
    param: &Param,
    notes: &[Note],
    columns: &[u32],
    diag: &mut E,
) {
    let line = FileLines::line_at(source.bytes.as_slice(), param.line);
    for (note, column) in notes.iter().zip(columns.iter()) {
        let name = name_in(text_from(line, *column), source.marks);
        warn_of_name(file, note, *column, param, name, diag);
    }
}

// Writes the warnings on the line of a parameter: without columns where they aren't found.
fn tell_param<E: Sink>(
    alloc: Global,
    file: &str,
    source: &ModelSource,
    places: &ModelPlaces<'_>,
    param: &Param,
    notes: &[Note],
    diag: &mut E,
) {
    if notes.is_empty() {
        return;
    }
    match places.repeated_names(alloc, param) {
        Ok(columns) if columns.len() == notes.len() => {
            tell_line(file, source, param, notes, columns.as_slice(), diag);
        }
        _ => tell_notes(file, notes, diag),
    }
}

// The places of a model in its file, which may not have more bytes than a model file may.
fn places_of<'f>(
    alloc: Global,
    source: &'f ModelSource,
    model: &'f TestModel,
) -> Result<ModelPlaces<'f>, NoMemory> {
    if source.bytes.len() > MOST_BYTES {
        return Err(NoMemory);
    }
    ModelPlaces::new(alloc, source.bytes.as_slice(), source.marks, model)
}

/// Writes the warnings on a model file: which names of values are dropped, and where they stand. Where memory is refused,
/// their lines alone.
pub(crate) fn tell_repeated_names<E: Sink>(
    alloc: Global,
    file: &str,
    source: &ModelSource,
    model: &TestModel,
    notes: &[Note],
    diag: &mut E,
) {
    let Ok(places) = places_of(alloc, source, model) else {
        tell_notes(file, notes, diag);
        return;
    };
    let mut rest = notes;
    for param in model.params().as_slice() {
        let count = count_on(rest, param.line.saturating_sub(1) as usize);
        let Some((here, behind)) = rest.split_at_checked(count) else {
            return;
        };
        tell_param(alloc, file, source, &places, param, here, diag);
        rest = behind;
    }
}
