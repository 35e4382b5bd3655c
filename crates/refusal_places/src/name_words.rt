//! Messages of names that no parameter has.
ghost use Rattle.std.specs.Prelude.{◌≤◌, ◌^◌, length};
ghost use Rattle.model_parse.specs.RawModels.{AreOpts};

use crate::file_lines::line_span;
use crate::near_name::nearest_param;
use crate::shown::{quoted, text_of};
use crate::span::Span;
use crate::tokens::constraints_head;
use crate::trial::model_of;
use model_lex::ModelOpts;
use std::alloc::Global;
use value_text::NoMemory;

// What stands round a name.
#[derive(Clone, Copy)]
struct NameMarks {
    open: &'static str,
    close: &'static str,
}

// A name of a parameter line or of a group.
const BARE: NameMarks = NameMarks {
    open: "",
    close: "",
};

// A name of a constraint.
const BRACKETS: NameMarks = NameMarks {
    open: "[",
    close: "]",
};

// A message with a name that may be meant, where there is one.
fn with_name(
    alloc: Global,
    message: &str,
    near: Option<&str>,
    marks: NameMarks,
) -> Result<String, NoMemory> {
    let NameMarks { open, close } = marks;
    match near {
        Some(name) => Ok(format!(in alloc; "{message}; did you mean {open}{name}{close}?")?),
        None => Ok(String::from_str(alloc, message)?),
    }
}

// A message with the name of a parameter of these lines that may be meant by another, where there is one.
fn with_param(
    alloc: Global,
    lines: &[u8],
    opts: &ModelOpts,
    message: &str,
    name: &str,
    marks: NameMarks,
) -> Result<String, NoMemory>
    requires { AreOpts opts.now }
{
    match model_of(alloc, lines, opts)? {
        Some(model) => {
            let near = nearest_param(alloc, name, &model)?;
            with_name(alloc, message, near, marks)
        }
        None => with_name(alloc, message, None, marks),
    }
}

// The lines of a file before that of a part.
fn lines_before(file: &[u8], part: Span) -> &[u8] {
    &file[..line_span(file, part.line).from]
}

/// The message of a reference to no earlier parameter; `None` where it has no name.
pub(crate) fn reference_message(
    alloc: Global,
    file: &[u8],
    opts: &ModelOpts,
    part: Span,
) -> Result<Option<String>, NoMemory>
    requires { AreOpts opts.now }
{
    let name = text_of(alloc, file, part.inside(file))?;
    if name.is_empty() {
        return Ok(None);
    }
    let message = format!(in alloc; "no earlier parameter is named {name}")?;
    let lines = lines_before(file, part);
    let told = with_param(alloc, lines, opts, message.as_str(), name.as_str(), BARE)?;
    Ok(Some(told))
}

/// The message of a member of a group that is no parameter; `None` where it has no name.
pub(crate) fn member_message(
    alloc: Global,
    file: &[u8],
    opts: &ModelOpts,
    part: Span,
) -> Result<Option<String>, NoMemory>
    requires { AreOpts opts.now }
{
    let name = text_of(alloc, file, part)?;
    if name.is_empty() {
        return Ok(None);
    }
    let message = format!(in alloc; "no parameter is named {name}")?;
    let lines = lines_before(file, part);
    let told = with_param(alloc, lines, opts, message.as_str(), name.as_str(), BARE)?;
    Ok(Some(told))
}

/// The message of a name in a constraint that no parameter has.
pub(crate) fn unknown_message(
    alloc: Global,
    file: &[u8],
    opts: &ModelOpts,
    part: Span,
) -> Result<String, NoMemory>
    requires opts { AreOpts opts.now }
    requires len { length file.now ≤ 2 ^ 22 }
{
    let shown = quoted(alloc, file, part)?;
    let message = format!(in alloc; "no parameter is named {shown}")?;
    let name = text_of(alloc, file, part.inside(file))?;
    let lines = constraints_head(alloc, file)?.bytes(file);
    with_param(
        alloc,
        lines,
        opts,
        message.as_str(),
        name.as_str(),
        BRACKETS,
    )
}
