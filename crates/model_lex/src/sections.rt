ghost use Rattle.std.specs.Prelude.{◌≡◌, ◌≤◌, ◌^◌, length, Some, None, IfOk, IfErr, OnOk};
ghost use Rattle.model_lex.specs.Sections.{Splits, line_seen, put_behind, split_seen};
ghost use Rattle.model_lex.specs.believed.Sections.{kind_of, no_lines, refusal_of, sections_of};

use crate::diag::{Diag, DiagCode};
use crate::fault::ModelFault;
use crate::line_kind::{LineKind, is_ignored, kind_of, misplaced};
use crate::lines::{cut_line, without_mark};
use std::alloc::Global;
use std::str::from_utf8;
use value_text::{NoMemory, OwnedList};

/// A line of a model file, without its line end.
#[derive(Debug, Drop, Clone, Copy)]
pub struct NumLine<'a> {
    /// The number of the line, counted from 1.
    pub line: u32,
    /// Its text, a slice of the file.
    pub text: &'a str,
}

/// A list of lines.
pub type NumLineList<'a> = OwnedList<NumLine<'a>>;

/// The lines of a model file by what they are, without those that are ignored.
#[derive(Drop)]
pub struct Sections<'a> {
    /// The lines that declare parameters.
    pub params: NumLineList<'a>,
    /// The lines that give sub-models and relations.
    pub groups: NumLineList<'a>,
    /// The lines of the constraints.
    pub rules: NumLineList<'a>,
}

impl<'a> Sections<'a> {
    // No lines.
    fn new(alloc: Global) -> Self
        ensures { split_seen result ≡ no_lines }
    {
        Sections {
            params: OwnedList::new(alloc),
            groups: OwnedList::new(alloc),
            rules: OwnedList::new(alloc),
        }
    }

    // Adds a line behind those of its kind.
    fn push(&mut self, kind: LineKind, line: NumLine<'a>) -> Result<(), NoMemory>
        ensures { OnOk result (split_seen self.new ≡ put_behind kind (line_seen line.entry) (split_seen self.old)) }
    {
        match kind {
            LineKind::Param => self.params.push(line),
            LineKind::Group => self.groups.push(line),
            LineKind::Rule => self.rules.push(line),
        }
    }
}

// What a line that isn't ignored is, with its text, or why it is refused.
fn read_line<'a>(before: LineKind, text: &'a [u8]) -> Result<(LineKind, &'a str), DiagCode>
    ensures ok { IfOk result (λ line. (refusal_of before text.now ≡ None) × (line.0 ≡ kind_of before text.now) × (line.1.now ≡ text.now)) }
    ensures err { IfErr result (λ code. refusal_of before text.now ≡ Some code) }
{
    let Ok(line) = from_utf8(text) else {
        return Err(DiagCode::NotText);
    };
    let kind = kind_of(before, text);
    match misplaced(before, kind, text) {
        Some(code) => Err(code),
        None => Ok((kind, line)),
    }
}

/// The lines of a model file by what they are: parameter lines, behind them group lines, and from
/// the first line that opens a constraint on constraint lines. Lines of blanks alone and comments
/// are left out but counted (PICT's guide; the details are this project's rules). The texts are
/// slices of the file, which may have at most 2^28 bytes.
///
/// # Errors
///
/// The first line that is refused, by these in this order: `Bad` with `NotText` where it isn't
/// UTF-8, with `LateParameter` where it is a parameter line behind a group line, with `NoColon`
/// where it is a parameter line without a colon. `NoMemory` where a list could not grow.
pub fn split_model<'a>(alloc: Global, bytes: &'a [u8]) -> Result<Sections<'a>, ModelFault>
    requires { length bytes.now ≤ 2 ^ 28 }
    ensures { Splits (sections_of bytes.now) result }
{
    let mut sections = Sections::new(alloc);
    let mut before = LineKind::Param;
    let mut line = 0;
    let mut rest = without_mark(bytes);
    while !rest.is_empty() {
        let (bytes, behind) = cut_line(rest);
        rest = behind;
        line += 1;
        if is_ignored(bytes) {
            continue;
        }
        match read_line(before, bytes) {
            Ok((kind, text)) => {
                before = kind;
                sections.push(kind, NumLine { line, text })?;
            }
            Err(code) => return Err(ModelFault::Bad(Diag { line, code })),
        }
    }
    Ok(sections)
}
