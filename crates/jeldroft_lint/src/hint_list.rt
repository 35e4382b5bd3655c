ghost use Rattle.std.specs.Prelude.{◌≡◌, true, All, IfOk};
ghost use Rattle.jeldroft_lint.specs.believed.Kinds.{is_hint};

use crate::kind::Kind;
use crate::remark::Remark;
use model_lint::RuleNumbers;
use std::alloc::Global;
use value_text::{NoMemory, OwnedList, Text};

// What a hint is about.
#[derive(Clone, Copy)]
pub(crate) struct About<'a> {
    pub(crate) line: u32,
    pub(crate) column: u32,
    pub(crate) parameter: Option<&'a str>,
    pub(crate) value: Option<&'a str>,
    pub(crate) constraint: Option<u32>,
}

/// Hints.
#[derive(Drop)]
pub(crate) struct HintList {
    hints: Vec<Remark>,
    ghost are_hints: { All (λ remark. is_hint remark.kind ≡ true) hints.items },
}

// A copy of a text, if there is one.
fn copied(alloc: Global, text: Option<&str>) -> Result<Option<Text>, NoMemory> {
    match text {
        Some(text) => Ok(Some(Text::copy(alloc, text)?)),
        None => Ok(None),
    }
}

// The list of a number, if there is one.
fn listed(alloc: Global, number: Option<u32>) -> Result<RuleNumbers, NoMemory> {
    let mut list = OwnedList::new(alloc);
    if let Some(number) = number {
        list.push(number)?;
    }
    Ok(list)
}

// A hint.
fn hint(alloc: Global, kind: Kind, about: About<'_>, words: &str) -> Result<Remark, NoMemory>
    ensures { IfOk result (λ remark. remark.kind ≡ kind) }
{
    let parameter = copied(alloc, about.parameter)?;
    let value = copied(alloc, about.value)?;
    let constraints = listed(alloc, about.constraint)?;
    let words = Text::copy(alloc, words)?;
    Ok(Remark {
        kind,
        line: about.line,
        column: about.column,
        parameter,
        value,
        constraints,
        words,
    })
}

impl HintList {
    pub(crate) fn new(alloc: Global) -> HintList {
        HintList {
            hints: Vec::new(alloc),
        }
    }

    // Adds a hint of this kind.
    pub(crate) fn add(
        &mut self,
        alloc: Global,
        kind: Kind,
        about: About<'_>,
        words: &str,
    ) -> Result<(), NoMemory>
        requires { is_hint kind ≡ true }
    {
        self.hints.push(hint(alloc, kind, about, words)?)?;
        Ok(())
    }

    // The hints.
    pub(crate) fn into_vec(self) -> Vec<Remark>
        ensures { All (λ remark. is_hint remark.kind ≡ true) result.items }
    {
        self.hints
    }
}
