//! What is odd about the model of a table, where its tests show that there may be something.
ghost use Rattle.std.specs.Prelude.{◌<◌, length};

use crate::notes::Notes;
use cov_model::{Literal, ParamNo, Rel, Rows, Term, TestModel, ValueNo};
use finding_words::add_line;
use jeldroft_args::Generate;
use jeldroft_files::ModelText;
use model_findings::{Finding, findings, terms_of};
use refusal_places::ModelPlaces;
use std::alloc::Global;
use value_text::{FixedAnswer, NoMemory, like, read_fixed, same_text};

// Marks the value that a test gives a parameter.
fn mark_value(test: &[Option<ValueNo>], p: ParamNo, marks: &mut [bool]) {
    if let Some(Some(v)) = test.get(p as usize) {
        if let Some(mark) = marks.get_mut(*v as usize) {
            *mark = true;
        }
    }
}

// Whether each value of a parameter is in a test.
fn has_each_value(
    alloc: Global,
    model: &TestModel,
    p: ParamNo,
    tests: &Rows,
) -> Result<bool, NoMemory>
    requires { p < length model.now.params }
{
    let mut marks = vec![in alloc; false; model.value_count(p) as usize]?;
    for i in 0..tests.len() {
        mark_value(tests.row(i), p, marks.as_mut_slice());
    }
    Ok(marks.as_slice().iter().all(|mark| *mark))
}

// Whether a value is in no test.
fn misses_value(alloc: Global, model: &TestModel, tests: &Rows) -> Result<bool, NoMemory> {
    model.assert_invariant();
    for p in 0..model.params().len() as ParamNo {
        if !has_each_value(alloc, model, p, tests)? {
            return Ok(true);
        }
    }
    Ok(false)
}

// Whether the first name of a value is what a comparison is with.
fn is_literal(name: &str, literal: &Literal, fold: bool) -> bool {
    match literal {
        Literal::Words(text) => same_text(name, text.as_str(), fold),
        Literal::Number(number) => read_fixed(name) == FixedAnswer::Number(*number),
    }
}

// Whether the first name of some value of a parameter is what a comparison is with.
fn has_literal(model: &TestModel, p: ParamNo, literal: &Literal) -> bool {
    let Some(param) = model.params().get(p as usize) else {
        return false;
    };
    for value in param.values.as_slice() {
        if let Some(name) = value.names.get(0) {
            if is_literal(name.as_str(), literal, model.fold()) {
                return true;
            }
        }
    }
    false
}

// Whether the first name of some value of a parameter matches a pattern.
fn has_match(model: &TestModel, p: ParamNo, pattern: &str) -> bool {
    let Some(param) = model.params().get(p as usize) else {
        return false;
    };
    for value in param.values.as_slice() {
        if let Some(name) = value.names.get(0) {
            if like(pattern, name.as_str(), model.fold()) {
                return true;
            }
        }
    }
    false
}

// Whether a comparison may be with what is no value.
fn is_with_none(model: &TestModel, term: &Term) -> bool {
    match term {
        Term::ValueIs(p, Rel::Eq | Rel::Ne, literal) => !has_literal(model, *p, literal),
        Term::OneOf(p, literals) => {
            for literal in literals.as_slice() {
                if !has_literal(model, *p, literal) {
                    return true;
                }
            }
            false
        }
        Term::Like(p, pattern) => !has_match(model, *p, pattern.as_str()),
        _ => false,
    }
}

// Whether some comparison may be with what is no value.
fn compares_with_none(alloc: Global, model: &TestModel) -> Result<bool, NoMemory> {
    for rule in model.rules().as_slice() {
        let terms = terms_of(alloc, &rule.body)?;
        for term in terms.as_slice() {
            if is_with_none(model, term) {
                return Ok(true);
            }
        }
    }
    Ok(false)
}

// Whether a finding is told beside a table.
fn is_told(finding: &Finding) -> bool {
    match finding {
        Finding::NoTest(_)
        | Finding::ValueInNoTest(_)
        | Finding::UnknownValue(_, _)
        | Finding::UnknownElement(_, _, _) => true,
        Finding::ConstantComparison(_, _)
        | Finding::NeverExcludes(_)
        | Finding::PremiseNeverHolds(_) => false,
    }
}

// The lines of the findings about the model of a file that are told beside a table.
fn lines_of(alloc: Global, args: &Generate, file: &ModelText) -> Result<Vec<u8>, NoMemory> {
    let model = &file.model;
    let places = ModelPlaces::new(alloc, file.bytes.as_slice(), file.marks, model)?;
    let found = findings(alloc, model, false)?;
    let mut lines = Vec::new(alloc);
    for finding in found.as_slice() {
        if is_told(finding) {
            let name = args.model.name.as_str();
            add_line(alloc, name, &places, model, finding, &mut lines)?;
        }
    }
    Ok(lines)
}

// Whether a value is in none of the tests, or a comparison may be with what is no value.
fn is_due(alloc: Global, model: &TestModel, tests: &Rows) -> Result<bool, NoMemory> {
    Ok(misses_value(alloc, model, tests)? || compares_with_none(alloc, model)?)
}

/// Whether there may be something to tell of a model with these tests: a value is in none of them, or a comparison may be
/// with what is no value. No where warnings are left out, where a budget is given, since these questions have none, and
/// where memory was refused.
pub(crate) fn may_be_odd(alloc: Global, args: &Generate, model: &TestModel, tests: &Rows) -> bool {
    if args.no_warnings || args.budget.is_some() {
        return false;
    }
    match is_due(alloc, model, tests) {
        Ok(due) => due,
        Err(NoMemory) => false,
    }
}

/// Keeps the lines that tell of the model of a file that it has no test, which values are in none, and which comparisons are
/// with what is no value, where there may be some. None where memory was refused.
pub(crate) fn note_findings(alloc: Global, args: &Generate, file: &ModelText, notes: &mut Notes) {
    if !notes.odd {
        return;
    }
    if let Ok(lines) = lines_of(alloc, args, file) {
        notes.findings = lines;
    }
}
