//! What the command says on standard error.

use crate::notes::Notes;
use crate::row_flaw::RowFlaw;
use cov_model::{ParamNo, TestModel, ValueNo};
use itoa::Buffer;
use jeldroft_args::Check;
use jeldroft_files::Failure;
use outside_io::{Sink, put_pieces};
use proof_check::Verdict;
use std::alloc::Global;

// Writes that something is wrong in a line of a file.
fn tell_line<E: Sink>(file: &str, line: u32, words: &str, diag: &mut E) {
    let mut buffer = Buffer::new();
    let digits = buffer.format(line);
    let _ = put_pieces(diag, &[file, ":", digits, ": error: ", words, "\n"]);
}

// The name of a parameter.
fn param_name(model: &TestModel, p: ParamNo) -> &str {
    match model.params().get(p as usize) {
        Some(param) => param.name.as_str(),
        None => "",
    }
}

// The first name of a value.
fn value_name(model: &TestModel, p: ParamNo, v: ValueNo) -> &str {
    let Some(param) = model.params().get(p as usize) else {
        return "";
    };
    let Some(value) = param.values.get(v as usize) else {
        return "";
    };
    match value.names.get(0) {
        Some(name) => name.as_str(),
        None => "",
    }
}

// Writes that a constraint forbids the test in a line.
fn tell_forbidden<E: Sink>(file: &str, line: u32, number: u32, at: u32, diag: &mut E) {
    let mut line_buffer = Buffer::new();
    let mut number_buffer = Buffer::new();
    let mut at_buffer = Buffer::new();
    let line = line_buffer.format(line);
    let number = number_buffer.format(number);
    let at = at_buffer.format(at);
    let _ = put_pieces(
        diag,
        &[
            file,
            ":",
            line,
            ": error: constraint ",
            number,
            " (line ",
            at,
            ") forbids this test\n",
        ],
    );
}

// Writes that a test leaves a parameter without a value.
fn tell_empty<E: Sink>(file: &str, line: u32, name: &str, diag: &mut E) {
    let mut buffer = Buffer::new();
    let digits = buffer.format(line);
    let _ = put_pieces(
        diag,
        &[
            file,
            ":",
            digits,
            ": error: this test has no value of ",
            name,
            "\n",
        ],
    );
}

// Writes what is wrong with the test in a line.
fn tell_flaw<E: Sink>(file: &str, line: u32, flaw: RowFlaw, model: &TestModel, diag: &mut E) {
    match flaw {
        RowFlaw::Rule(number, at) => tell_forbidden(file, line, number, at, diag),
        RowFlaw::Empty(p) => tell_empty(file, line, param_name(model, p), diag),
        RowFlaw::Signs => tell_line(
            file,
            line,
            "more than one value of this test is invalid",
            diag,
        ),
    }
}

// Writes which combination no test covers.
fn tell_uncovered<E: Sink>(
    file: &str,
    pairs: &[(ParamNo, ValueNo)],
    has_proof: bool,
    model: &TestModel,
    diag: &mut E,
) {
    let _ = put_pieces(diag, &[file, ": error: no test covers "]);
    for (i, (p, v)) in pairs.iter().enumerate() {
        let parting = if i == 0 {
            ""
        } else if i + 1 == pairs.len() {
            " and "
        } else {
            ", "
        };
        let name = param_name(model, *p);
        let _ = put_pieces(diag, &[parting, name, " = ", value_name(model, *p, *v)]);
    }
    let ending = if has_proof {
        ", and the proof doesn't list this combination\n"
    } else {
        ", and no proof was given\n"
    };
    let _ = put_pieces(diag, &[ending]);
}

// Writes why a proof is refused at a line.
fn tell_proof<E: Sink>(args: &Check, line: u32, words: &str, diag: &mut E) {
    if let Some(proof) = &args.proof {
        tell_line(proof.as_str(), line, words, diag);
    }
}

// Writes what stands against a verdict, in names of the model.
fn tell_verdict<E: Sink>(
    args: &Check,
    verdict: &Verdict,
    notes: &Notes,
    model: &TestModel,
    diag: &mut E,
) {
    let table = args.table.as_str();
    match verdict {
        Verdict::Accepted(..) => {}
        Verdict::BadRow(line) => {
            if let Some(flaw) = notes.flaw {
                tell_flaw(table, *line, flaw, model, diag);
            }
        }
        Verdict::BadProof(line) => tell_proof(args, *line, "not a line of a proof", diag),
        Verdict::BadOmission(line) => tell_proof(
            args,
            *line,
            "the tree does not refute the combination",
            diag,
        ),
        Verdict::Uncovered(tuple) => {
            let pairs = tuple.as_slice();
            tell_uncovered(table, pairs, args.proof.is_some(), model, diag);
        }
    }
}

// Writes the warnings, and what stands against a verdict.
fn tell_refusal<E: Sink>(
    alloc: Global,
    args: &Check,
    verdict: &Verdict,
    notes: &Notes,
    diag: &mut E,
) {
    notes
        .files
        .tell_model(alloc, args.model.name.as_str(), diag);
    notes.files.tell_table(args.table.as_str(), diag);
    if let Some(model) = &notes.files.read {
        tell_verdict(args, verdict, notes, model, diag);
    }
}

/// Says why the files aren't accepted, or why there is no verdict.
pub(crate) fn tell<E: Sink>(
    alloc: Global,
    args: &Check,
    end: &Result<Verdict, Failure<'_>>,
    notes: &Notes,
    diag: &mut E,
) {
    match end {
        Ok(verdict) => tell_refusal(alloc, args, verdict, notes, diag),
        Err(failure) => notes.files.tell_failure(alloc, failure, diag),
    }
}
