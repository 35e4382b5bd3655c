//! What reports, statistics and figures are written as.

ghost use Rattle.std.specs.Prelude.{◌≡◌, true, All, IfOk};
ghost use Rattle.cov_model.specs.believed.Valid.{is_row};
ghost use Rattle.row_text.specs.Turns.{AreMadeFor};

use cov_model::{Rows, TestModel, ValueNo};
use memory_io::MemSink;
use outside_io::WriteAnswer;
use row_text::{Figures, Stats, Turns, put_figures, put_report, put_stats};
use std::alloc::Global;
use test_models::{model_of, row_of};
use value_text::NoMemory;

// The rows of these values of a model with two parameters.
fn rows_of(alloc: Global, model: &TestModel, table: &[(ValueNo, ValueNo)]) -> Result<Rows, NoMemory>
    ensures { IfOk result (All (λ row. is_row model.now row ≡ true)) }
{
    let mut rows = Rows::new(alloc);
    for (first, second) in table {
        match row_of(alloc, model, *first, *second) {
            Some(row) => rows.push(row.as_slice())?,
            None => return Err(NoMemory),
        }
    }
    Ok(rows)
}

// A sink with room for so many bytes. Callers know nothing of it.
fn sink(alloc: Global, most: usize) -> Result<MemSink, NoMemory> {
    MemSink::up_to(alloc, most)
}

// Whether the report of rows is this text; `false` too where memory was refused.
fn is_written(alloc: Global, model: &TestModel, rows: &Rows, turns: &mut Turns, text: &str) -> bool
    requires rows { All (λ row. is_row model.now row ≡ true) rows.now }
    requires turns { AreMadeFor model.now turns.old }
{
    match sink(alloc, 100) {
        Ok(mut out) => {
            put_report(model, rows, turns, &mut out) == WriteAnswer::Done
                && out.bytes() == text.as_bytes()
        }
        Err(NoMemory) => false,
    }
}

// The same for the first names.
fn is_report_of_rows(alloc: Global, model: &TestModel, rows: &Rows, text: &str) -> bool
    requires { All (λ row. is_row model.now row ≡ true) rows.now }
{
    match Turns::new(alloc, model) {
        Ok(mut turns) => is_written(alloc, model, rows, &mut turns, text),
        Err(NoMemory) => false,
    }
}

// The same for a model's rows of these values.
fn is_report_of(
    alloc: Global,
    model: &TestModel,
    table: &[(ValueNo, ValueNo)],
    text: &str,
) -> bool {
    match rows_of(alloc, model, table) {
        Ok(rows) => is_report_of_rows(alloc, model, &rows, text),
        Err(NoMemory) => false,
    }
}

// The same for the model of a text.
fn is_report(alloc: Global, text: &str, table: &[(ValueNo, ValueNo)], report: &str) -> bool {
    match model_of(alloc, text) {
        Ok(model) => is_report_of(alloc, &model, table, report),
        Err(_) => false,
    }
}

// Whether statistics are written as this text; `false` too where memory was refused.
fn are_statistics(alloc: Global, stats: &Stats, text: &str) -> bool {
    match sink(alloc, 200) {
        Ok(mut out) => {
            put_stats(stats, &mut out) == WriteAnswer::Done && out.bytes() == text.as_bytes()
        }
        Err(NoMemory) => false,
    }
}

// Whether figures are written as this text; `false` too where memory was refused.
fn are_figures(alloc: Global, figures: &Figures, text: &str) -> bool {
    match sink(alloc, 400) {
        Ok(mut out) => {
            put_figures(figures, &mut out) == WriteAnswer::Done && out.bytes() == text.as_bytes()
        }
        Err(NoMemory) => false,
    }
}

// A model, the values of its rows, and their report.
const REPORTS: &[(&str, &[(ValueNo, ValueNo)], &str)] = &[
    (
        "A: 1, 2\nB: x, y\n",
        &[(0, 0), (0, 1), (1, 0), (1, 1)],
        "A\tB\n1\tx\n1\ty\n2\tx\n2\ty\n",
    ),
    (
        "A: 1, 2\nB: x, y, Foo (bar)\n",
        &[(1, 0), (0, 2)],
        "A\tB\n2\tx\n1\tFoo (bar)\n",
    ),
    (
        "A: ~-1, 0, 1\nB: 0, 1\n",
        &[(1, 0), (0, 0)],
        "A\tB\n0\t0\n~-1\t0\n",
    ),
    (
        "OS: Win8 | Win10, Linux\nB: 1, 2, 3\n",
        &[(0, 0), (0, 1), (0, 2), (1, 0), (1, 1), (1, 2)],
        "OS\tB\nWin8\t1\nWin10\t2\nWin8\t3\nLinux\t1\nLinux\t2\nLinux\t3\n",
    ),
];

#[test]
fn writes_reports(rt: HostRuntime) {
    for (text, table, report) in REPORTS {
        assert!(rt; is_report(rt.alloc(), text, table, report), "{text}");
    }
}

#[test]
fn writes_statistics(rt: HostRuntime) {
    let stats = Stats {
        sets: 15,
        tuples: 331,
        omitted: 4,
        kept: 0,
        tests: 70,
    };
    let text =
        "Demanded sets: 15\nDemanded tuples: 331\nOmitted tuples: 4\nKept seeds: 0\nGenerated tests: 70\n";
    assert!(rt; are_statistics(rt.alloc(), &stats, text));
}

#[test]
fn writes_figures(rt: HostRuntime) {
    let figures = Figures {
        tests: 2,
        incomplete: 1,
        invalid: 1,
        sets: 1,
        tuples: 4,
        servable: 3,
        covered: 2,
        complete: 0,
        at75: 0,
        at50: 1,
        at25: 1,
    };
    let text = "Tests: 2\n\
        Incomplete tests: 1\n\
        Invalid tests: 1\n\
        Demanded sets: 1\n\
        Demanded tuples: 4\n\
        Covered tuples: 2 of 3\n\
        Complete sets: 0 of 1\n\
        Sets at 75 percent: 0 of 1\n\
        Sets at 50 percent: 1 of 1\n\
        Sets at 25 percent: 1 of 1\n";
    assert!(rt; are_figures(rt.alloc(), &figures, text));
}
