//! Models and row files at their limits and above.

use std::alloc::{AllocError, Global};
use std::thread::Threads;
use test_runs::{Given, ends_as, on_model};

// A number in decimal.
fn push_number(into: &mut String, number: u32) -> Result<(), AllocError> {
    let mut buffer = itoa::Buffer::new();
    into.push_str(buffer.format(number))
}

// The values 0 to count - 1, behind the colon.
fn push_values(into: &mut String, count: u32) -> Result<(), AllocError> {
    for value in 0..count {
        into.push_str(if value == 0 { ": " } else { ", " })?;
        push_number(into, value)?;
    }
    Ok(())
}

// A line of a parameter with this name and the values 0 to count - 1.
fn push_line(into: &mut String, name: u32, count: u32) -> Result<(), AllocError> {
    into.push_str("P")?;
    push_number(into, name)?;
    push_values(into, count)?;
    into.push_str("\n")
}

// A model of the parameter A with so many values.
fn model_of_values(alloc: Global, count: u32) -> Result<String, AllocError> {
    let mut model = String::from_str(alloc, "A")?;
    push_values(&mut model, count)?;
    model.push_str("\n")?;
    Ok(model)
}

// A model of so many parameters with so many values each.
fn model_of(alloc: Global, params: u32, values: u32) -> Result<String, AllocError> {
    let mut model = String::new(alloc);
    for name in 0..params {
        push_line(&mut model, name, values)?;
    }
    Ok(model)
}

fn push_rows(into: &mut String, count: u32) -> Result<(), AllocError> {
    for value in 0..count {
        push_number(into, value)?;
        into.push_str("\n")?;
    }
    Ok(())
}

// The values 0 to count - 1, one a line, behind the header.
fn rows_of_values(alloc: Global, count: u32) -> Result<String, AllocError> {
    let mut rows = String::from_str(alloc, "A\n")?;
    push_rows(&mut rows, count)?;
    Ok(rows)
}

// The report has 19,367 bytes: the header, 10 rows of two bytes, 90 of three, 900 of four and 3,095 of five.
const REPORT_BYTES: usize = 19_367;

// Whether a run on this model prints this report, and all but its last byte where one byte less fits.
fn prints<R: Threads + Sync>(rt: &R, alloc: Global, model: &str, report: &str) -> bool {
    let Some(kept) = report.get(..REPORT_BYTES - 1) else {
        return false;
    };
    let given = on_model(&["m", "/o:1"], model.as_bytes());
    let cut = Given {
        room: (REPORT_BYTES - 1, 100),
        ..given
    };
    let line = "error: cannot write the report\n";
    ends_as(rt, alloc, &given, 0, report, "") && ends_as(rt, alloc, &cut, 8, kept, line)
}

fn prints_4095_values<R: Threads + Sync>(rt: &R, alloc: Global) -> Result<bool, AllocError> {
    let model = model_of_values(alloc, 4095)?;
    let report = rows_of_values(alloc, 4095)?;
    Ok(prints(rt, alloc, model.as_str(), report.as_str()))
}

#[test]
fn a_parameter_may_have_4095_values(rt: HostRuntime) {
    assert!(rt; matches!(prints_4095_values(&rt, rt.alloc()), Ok(true)));
}

// A model of so many parameters with so many values each, and the line on the limit that it passes.
struct Large<'a> {
    params: u32,
    values: u32,
    words: &'a [&'a str],
    line: &'a str,
}

// The demanded sets are counted before they are made, and before the row file is looked at: there is no file `t`.
const LARGE: &[Large<'static>] = &[
    Large {
        params: 1,
        values: 4096,
        words: &["m", "/o:1"],
        line: "error: limit: values 4096 above 4095\n",
    },
    Large {
        params: 257,
        values: 1,
        words: &["m", "/o:1"],
        line: "error: limit: parameters 257 above 256\n",
    },
    Large {
        params: 256,
        values: 2,
        words: &["m", "/o:3"],
        line: "error: limit: demanded sets 2763520 above 1048576\n",
    },
    Large {
        params: 256,
        values: 2,
        words: &["m", "/o:3", "/e:t"],
        line: "error: limit: demanded sets 2763520 above 1048576\n",
    },
    Large {
        params: 4,
        values: 4095,
        words: &["m"],
        line: "error: limit: demanded tuples 100614150 above 67108864\n",
    },
];

// Whether a run on such a model ends with status 9, and tells this.
fn is_too_large<R: Threads + Sync>(rt: &R, alloc: Global, large: &Large) -> bool {
    match model_of(alloc, large.params, large.values) {
        Ok(model) => {
            let given = on_model(large.words, model.as_bytes());
            ends_as(rt, alloc, &given, 9, "", large.line)
        }
        Err(AllocError) => false,
    }
}

#[test]
fn tells_what_is_above_a_limit(rt: HostRuntime) {
    for large in LARGE {
        assert!(rt; is_too_large(&rt, rt.alloc(), large), "{}", large.line);
    }
}

// The results of a model of so many parameters: the header, and so many failing rows of first values.
fn results_of(alloc: Global, params: u32, rows: u32) -> Result<String, AllocError> {
    let mut results = String::new(alloc);
    for name in 0..params {
        results.push_str("P")?;
        push_number(&mut results, name)?;
        results.push_str("\t")?;
    }
    results.push_str(":result\n")?;
    for _ in 0..rows {
        push_times(&mut results, "0\t", params as usize)?;
        results.push_str("fail\n")?;
    }
    Ok(results)
}

// Results of a model of so many parameters with so many values each, and how a run on them ends.
struct Results<'a> {
    params: u32,
    values: u32,
    order: &'a str,
    rows: u32,
    // The status, and what the two streams get.
    status: u8,
    written: &'a str,
    told: &'a str,
}

// There is no plan, whose sets would be too many. The candidates are all sets of 1 to 20 of the 40 parameters.
const RESULTS: &[Results<'static>] = &[
    Results {
        params: 256,
        values: 2,
        order: "/o:3",
        rows: 0,
        status: 0,
        written: "Passing tests: 0\nFailing tests: 0\nIncomplete tests: 0\nSuspicious tuples: 0\n",
        told: "",
    },
    Results {
        params: 40,
        values: 1,
        order: "/o:20",
        rows: 1,
        status: 9,
        written: "",
        told: "error: limit: suspect candidates 618679078297 above 4194304\n",
    },
];

// Whether a run on these texts ends so.
fn ends_on_results<R: Threads + Sync>(
    rt: &R,
    alloc: Global,
    model: &str,
    rows: &str,
    results: &Results,
) -> bool {
    let words = ["m", results.order, "/suspect:t"];
    let given = Given {
        rows: Some(("t", rows.as_bytes())),
        ..on_model(&words, model.as_bytes())
    };
    ends_as(
        rt,
        alloc,
        &given,
        results.status,
        results.written,
        results.told,
    )
}

fn ends_so<R: Threads + Sync>(
    rt: &R,
    alloc: Global,
    results: &Results,
) -> Result<bool, AllocError> {
    let model = model_of(alloc, results.params, results.values)?;
    let rows = results_of(alloc, results.params, results.rows)?;
    Ok(ends_on_results(rt, alloc, model.as_str(), rows.as_str(), results))
}

#[test]
fn candidates_are_counted_and_sets_are_not(rt: HostRuntime) {
    for results in RESULTS {
        assert!(rt;
            ends_so(&rt, rt.alloc(), results) == Ok(true),
            "{}",
            results.order
        );
    }
}

// A row file that is too long, with a text 1,048,577 times behind its header.
struct Long<'a> {
    header: &'a str,
    again: &'a str,
    line: &'a str,
}

const LONG: &[Long<'static>] = &[
    Long {
        header: "P0\n",
        again: "0\n",
        line: "error: limit: rows 1048577 above 1048576\n",
    },
    Long {
        header: "",
        again: "\n\n\n\n\n\n\n\n\n\n\n\n\n\n\n\n\n\n\n\n\n\n\n\n\n\n\n\n\n\n\n\n\n\n\n\n\n\n\n\n\n\n\n\n\n\n\n\n\n\n\n\n\n\n\n\n\n\n\n\n\n\n\n\n",
        line: "error: limit: row file bytes above 67108864\n",
    },
];

fn long_rows(alloc: Global, long: &Long) -> Result<String, AllocError> {
    let mut rows = String::from_str(alloc, long.header)?;
    push_times(&mut rows, long.again, 1_048_577)?;
    Ok(rows)
}

// Whether a run from such seed rows ends with status 9, and tells this.
fn is_too_long<R: Threads + Sync>(rt: &R, alloc: Global, long: &Long) -> bool {
    match long_rows(alloc, long) {
        Ok(rows) => {
            let given = Given {
                rows: Some(("t", rows.as_bytes())),
                ..on_model(&["m", "/o:1", "/e:t"], b"P0: 0\n")
            };
            ends_as(rt, alloc, &given, 9, "", long.line)
        }
        Err(AllocError) => false,
    }
}

#[test]
fn tells_row_files_that_are_too_long(rt: HostRuntime) {
    for long in LONG {
        assert!(rt; is_too_long(&rt, rt.alloc(), long), "{}", long.line);
    }
}

/// Adds a text so many times.
pub fn push_times(into: &mut String, text: &str, times: usize) -> Result<(), AllocError> {
    for _ in 0..times {
        into.push_str(text)?;
    }
    Ok(())
}

// Two parameters, and a comment behind them up to so many bytes.
fn long_model(alloc: Global, count: usize) -> Result<String, AllocError> {
    let params = "A: 1\nB: x\n";
    let mut model = String::from_str(alloc, params)?;
    push_times(&mut model, "#", count.saturating_sub(params.len() + 1))?;
    model.push_str("\n")?;
    Ok(model)
}

// Whether a run on such a model ends with this status, and the two streams get these texts.
fn ends_on_long<R: Threads + Sync>(
    rt: &R,
    alloc: Global,
    count: usize,
    status: u8,
    written: &str,
    told: &str,
) -> bool {
    match long_model(alloc, count) {
        Ok(model) => {
            let given = on_model(&["m"], model.as_bytes());
            ends_as(rt, alloc, &given, status, written, told)
        }
        Err(AllocError) => false,
    }
}

#[test]
fn a_model_file_has_at_most_4194304_bytes(rt: HostRuntime) {
    let line = "error: limit: model bytes above 4194304\n";
    assert!(rt; ends_on_long(&rt, rt.alloc(), 4_194_305, 9, "", line));
    assert!(rt; ends_on_long(&rt, rt.alloc(), 4_194_304, 0, "A\tB\n1\tx\n", ""));
}
