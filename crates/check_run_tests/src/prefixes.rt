//! The report and the proof of a model that `pict` makes, whole and cut.

use crate::runs::{ends_on, on_files, run};
use std::alloc::Global;
use std::thread::Threads;
use test_models::DISK;
use test_runs::{Ended, on_model};
use value_text::NoMemory;

const PROOF: &str =
    "pict-proof 1\nomit 1=4 3=0 : L1\nomit 1=5 3=0 : L1\nomit 1=6 3=0 : L1\nomit 1=6 3=1 : L2\n";

// The report and the proof of the model, as `pict` writes them.
fn made<R: Threads + Sync>(rt: &R, alloc: Global) -> Result<Ended, NoMemory> {
    test_runs::run(rt, alloc, &on_model(&["m", "/proof:p"], DISK.as_bytes()))
}

// Whether the checker ends with this status, and has this verdict.
fn says<'a, R: Threads + Sync>(
    rt: &R,
    alloc: Global,
    report: &'a [u8],
    proof: &'a [u8],
    status: u8,
    verdict: &str,
) -> bool {
    let end = (status, verdict, "");
    ends_on(rt, alloc, DISK.as_bytes(), report, proof, end)
}

// The status with which the checker ends; nothing where memory was refused.
fn status_of<'a, R: Threads + Sync>(
    rt: &R,
    alloc: Global,
    report: &'a [u8],
    proof: &'a [u8],
) -> Option<u8> {
    let files = [("m", DISK.as_bytes()), ("r", report), ("p", proof)];
    match run(rt, alloc, &on_files(&files)) {
        Ok(ended) => Some(ended.status),
        Err(NoMemory) => None,
    }
}

// Whether the checker accepts so many rows and the proof.
fn accepts_rows<R: Threads + Sync>(rt: &R, alloc: Global, report: &[u8], rows: usize) -> bool {
    match format!(in alloc; "accepted: {rows} rows, 4 omissions\n") {
        Ok(line) => says(rt, alloc, report, PROOF.as_bytes(), 0, line.as_str()),
        Err(_) => false,
    }
}

fn accepts<R: Threads + Sync>(rt: &R, alloc: Global, report: &[u8]) -> bool {
    match str::from_utf8(report) {
        Ok(text) => accepts_rows(rt, alloc, report, text.lines().skip(1).count()),
        Err(_) => false,
    }
}

const OTHER_LEAF: &[u8] =
    b"pict-proof 1\nomit 1=4 3=0 : L2\nomit 1=5 3=0 : L1\nomit 1=6 3=0 : L1\nomit 1=6 3=1 : L2\n";

fn refuses_other_leaf<R: Threads + Sync>(rt: &R, alloc: Global, report: &[u8]) -> bool {
    let line = "refused: proof line 2: the tree does not refute the tuple\n";
    says(rt, alloc, report, OTHER_LEAF, 10, line)
}

// Whether the report is refused with each prefix of the proof.
fn refuses_proofs<R: Threads + Sync>(rt: &R, alloc: Global, report: &[u8]) -> bool {
    let proof = PROOF.as_bytes();
    for length in 0..proof.len() {
        if status_of(rt, alloc, report, &proof[..length]) != Some(10) {
            return false;
        }
    }
    true
}

fn names_cut_line<R: Threads + Sync>(rt: &R, alloc: Global, report: &[u8]) -> bool {
    let line = "refused: proof line 5: not a proof line\n";
    match PROOF.as_bytes().split_last() {
        Some((_last, cut)) => says(rt, alloc, report, cut, 10, line),
        None => false,
    }
}

// Whether a prefix of this length ends inside a line: neither before a line feed nor behind one.
fn ends_inside(report: &[u8], length: usize) -> bool {
    let before = length == 0 || report.get(length - 1) == Some(&b'\n');
    !before && report.get(length) != Some(&b'\n')
}

// Whether the prefix of this length isn't accepted.
fn refuses<R: Threads + Sync>(rt: &R, alloc: Global, report: &[u8], length: usize) -> bool {
    match report.get(..length) {
        Some(cut) => matches!(status_of(rt, alloc, cut, PROOF.as_bytes()), Some(6 | 10)),
        None => false,
    }
}

// Whether none of the prefixes of the report is accepted that end inside a line and whose length leaves this rest
// when divided by four.
fn refuses_prefixes<R: Threads + Sync>(rt: &R, alloc: Global, report: &[u8], rest: usize) -> bool {
    for length in (rest..report.len()).step_by(4) {
        if ends_inside(report, length) && !refuses(rt, alloc, report, length) {
            return false;
        }
    }
    true
}

// The first tuple that no row serves, behind the header and so many rows, as a script that goes by the definitions found
// it.
const LACKING: &[&str] = &[
    "0=0 1=0", "0=0 1=1", "0=0 1=2", "0=0 1=3", "0=0 1=4", "0=0 1=5", "0=0 1=6", "0=1 1=0",
    "0=1 1=0", "0=1 1=0", "0=1 1=2", "0=1 1=2", "0=1 1=4", "0=1 1=4", "0=1 1=6", "0=1 1=6",
    "0=2 1=0", "0=2 1=0", "0=2 1=0", "0=2 1=1", "0=2 1=4", "0=2 1=4", "0=2 1=4", "0=2 1=5",
    "0=3 1=0", "0=3 1=0", "0=3 1=0", "0=3 1=0", "0=3 1=4", "0=3 1=4", "0=3 1=4", "0=3 1=4",
    "0=4 1=0", "0=4 1=0", "0=4 1=0", "0=4 1=0", "0=4 1=1", "0=4 1=2", "0=4 1=3", "0=5 1=0",
    "0=5 1=0", "0=5 1=0", "0=5 1=0", "0=5 1=1", "0=5 1=1", "0=5 1=1", "0=5 1=3", "0=5 1=3",
    "0=6 1=0", "0=6 1=0", "0=6 1=1", "0=6 1=1", "0=6 1=1", "0=6 1=1", "0=6 1=2", "0=6 4=7",
    "1=3 4=5", "1=4 4=3", "1=5 4=2", "1=6 4=1",
];

// Whether that is the verdict on a prefix with so many rows.
fn lacks_rows<R: Threads + Sync>(rt: &R, alloc: Global, report: &[u8], rows: usize) -> bool {
    let Some(tuple) = LACKING.get(rows) else {
        return false;
    };
    match format!(in alloc; "refused: uncovered {tuple}\n") {
        Ok(line) => says(rt, alloc, report, PROOF.as_bytes(), 10, line.as_str()),
        Err(_) => false,
    }
}

// Whether none of the prefixes is accepted that end before the line feed of an earlier line, or behind it.
fn refuses_whole_lines<R: Threads + Sync>(rt: &R, alloc: Global, report: &[u8]) -> bool {
    let Some((_last, report)) = report.split_last() else {
        return false;
    };
    let mut rows = 0usize;
    for (i, byte) in report.iter().enumerate() {
        if *byte == b'\n' {
            if !lacks_rows(rt, alloc, &report[..i], rows) {
                return false;
            }
            if !lacks_rows(rt, alloc, &report[..i + 1], rows) {
                return false;
            }
            rows = rows.saturating_add(1);
        }
    }
    rows == 60
}

// Whether the report is accepted without its last byte.
fn accepts_cut<R: Threads + Sync>(rt: &R, alloc: Global, report: &[u8]) -> bool {
    match report.split_last() {
        Some((_last, cut)) => status_of(rt, alloc, cut, PROOF.as_bytes()) == Some(0),
        None => false,
    }
}

// What is shown of the report.
#[derive(Clone, Copy)]
enum Shown {
    Accepted,
    OtherLeaf,
    CutProofs,
    CutLine,
    CutReports(usize),
    CutRows,
    CutEnd,
}

fn is_so<R: Threads + Sync>(rt: &R, alloc: Global, report: &[u8], shown: Shown) -> bool {
    match shown {
        Shown::Accepted => accepts(rt, alloc, report),
        Shown::OtherLeaf => refuses_other_leaf(rt, alloc, report),
        Shown::CutProofs => refuses_proofs(rt, alloc, report),
        Shown::CutLine => names_cut_line(rt, alloc, report),
        Shown::CutReports(rest) => refuses_prefixes(rt, alloc, report, rest),
        Shown::CutRows => refuses_whole_lines(rt, alloc, report),
        Shown::CutEnd => accepts_cut(rt, alloc, report),
    }
}

// Whether `pict` writes the proof, and this is so of its report.
fn is_so_of_made<R: Threads + Sync>(rt: &R, alloc: Global, shown: Shown) -> bool {
    match made(rt, alloc) {
        Ok(made) => {
            made.holds("p", PROOF.as_bytes()) && is_so(rt, alloc, made.written.bytes(), shown)
        }
        Err(NoMemory) => false,
    }
}

#[test]
fn accepts_what_pict_writes(rt: HostRuntime) {
    assert!(rt; is_so_of_made(&rt, rt.alloc(), Shown::Accepted));
}

#[test]
fn refuses_another_leaf(rt: HostRuntime) {
    assert!(rt; is_so_of_made(&rt, rt.alloc(), Shown::OtherLeaf));
}

#[test]
fn refuses_each_prefix_of_the_proof(rt: HostRuntime) {
    assert!(rt; is_so_of_made(&rt, rt.alloc(), Shown::CutProofs));
}

#[test]
fn names_the_line_that_is_cut(rt: HostRuntime) {
    assert!(rt; is_so_of_made(&rt, rt.alloc(), Shown::CutLine));
}

#[test]
fn accepts_no_report_that_ends_inside_a_line(rt: HostRuntime) {
    assert!(rt; is_so_of_made(&rt, rt.alloc(), Shown::CutReports(0)));
}

#[test]
fn accepts_none_of_one_byte_more(rt: HostRuntime) {
    assert!(rt; is_so_of_made(&rt, rt.alloc(), Shown::CutReports(1)));
}

#[test]
fn accepts_none_of_two_bytes_more(rt: HostRuntime) {
    assert!(rt; is_so_of_made(&rt, rt.alloc(), Shown::CutReports(2)));
}

#[test]
fn accepts_none_of_three_bytes_more(rt: HostRuntime) {
    assert!(rt; is_so_of_made(&rt, rt.alloc(), Shown::CutReports(3)));
}

// One that ends with an earlier line could be accepted, if the rows behind it were needless. None of them is.
#[test]
fn accepts_no_report_without_its_last_rows(rt: HostRuntime) {
    assert!(rt; is_so_of_made(&rt, rt.alloc(), Shown::CutRows));
}

#[test]
fn reads_a_report_without_its_last_line_feed(rt: HostRuntime) {
    assert!(rt; is_so_of_made(&rt, rt.alloc(), Shown::CutEnd));
}

#[test]
fn an_empty_report_has_no_header(rt: HostRuntime) {
    assert!(rt; status_of(&rt, rt.alloc(), b"", PROOF.as_bytes()) == Some(6));
}
