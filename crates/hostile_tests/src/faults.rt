//! Folders and sinks that fail.

use memory_io::{SureFolder, SureSink};
use runs_in_memory::run_pict_without_faults;
use std::alloc::Global;
use std::thread::Threads;
use test_runs::{Given, ends_as, on_model, sure_folder, words_of};
use value_text::NoMemory;

const PAIRS: &[u8] = b"A: 1, 2\nB: x, y\n";

const GUARDED: &[u8] = b"A: 1, 2\nB: x, y\nIF [A] = 1 THEN [B] = \"x\";\n";

const REPORT: &str = "A\tB\n1\tx\n1\ty\n2\tx\n2\ty\n";

// Whether a run with room for so many bytes of the report keeps them, and tells that it can't write the rest.
fn keeps<R: Threads + Sync>(rt: &R, alloc: Global, room: usize) -> bool {
    let given = Given {
        room: (room, 1 << 10),
        ..on_model(&["m"], PAIRS)
    };
    match REPORT.get(..room) {
        Some(kept) => ends_as(
            rt,
            alloc,
            &given,
            8,
            kept,
            "error: cannot write the report\n",
        ),
        None => false,
    }
}

#[test]
fn keeps_what_fits_of_the_report(rt: HostRuntime) {
    for room in 0..20 {
        assert!(rt; keeps(&rt, rt.alloc(), room), "{room}");
    }
}

// A run on one file.
struct Fault<'a> {
    // The name of the file.
    name: &'a str,
    model: &'a [u8],
    // The calls of the folder that fail, from 1.
    fail: &'a [u64],
    // How many bytes fit into standard error.
    room: usize,
    words: &'a [&'a str],
    // The status, and what the two streams get.
    status: u8,
    report: &'a str,
    line: &'a str,
}

const FAULTS: &[Fault<'static>] = &[
    Fault {
        name: "m",
        model: PAIRS,
        fail: &[1],
        room: 100,
        words: &["m"],
        status: 7,
        report: "",
        line: "error: cannot read m\n",
    },
    Fault {
        name: "n",
        model: PAIRS,
        fail: &[],
        room: 100,
        words: &["m"],
        status: 7,
        report: "",
        line: "error: cannot read m\n",
    },
    Fault {
        name: "m",
        model: PAIRS,
        fail: &[],
        room: 100,
        words: &["m", "/e:s"],
        status: 7,
        report: "",
        line: "error: cannot read s\n",
    },
    Fault {
        name: "m",
        model: PAIRS,
        fail: &[2],
        room: 100,
        words: &["m", "/proof:p"],
        status: 8,
        report: "",
        line: "error: cannot write p\n",
    },
    Fault {
        name: "m",
        model: PAIRS,
        fail: &[],
        room: 100,
        words: &["m", "/proof:q"],
        status: 8,
        report: "",
        line: "error: cannot write q\n",
    },
    Fault {
        name: "m",
        model: GUARDED,
        fail: &[2],
        room: 100,
        words: &["m", "/proof:p"],
        status: 8,
        report: "",
        line: "error: cannot write p\n",
    },
    // A fault of standard error changes nothing.
    Fault {
        name: "m",
        model: PAIRS,
        fail: &[],
        room: 0,
        words: &["m", "/o:3"],
        status: 4,
        report: "",
        line: "",
    },
    Fault {
        name: "m",
        model: PAIRS,
        fail: &[],
        room: 11,
        words: &["m", "/o:3"],
        status: 4,
        report: "",
        line: "error: mode",
    },
    Fault {
        name: "m",
        model: PAIRS,
        fail: &[],
        room: 0,
        words: &["m"],
        status: 0,
        report: REPORT,
        line: "",
    },
];

fn ends_so<R: Threads + Sync>(rt: &R, alloc: Global, fault: &Fault) -> bool {
    let given = Given {
        name: fault.name,
        fail: fault.fail,
        room: (100, fault.room),
        ..on_model(fault.words, fault.model)
    };
    ends_as(rt, alloc, &given, fault.status, fault.report, fault.line)
}

#[test]
fn ends_with_the_status_of_a_fault(rt: HostRuntime) {
    for fault in FAULTS {
        assert!(rt;
            ends_so(&rt, rt.alloc(), fault),
            "{} {}",
            fault.status,
            fault.line
        );
    }
}

// Whether a run of these words in this folder ends with status 0, prints 20 bytes and tells nothing.
fn runs_in<R: Threads + Sync>(
    rt: &R,
    alloc: Global,
    words: &[String],
    folder: &mut SureFolder,
) -> bool {
    let mut out = SureSink::new();
    let mut told = SureSink::new();
    let status = run_pict_without_faults(rt, alloc, words, folder, &mut out, &mut told, 5);
    status == 0 && out.taken() == 20 && told.taken() == 0
}

fn runs<R: Threads + Sync>(rt: &R, alloc: Global) -> Result<bool, NoMemory> {
    let words = words_of(alloc, &["m"])?;
    let mut folder = sure_folder(alloc, PAIRS)?;
    Ok(runs_in(rt, alloc, words.as_slice(), &mut folder))
}

#[test]
fn runs_where_nothing_fails(rt: HostRuntime) {
    assert!(rt; runs(&rt, rt.alloc()) == Ok(true));
}
