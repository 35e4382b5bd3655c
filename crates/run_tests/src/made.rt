//! Runs that make their model. The numbers are those of a script that draws made models by the generator's published
//! step; the forbidden pairs of each are counted once. No question costs more than 421 nodes: by first values each node
//! of plain search has a child that goes on, and there are at most 420 values.

use std::alloc::Global;
use std::thread::Threads;
use test_runs::{Ended, Given, on_model, run};
use value_text::NoMemory;

// What the model file holds before.
const OLD: &[u8] = &[b'x'; 4096];

// How the made models of 1, 2, 3 and 7 begin, and how that of 7 ends.
const FIRST_PARAMETER: &str = "P0: v0, v1";

const LAST_CONSTRAINT: &str = "IF [P19] = \"v4\" THEN [P53] <> \"v2\";\n";

// A made model.
struct Made<'a> {
    // The word that asks for it.
    word: &'a str,
    // How many bytes it has.
    bytes: usize,
    // How the statistics begin.
    statistics: &'a str,
}

const MADE: &[Made<'static>] = &[
    Made {
        word: "/make:1",
        bytes: 2354,
        statistics: "Demanded sets: 1770\nDemanded tuples: 33929\nOmitted tuples: 30\nKept seeds: 0\nGenerated tests: ",
    },
    Made {
        word: "/make:2",
        bytes: 2381,
        statistics: "Demanded sets: 1770\nDemanded tuples: 36003\nOmitted tuples: 30\nKept seeds: 0\nGenerated tests: ",
    },
    Made {
        word: "/make:3",
        bytes: 2415,
        statistics: "Demanded sets: 1770\nDemanded tuples: 38179\nOmitted tuples: 30\nKept seeds: 0\nGenerated tests: ",
    },
    Made {
        word: "/MAKE:7",
        bytes: 2345,
        statistics: "Demanded sets: 1770\nDemanded tuples: 33431\nOmitted tuples: 30\nKept seeds: 0\nGenerated tests: ",
    },
];

// Whether a run ends with status 0 and the statistics of one of these, and leaves its made model in the model file.
fn is_made(ended: &Ended, made: &Made) -> bool {
    let Some(held) = ended.files.held("m") else {
        return false;
    };
    ended.status == 0
        && ended.told.bytes().is_empty()
        && ended
            .written
            .bytes()
            .starts_with(made.statistics.as_bytes())
        && held.len() == made.bytes
        && held.starts_with(FIRST_PARAMETER.as_bytes())
}

fn are_alike(first: &Ended, second: &Ended) -> bool {
    first.written.bytes() == second.written.bytes()
        && first.files.held("m") == second.files.held("m")
}

// Two runs of one of these are alike, and leave the made model in the model file.
fn makes_twice<R: Threads + Sync>(rt: &R, alloc: Global, made: &Made) -> Result<bool, NoMemory> {
    let words = ["m", made.word, "/budget:421"];
    let given = on_model(&words, OLD);
    let first = run(rt, alloc, &given)?;
    let second = run(rt, alloc, &given)?;
    Ok(is_made(&first, made) && are_alike(&first, &second))
}

// The same of the one at this place.
fn makes<R: Threads + Sync>(rt: &R, alloc: Global, place: usize) -> bool {
    match MADE.get(place) {
        Some(made) => makes_twice(rt, alloc, made) == Ok(true),
        None => false,
    }
}

#[test]
fn makes_the_model_of_1(rt: HostRuntime) {
    assert!(rt; makes(&rt, rt.alloc(), 0));
}

#[test]
fn makes_the_model_of_2(rt: HostRuntime) {
    assert!(rt; makes(&rt, rt.alloc(), 1));
}

#[test]
fn makes_the_model_of_3(rt: HostRuntime) {
    assert!(rt; makes(&rt, rt.alloc(), 2));
}

#[test]
fn makes_the_model_of_7(rt: HostRuntime) {
    assert!(rt; makes(&rt, rt.alloc(), 3));
}

// The forbidden pairs of the made model of 7, in the order of growth, each with its constraint.
const FORBIDDEN_OF_7: &[u8] = b"\
    pict-proof 1\n\
    omit 3=3 34=3 : L3\n\
    omit 13=4 54=3 : L17\n\
    omit 18=3 33=2 : L19\n\
    omit 18=3 53=5 : L20\n\
    omit 19=4 53=2 : L30\n\
    omit 37=4 54=4 : L4\n\
    omit 1=3 44=2 : L25\n\
    omit 38=2 59=2 : L12\n\
    omit 57=6 59=1 : L29\n\
    omit 9=1 18=4 : L5\n\
    omit 27=3 44=4 : L24\n\
    omit 7=3 32=2 : L8\n\
    omit 5=2 36=1 : L7\n\
    omit 36=2 57=3 : L2\n\
    omit 2=2 10=1 : L11\n\
    omit 14=2 53=5 : L27\n\
    omit 2=1 21=2 : L1\n\
    omit 13=2 24=2 : L23\n\
    omit 7=4 42=2 : L28\n\
    omit 22=1 42=2 : L9\n\
    omit 45=2 59=1 : L6\n\
    omit 14=1 47=1 : L26\n\
    omit 47=2 50=2 : L22\n\
    omit 33=1 58=1 : L21\n\
    omit 12=1 33=2 : L10\n\
    omit 7=4 20=1 : L13\n\
    omit 19=3 20=1 : L18\n\
    omit 26=1 54=1 : L14\n\
    omit 14=2 30=1 : L15\n\
    omit 16=1 51=1 : L16\n";

// Whether a run leaves them in the proof file.
fn omits_forbidden<R: Threads + Sync>(rt: &R, alloc: Global) -> Result<bool, NoMemory> {
    let ended = run(rt, alloc, &on_model(&["m", "/make:7", "/proof:p"], OLD))?;
    Ok(ended.status == 0 && ended.holds("p", FORBIDDEN_OF_7))
}

#[test]
fn exactly_the_forbidden_pairs_are_omitted(rt: HostRuntime) {
    assert!(rt; omits_forbidden(&rt, rt.alloc()) == Ok(true));
}

// Whether runs where more workers may score are alike too.
fn makes_by_any<R: Threads + Sync>(rt: &R, alloc: Global) -> Result<bool, NoMemory> {
    let first = run(rt, alloc, &on_model(&["m", "/make:7"], OLD))?;
    for workers in ["/workers:2", "/workers:7", "/workers:64"] {
        let other = run(rt, alloc, &on_model(&["m", "/make:7", workers], OLD))?;
        if other.status != 0 || !are_alike(&first, &other) {
            return Ok(false);
        }
    }
    Ok(first.status == 0)
}

#[test]
fn the_number_of_workers_makes_no_difference(rt: HostRuntime) {
    assert!(rt; makes_by_any(&rt, rt.alloc()) == Ok(true));
}

// Whether a run leaves a model file that begins and ends so.
fn is_left(ended: &Ended, first: &[u8], last: &[u8]) -> bool {
    match ended.files.held("m") {
        Some(held) => held.starts_with(first) && held.ends_with(last),
        None => false,
    }
}

// The same where it has to end with status 0 and a report that begins so.
fn leaves<R: Threads + Sync>(
    rt: &R,
    alloc: Global,
    given: &Given,
    report: &[u8],
    first: &[u8],
    last: &[u8],
) -> bool {
    match run(rt, alloc, given) {
        Ok(ended) => {
            ended.status == 0
                && ended.written.bytes().starts_with(report)
                && is_left(&ended, first, last)
        }
        Err(NoMemory) => false,
    }
}

// Nothing is read under the name of the model file.
#[test]
fn needs_no_model_file(rt: HostRuntime) {
    let given = Given {
        name: "other",
        written: "m",
        ..on_model(&["m", "/make:7"], b"")
    };
    let report = b"Demanded sets: 1770\n";
    let last = LAST_CONSTRAINT.as_bytes();
    assert!(rt; leaves(&rt, rt.alloc(), &given, report, b"", last));
}

// A run that ends once the model is made.
struct End<'a> {
    words: &'a [&'a str],
    // The calls of the folder that fail, from 1.
    fail: &'a [u64],
    // How many bytes fit into standard output.
    room: usize,
    status: u8,
    line: &'a str,
    // How the model file ends: as what it held, or as the made model.
    last: &'a str,
}

const ENDS: &[End<'static>] = &[
    End {
        words: &["m", "/make:7"],
        fail: &[1],
        room: 100,
        status: 8,
        line: "error: cannot write m\n",
        last: "xxxx",
    },
    End {
        words: &["m", "/make:7", "/proof:p"],
        fail: &[2],
        room: 100,
        status: 8,
        line: "error: cannot write p\n",
        last: LAST_CONSTRAINT,
    },
    End {
        words: &["m", "/make:7"],
        fail: &[],
        room: 0,
        status: 8,
        line: "error: cannot write the report\n",
        last: LAST_CONSTRAINT,
    },
    End {
        words: &["m", "/make:7", "/o:61"],
        fail: &[],
        room: 100,
        status: 4,
        line: "error: model line 60: M18 order above the number of parameters\n",
        last: LAST_CONSTRAINT,
    },
];

// Whether a run ends so, and writes no report.
fn stops<R: Threads + Sync>(rt: &R, alloc: Global, given: &Given, end: &End) -> bool {
    match run(rt, alloc, given) {
        Ok(ended) => ended.is(end.status, "", end.line)
            && is_left(&ended, b"", end.last.as_bytes()),
        Err(NoMemory) => false,
    }
}

fn ends_so<R: Threads + Sync>(rt: &R, alloc: Global, end: &End) -> bool {
    let given = Given {
        fail: end.fail,
        room: (end.room, 1 << 10),
        ..on_model(end.words, OLD)
    };
    stops(rt, alloc, &given, end)
}

#[test]
fn leaves_the_made_model_where_it_stops_later(rt: HostRuntime) {
    for end in ENDS {
        assert!(rt; ends_so(&rt, rt.alloc(), end), "{}", end.line);
    }
}

#[test]
fn the_proof_may_take_the_place_of_the_made_model(rt: HostRuntime) {
    let given = on_model(&["m", "/make:7", "/proof:m"], OLD);
    assert!(rt; leaves(&rt, rt.alloc(), &given, b"", b"pict-proof 1\nomit ", b""));
}
