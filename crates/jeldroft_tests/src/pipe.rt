//! A reader of standard output that goes away is no fault.

use crate::case::{Case, MODEL, PROOF, TABLE, ends_with};
use memory_io::MemPipe;
use std::alloc::Global;
use std::thread::Threads;
use value_text::NoMemory;

const GENERATE: Case<'static> = Case {
    words: &["generate", "m", "-p", "p"],
    files: &[("m", MODEL)],
    status: 0,
    out: "A\tB",
    told: "",
    left: &[("p", PROOF)],
};

const REFUSED: Case<'static> = Case {
    words: &["check", "m", "t"],
    files: &[("m", MODEL), ("t", TABLE)],
    status: 1,
    out: "ref",
    told: "t: error: no test covers A = 1 and B = y, and no proof was given\n",
    left: &[],
};

fn ends<R: Threads + Sync>(rt: &R, alloc: Global, case: &Case<'_>) -> Result<bool, NoMemory> {
    let mut out = MemPipe::up_to(alloc, 3)?;
    let ended = ends_with(rt, alloc, case, &mut out)?;
    Ok(ended && out.bytes() == case.out.as_bytes())
}

#[test]
fn ends_as_without_it(rt: HostRuntime) {
    for case in &[GENERATE, REFUSED] {
        assert!(rt; ends(&rt, rt.alloc(), case) == Ok(true));
    }
}
