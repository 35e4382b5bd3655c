//! The program `pictcheck`: says whether a report and a proof, whoever made them, cover what a model file demands.
#![tactic(auto)]

use check_cli::run_check;
use outside_io::{RealFolder, RealSink, Sink, command_words};
use std::process::ExitCode;

fn main(rt: HostRuntime) -> ExitCode {
    let mut files = RealFolder::new(rt);
    let mut out = RealSink::new(rt.stdout());
    let mut diag = RealSink::new(rt.stderr());
    let Ok(words) = command_words(&rt, rt.alloc()) else {
        let _ = diag.put(b"error: out of memory\n");
        return ExitCode::from(1);
    };
    let status = run_check(
        &rt,
        rt.alloc(),
        words.as_slice(),
        &mut files,
        &mut out,
        &mut diag,
    );
    ExitCode::from(status)
}
