//! The program `pictacts`: translates a file in the form of ACTS to a model file for `pict`.
#![tactic(auto)]

use acts_cli::run_acts;
use outside_io::{RealFolder, RealSink, Sink, command_words};
use std::process::ExitCode;

fn main(rt: HostRuntime) -> ExitCode {
    let mut files = RealFolder::new(rt);
    let mut diag = RealSink::new(rt.stderr());
    let Ok(words) = command_words(&rt, rt.alloc()) else {
        let _ = diag.put(b"error: out of memory\n");
        return ExitCode::from(1);
    };
    let status = run_acts(rt.alloc(), words.as_slice(), &mut files, &mut diag);
    ExitCode::from(status)
}
