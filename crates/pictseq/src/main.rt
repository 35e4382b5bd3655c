//! The program `pictseq`: makes orders of the events of the file that its words name, or checks a report of them.
#![tactic(auto)]

use outside_io::{RealFolder, RealSink, Sink, command_words};
use seq_cli::run_seq;
use std::process::ExitCode;

fn main(rt: HostRuntime) -> ExitCode {
    let mut files = RealFolder::new(rt);
    let mut out = RealSink::new(rt.stdout());
    let mut diag = RealSink::new(rt.stderr());
    let Ok(words) = command_words(&rt, rt.alloc()) else {
        let _ = diag.put(b"error: out of memory\n");
        return ExitCode::from(1);
    };
    let status = run_seq(
        rt.alloc(),
        words.as_slice(),
        &mut files,
        &mut out,
        &mut diag,
    );
    ExitCode::from(status)
}
