//! The program `jeldroft`: makes, checks, shortens and explains tables of tests.
#![tactic(auto)]

use jeldroft_cli::run_jeldroft;
use outside_io::{InputFolder, RealSink, Sink, command_words};
use std::io::IsTerminal;
use std::process::ExitCode;

fn main(rt: HostRuntime) -> ExitCode {
    let terminal = rt.stderr().is_terminal();
    let mut files = InputFolder::new(rt, rt.stdin());
    let mut out = RealSink::new(rt.stdout());
    let mut diag = RealSink::new(rt.stderr());
    let Ok(words) = command_words(&rt, rt.alloc()) else {
        let _ = diag.put(b"jeldroft: error: out of memory\n");
        return ExitCode::from(3);
    };
    let status = run_jeldroft(
        &rt,
        rt.alloc(),
        words.as_slice(),
        &mut files,
        &mut out,
        &mut diag,
        terminal,
    );
    ExitCode::from(status)
}
