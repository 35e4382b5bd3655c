//! The program `pict`: makes a covering array of the model file that its words name.
#![tactic(auto)]

use outside_io::{RealFolder, RealSink, Sink, command_words};
use pict_cli::run_pict;
use std::process::ExitCode;
use std::time::SystemTime;

/// The seconds of the clock, or 0 where it can't be read: what a shuffle without a number starts from.
fn clock_word(rt: &HostRuntime) -> u64 {
    match SystemTime::now(rt) {
        Ok(now) => now
            .duration_since(SystemTime::UNIX_EPOCH)
            .map_or(0, |since| since.as_secs()),
        Err(_) => 0,
    }
}

fn main(rt: HostRuntime) -> ExitCode {
    let mut files = RealFolder::new(rt);
    let mut out = RealSink::new(rt.stdout());
    let mut diag = RealSink::new(rt.stderr());
    let Ok(words) = command_words(&rt, rt.alloc()) else {
        let _ = diag.put(b"error: out of memory\n");
        return ExitCode::from(1);
    };
    let seed_word = clock_word(&rt);
    let status = run_pict(
        &rt,
        rt.alloc(),
        words.as_slice(),
        &mut files,
        &mut out,
        &mut diag,
        seed_word,
    );
    ExitCode::from(status)
}
