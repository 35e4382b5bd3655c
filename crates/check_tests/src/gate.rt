//! Workers, who mark at the same time.

use crate::checks::check;
use std::test::Fail;
use test_models::{Counting, Meeting, WORKERS};

const TEXTS: (&str, &str, &str) = ("A: 1, 2\nB: x, y\n", "A\tB\n1\tx\n2\ty\n", "pict-proof 1\n");

// Each row is marked by a worker of its own while the other is at work.
#[test]
fn two_workers_meet(rt: HostRuntime) -> Result<(), Fail> {
    let gate = Meeting::new();
    let answer = check(&rt, rt.alloc(), TEXTS, 2, &gate)?;
    assert!(rt; answer.as_str() == "uncovered 0=0 1=1", "{answer}");
    assert!(rt; gate.has_met());
    Ok(())
}

#[test]
fn each_worker_comes_once(rt: HostRuntime) -> Result<(), Fail> {
    for workers in WORKERS {
        let gate = Counting::new();
        let answer = check(&rt, rt.alloc(), TEXTS, *workers, &gate)?;
        assert!(rt;
            answer.as_str() == "uncovered 0=0 1=1",
            "{workers}: {answer}"
        );
        assert!(rt; gate.has_each_once(*workers), "{workers}");
    }
    Ok(())
}
