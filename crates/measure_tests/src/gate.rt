//! Workers, who mark at the same time.

use crate::suites::{Suite, measured};
use definitions::Effort;
use std::test::Fail;
use test_models::{Counting, Meeting, WORKERS};

const SUITE: Suite<'static> = Suite {
    model: "A: 1, 2\nB: x, y\n",
    order: 2,
    rows: "A\tB\n1\tx\n2\ty\n",
};

// Each row is marked by a worker of its own while the other is at work.
#[test]
fn two_workers_meet(rt: HostRuntime) -> Result<(), Fail> {
    let gate = Meeting::new();
    let Ok(figures) = measured(&rt, rt.alloc(), &SUITE, 2, Effort::Within(1000), &gate)? else {
        return Err("no figures".into());
    };
    assert!(rt; figures.tests == 2 && figures.covered == 2 && figures.servable == 4);
    assert!(rt; gate.has_met());
    Ok(())
}

#[test]
fn each_worker_comes_once(rt: HostRuntime) -> Result<(), Fail> {
    for workers in WORKERS {
        let gate = Counting::new();
        let answer = measured(
            &rt,
            rt.alloc(),
            &SUITE,
            *workers,
            Effort::Within(1000),
            &gate,
        )?;
        assert!(rt; answer.is_ok(), "{workers}");
        assert!(rt; gate.has_each_once(*workers), "{workers}");
    }
    Ok(())
}
