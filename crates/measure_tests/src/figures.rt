//! The figures of suites, for each number of workers, by either search.

ghost use Rattle.std.specs.Prelude.{◌≤◌};

use crate::suites::{Suite, measured};
use definitions::Effort;
use row_text::Figures;
use std::alloc::Global;
use std::test::Fail;
use std::thread::Threads;
use test_models::WORKERS;
use worker_gate::OpenGate;

// Enough for each question of these models, and no budget.
const EFFORTS: &[Effort] = &[Effort::Within(1000), Effort::Full];

// In the first suite one row breaks the constraint and one has no value of B, and the tuple of 1 and y is out of
// the denominator. In the second each row has a negative value of A and one row stands twice; no row serves a
// tuple of B and C, so their set is complete. In the third a row has two negative values. In the fourth three
// quarters are covered.
const SUITES: &[(Suite<'static>, Figures)] = &[
    (
        Suite {
            model: "A: 1, 2\nB: x, y\nIF [A] = 1 THEN [B] = \"x\";\n",
            order: 2,
            rows: "A\tB\n1\tx\n2\tx\n1\ty\n2\t\n",
        },
        Figures {
            tests: 2,
            incomplete: 1,
            invalid: 1,
            sets: 1,
            tuples: 4,
            servable: 3,
            covered: 2,
            complete: 0,
            at75: 0,
            at50: 1,
            at25: 1,
        },
    ),
    (
        Suite {
            model: "A: ~1, ~2\nB: x, y\nC: u, v\n",
            order: 2,
            rows: "A\tB\tC\n~1\tx\tu\n~2\ty\tu\n~1\tx\tu\n",
        },
        Figures {
            tests: 3,
            incomplete: 0,
            invalid: 0,
            sets: 3,
            tuples: 12,
            servable: 8,
            covered: 4,
            complete: 1,
            at75: 1,
            at50: 3,
            at25: 3,
        },
    ),
    (
        Suite {
            model: "A: 1, ~n\nB: x, ~m\n",
            order: 2,
            rows: "A\tB\n~n\t~m\n1\tx\n",
        },
        Figures {
            tests: 1,
            incomplete: 0,
            invalid: 1,
            sets: 1,
            tuples: 3,
            servable: 3,
            covered: 1,
            complete: 0,
            at75: 0,
            at50: 0,
            at25: 1,
        },
    ),
    (
        Suite {
            model: "A: 1, 2\nB: x, y\n",
            order: 2,
            rows: "A\tB\n1\tx\n1\ty\n2\tx\n",
        },
        Figures {
            tests: 3,
            incomplete: 0,
            invalid: 0,
            sets: 1,
            tuples: 4,
            servable: 4,
            covered: 3,
            complete: 0,
            at75: 1,
            at50: 1,
            at25: 1,
        },
    ),
];

// Whether a suite has these figures, whatever a question may cost.
fn has_figures<R: Threads + Sync>(
    rt: &R,
    alloc: Global,
    suite: &Suite<'_>,
    workers: u32,
    figures: Figures,
) -> Result<bool, Fail>
    requires order { 1 ≤ suite.now.order }
    requires least { 1 ≤ workers }
    requires most { workers ≤ 64 }
{
    for effort in EFFORTS {
        match measured(rt, alloc, suite, workers, *effort, &OpenGate)? {
            Ok(found) if found == figures => {}
            _ => return Ok(false),
        }
    }
    Ok(true)
}

#[test]
fn figures_are_the_same_for_all_workers(rt: HostRuntime) -> Result<(), Fail> {
    for (suite, figures) in SUITES {
        for workers in WORKERS {
            let has = has_figures(&rt, rt.alloc(), suite, *workers, *figures)?;
            assert!(rt; has, "{figures:?} {workers}");
        }
    }
    Ok(())
}
