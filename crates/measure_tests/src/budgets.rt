//! The first question of a run whose plain cost exceeds the budget, and that there is none without a budget.

use crate::suites::{Suite, measured};
use cov_model::{ParamNo, ValueNo};
use definitions::Effort;
use feasibility::SearchFault;
use std::test::Fail;
use worker_gate::OpenGate;

// Whichever values B and C have, one of the constraints is false where A is 1; the search sees it only once B
// has a value.
const TWINS: Suite<'static> = Suite {
    model: "A: 1, 2\nB: 1, 2\nC: 1, 2\nIF [A] = 1 THEN [B] = [C];\nIF [A] = 1 THEN [B] <> [C];\n",
    order: 1,
    rows: "A\tB\tC\n2\t1\t1\n",
};

// A row of the suite serves the tuple of x and p, and its question is asked all the same.
const SERVED: Suite<'static> = Suite {
    model: "A: 1, 2\nB: x, y\nC: p, q, r\nIF [A] = 1 THEN [C] <> \"p\";\nIF [A] = 1 THEN [C] <> \"q\";\nIF [A] = 1 THEN [C] <> \"r\";\n",
    order: 2,
    rows: "A\tB\tC\n2\tx\tp\n",
};

// A suite, what a question may cost, and the one that exceeds it, if any.
const QUESTIONS: &[(Suite<'static>, Effort, Option<&[(ParamNo, ValueNo)]>)] = &[
    (TWINS, Effort::Within(2), Some(&[(0, 0)])),
    (TWINS, Effort::Within(3), Some(&[(1, 0)])),
    (TWINS, Effort::Within(4), None),
    (TWINS, Effort::Full, None),
    (SERVED, Effort::Within(1), Some(&[(0, 1), (1, 0)])),
    (SERVED, Effort::Within(2), Some(&[(1, 0), (2, 0)])),
    (SERVED, Effort::Within(3), None),
    (SERVED, Effort::Full, None),
];

#[test]
fn first_question_above_the_budget_is_told(rt: HostRuntime) -> Result<(), Fail> {
    for (suite, effort, question) in QUESTIONS {
        let answer = measured(&rt, rt.alloc(), suite, 2, *effort, &OpenGate)?;
        match answer {
            Ok(_) => assert!(rt; question.is_none(), "{effort:?}"),
            Err(SearchFault::Spent(found)) => {
                assert!(rt; *question == Some(found.cells.as_slice()), "{effort:?}");
            }
            Err(SearchFault::NoMemory) => return Err("no memory".into()),
        }
    }
    Ok(())
}
