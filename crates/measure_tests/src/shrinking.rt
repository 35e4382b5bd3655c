//! Fewer rows that serve what given rows serve.

ghost use Rattle.std.specs.Prelude.{◌≡◌, true, All, IfOk};
ghost use Rattle.cov_model.specs.believed.Valid.{is_valid};

use cov_model::{Prefs, Rows, TestModel};
use definitions::Effort;
use row_text::{RowMode, is_complete, read_rows};
use std::alloc::Global;
use std::test::Fail;
use suite_shrink::{PlannedModel, ShrinkOpts, Shrunk, shrink};
use test_models::model_of;
use tuple_index::Plan;

/// The most bytes of a row file.
const MOST_BYTES: usize = 1 << 20;

// A model at order 2, the files of its rows and of seed rows, and how many moves are tried; then the numbers of the
// rows that stay, where moves change none of them, how many are left, and how many there are at least.
struct Given<'a> {
    model: &'a str,
    rows: &'a str,
    seeds: &'a str,
    rounds: u64,
    numbers: Option<&'a [usize]>,
    left: usize,
    least: u64,
}

// Three parameters of two values, whose pairs four rows serve.
const TWO: &str = "A: 1, 2\nB: x, y\nC: u, v\n";

const GIVEN: &[Given<'static>] = &[
    // Nothing needs the third row.
    Given {
        model: TWO,
        rows: "A\tB\tC\n1\tx\tu\n1\ty\tv\n1\tx\tv\n2\tx\tv\n2\ty\tu\n",
        seeds: "A\n",
        rounds: 0,
        numbers: Some(&[0, 1, 3, 4]),
        left: 4,
        least: 4,
    },
    // There are as many as any suite needs.
    Given {
        model: TWO,
        rows: "A\tB\tC\n1\tx\tu\n1\ty\tv\n2\tx\tv\n2\ty\tu\n",
        seeds: "A\n",
        rounds: 1000,
        numbers: Some(&[0, 1, 2, 3]),
        left: 4,
        least: 4,
    },
    // A row is there twice.
    Given {
        model: TWO,
        rows: "A\tB\tC\n1\tx\tu\n1\tx\tu\n1\ty\tv\n2\tx\tv\n1\tx\tu\n2\ty\tu\n",
        seeds: "A\n",
        rounds: 1000,
        numbers: Some(&[0, 2, 3, 5]),
        left: 4,
        least: 4,
    },
    Given {
        model: TWO,
        rows: "A\tB\tC\n2\tx\tv\n",
        seeds: "A\n",
        rounds: 1000,
        numbers: Some(&[0]),
        left: 1,
        least: 1,
    },
    Given {
        model: TWO,
        rows: "A\tB\tC\n",
        seeds: "A\n",
        rounds: 1000,
        numbers: Some(&[]),
        left: 0,
        least: 0,
    },
    // Pairs that no row serves needn't be served.
    Given {
        model: TWO,
        rows: "A\tB\tC\n1\tx\tu\n1\tx\tv\n2\ty\tu\n",
        seeds: "A\n",
        rounds: 1000,
        numbers: Some(&[0, 1, 2]),
        left: 3,
        least: 3,
    },
    // Of all rows the search finds four.
    Given {
        model: TWO,
        rows: "A\tB\tC\n1\tx\tu\n1\tx\tv\n1\ty\tu\n1\ty\tv\n2\tx\tu\n2\tx\tv\n2\ty\tu\n2\ty\tv\n",
        seeds: "A\n",
        rounds: 1000,
        numbers: None,
        left: 4,
        least: 4,
    },
    // The seed row keeps the third row, which nothing else needs; a seed row that no row contains counts for nothing.
    Given {
        model: TWO,
        rows: "A\tB\tC\n1\tx\tu\n1\ty\tv\n1\tx\tv\n2\tx\tv\n2\ty\tu\n",
        seeds: "A\tB\tC\n1\tx\tv\n2\tx\tu\n",
        rounds: 0,
        numbers: Some(&[0, 1, 2, 3, 4]),
        left: 5,
        least: 4,
    },
    // Two slices: four rows and two, and one more that nothing needs.
    Given {
        model: "A: 1, ~n\nB: x, y\nC: u, v\n",
        rows: "A\tB\tC\n~n\tx\tu\n1\tx\tu\n1\tx\tv\n~n\ty\tv\n1\ty\tu\n~n\tx\tv\n1\ty\tv\n",
        seeds: "A\n",
        rounds: 1000,
        numbers: Some(&[0, 1, 2, 3, 4, 6]),
        left: 6,
        least: 6,
    },
    // A constraint, a relation of three parameters and a sub-model.
    Given {
        model: "A: 1, 2\nB: x, y\nC: u, v\nD: p, q\n\n{ A, B } @ 1\n@ 3 { B, C, D }\n\nIF [A] = 1 THEN [B] = \"x\";\n",
        rows: "A\tB\tC\tD\n1\tx\tu\tp\n1\tx\tu\tq\n1\tx\tv\tp\n2\tx\tv\tq\n2\ty\tu\tp\n2\ty\tu\tq\n2\ty\tv\tp\n2\ty\tv\tq\n2\tx\tu\tp\n",
        seeds: "A\n",
        rounds: 1000,
        numbers: None,
        left: 8,
        least: 8,
    },
];

// A model, the files of its rows and of seed rows, and the file of the rows once their values are spread. No row can be
// spared, and of the values that a cell may get one is so heavy that the others don't come.
struct Spread<'a> {
    model: &'a str,
    rows: &'a str,
    seeds: &'a str,
    spread: &'a str,
}

const SPREAD: &[Spread<'static>] = &[
    // The first row can do without x, then the third one can't.
    Spread {
        model: "A: 1, 2, 3\nB: x, y (4294967295)\nC: u\n\n{ A, B } @ 1\n",
        rows: "A\tB\tC\n1\tx\tu\n2\ty\tu\n3\tx\tu\n",
        seeds: "A\n",
        spread: "A\tB\tC\n1\ty\tu\n2\ty\tu\n3\tx\tu\n",
    },
    Spread {
        model: "A: 1, 2, 3\nB: x (4294967295), y\nC: u\n\n{ A, B } @ 1\n",
        rows: "A\tB\tC\n1\tx\tu\n2\ty\tu\n3\tx\tu\n",
        seeds: "A\n",
        spread: "A\tB\tC\n1\tx\tu\n2\ty\tu\n3\tx\tu\n",
    },
    // A constraint, or a seed row, keeps x in the first row.
    Spread {
        model: "A: 1, 2, 3\nB: x, y (4294967295)\nC: u\n\n{ A, B } @ 1\n\nIF [A] = 1 THEN [B] = \"x\";\n",
        rows: "A\tB\tC\n1\tx\tu\n2\ty\tu\n3\tx\tu\n",
        seeds: "A\n",
        spread: "A\tB\tC\n1\tx\tu\n2\ty\tu\n3\ty\tu\n",
    },
    Spread {
        model: "A: 1, 2, 3\nB: x, y (4294967295)\nC: u\n\n{ A, B } @ 1\n",
        rows: "A\tB\tC\n1\tx\tu\n2\ty\tu\n3\tx\tu\n",
        seeds: "A\tB\n1\tx\n",
        spread: "A\tB\tC\n1\tx\tu\n2\ty\tu\n3\ty\tu\n",
    },
    // Each pair is in one row alone.
    Spread {
        model: "A: 1, 2\nB: x, y (4294967295)\nC: u, v (4294967295)\n",
        rows: "A\tB\tC\n1\tx\tu\n1\ty\tv\n2\tx\tv\n2\ty\tu\n",
        seeds: "A\n",
        spread: "A\tB\tC\n1\tx\tu\n1\ty\tv\n2\tx\tv\n2\ty\tu\n",
    },
    // The second row, which the seed row keeps, would become the third one.
    Spread {
        model: "A: 1, 2\nB: x, y (4294967295)\nC: u, v (4294967295)\nD: d\n\n{ A, B, C } @ 1\n\nIF [A] = 2 THEN [B] = \"x\";\n",
        rows: "A\tB\tC\tD\n2\tx\tu\td\n1\tx\tv\td\n1\ty\tv\td\n",
        seeds: "A\tC\n1\tv\n",
        spread: "A\tB\tC\tD\n2\tx\tu\td\n1\tx\tv\td\n1\ty\tv\td\n",
    },
];

// The rows of a text, if all are valid.
fn rows_of(alloc: Global, model: &TestModel, text: &str) -> Result<Rows, Fail>
    ensures { IfOk result (λ rows. All (λ row. is_valid model.now row ≡ true) rows) }
{
    model.assert_invariant();
    if text.len() > MOST_BYTES {
        return Err("long rows".into());
    }
    let file = read_rows(alloc, text.as_bytes(), model, RowMode::Suite)?;
    let mut rows = Rows::new(alloc);
    for row in file.rows.as_slice() {
        if !is_complete(&row.cells) || model.row_fault(&row.cells).is_some() {
            return Err("a row that isn't valid".into());
        }
        rows.push(row.cells.as_slice())?;
    }
    Ok(rows)
}

// The seed rows of a text.
fn seeds_of(alloc: Global, model: &TestModel, text: &str) -> Result<Rows, Fail> {
    if text.len() > MOST_BYTES {
        return Err("long seeds".into());
    }
    let file = read_rows(alloc, text.as_bytes(), model, RowMode::Seed)?;
    let mut rows = Rows::new(alloc);
    for row in file.rows.as_slice() {
        rows.push(row.cells.as_slice())?;
    }
    Ok(rows)
}

// The fewer rows that are found.
fn shrunk(
    alloc: Global,
    model: &TestModel,
    rows: &str,
    seeds: &str,
    rounds: u64,
    spread: bool,
) -> Result<Shrunk, Fail> {
    let plan = Plan::new(alloc, model)?;
    let prefs = Prefs::new(alloc, model, None)?;
    let rows = rows_of(alloc, model, rows)?;
    let seeds = seeds_of(alloc, model, seeds)?;
    let of = PlannedModel {
        model,
        prefs: &prefs,
        plan: &plan,
    };
    let opts = ShrinkOpts {
        random: 7,
        rounds,
        spread,
        effort: Effort::Full,
    };
    Ok(shrink(alloc, &of, &rows, &seeds, &opts)?)
}

// Whether rows are the same.
fn are_equal(one: &Rows, other: &Rows) -> bool {
    one.len() == other.len() && (0..one.len()).all(|i| one.row(i) == other.row(i))
}

#[test]
fn fewer_rows_are_found(rt: HostRuntime) -> Result<(), Fail> {
    let alloc = rt.alloc();
    for given in GIVEN {
        let text = given.rows;
        let model = model_of(alloc, given.model)?;
        let found = shrunk(alloc, &model, text, given.seeds, given.rounds, false)?;
        assert!(rt; found.proposed, "{text}");
        assert!(rt; found.rows.len() == given.left, "{text}");
        assert!(rt; found.least == given.least, "{text}");
        if let Some(numbers) = given.numbers {
            assert!(rt; found.numbers.as_slice() == numbers, "{text}");
        }
        let again = shrunk(alloc, &model, text, given.seeds, given.rounds, false)?;
        assert!(rt; are_equal(&found.rows, &again.rows), "{text}");
        assert!(rt;
            found.numbers.as_slice() == again.numbers.as_slice(),
            "{text}"
        );
    }
    Ok(())
}

#[test]
fn spreading_takes_and_adds_no_row(rt: HostRuntime) -> Result<(), Fail> {
    let alloc = rt.alloc();
    for given in GIVEN {
        let text = given.rows;
        let model = model_of(alloc, given.model)?;
        let found = shrunk(alloc, &model, text, given.seeds, given.rounds, false)?;
        let spread = shrunk(alloc, &model, text, given.seeds, given.rounds, true)?;
        assert!(rt; spread.proposed, "{text}");
        assert!(rt;
            spread.numbers.as_slice() == found.numbers.as_slice(),
            "{text}"
        );
    }
    Ok(())
}

#[test]
fn values_that_nothing_needs_are_drawn_by_weight(rt: HostRuntime) -> Result<(), Fail> {
    let alloc = rt.alloc();
    for given in SPREAD {
        let text = given.model;
        let model = model_of(alloc, text)?;
        let found = shrunk(alloc, &model, given.rows, given.seeds, 0, true)?;
        assert!(rt; found.proposed, "{text}");
        assert!(rt;
            are_equal(&found.rows, &rows_of(alloc, &model, given.spread)?),
            "{text}"
        );
    }
    Ok(())
}
