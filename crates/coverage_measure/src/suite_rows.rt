ghost use Rattle.std.specs.Prelude.{◌≡◌, ◌^◌, ◌≤◌, All, length};
ghost use Rattle.cov_model.specs.Fits.{FitsModel};
ghost use Rattle.cov_model.specs.believed.Rows.{is_complete};
ghost use Rattle.row_text.specs.RowFiles.{suite_seen};
ghost use Rattle.coverage_measure.specs.SuiteRows.{kind_of, row_counts, with_kind};

use cov_model::{Cells, TestModel};
use row_text::{RowFile, is_complete};

// What a row of a suite is.
#[derive(Drop, Clone, Copy)]
pub(crate) enum RowKind {
    // It is complete and valid.
    Test,
    // It leaves a parameter without a value.
    Incomplete,
    // It is complete and not valid.
    Invalid,
}

// How many rows of a suite are of each kind, repeats too.
#[derive(Drop, Clone, Copy)]
pub(crate) struct RowCounts {
    pub(crate) tests: u64,
    pub(crate) incomplete: u64,
    pub(crate) invalid: u64,
}

impl RowCounts {
    // One more row of this kind.
    fn add(&mut self, kind: RowKind)
        requires tests { self.old.tests ≤ 2 ^ 20 }
        requires incomplete { self.old.incomplete ≤ 2 ^ 20 }
        requires invalid { self.old.invalid ≤ 2 ^ 20 }
        ensures { self.new ≡ with_kind kind self.old }
    {
        match kind {
            RowKind::Test => self.tests += 1,
            RowKind::Incomplete => self.incomplete += 1,
            RowKind::Invalid => self.invalid += 1,
        }
    }
}

// What a row is.
fn kind_of(model: &TestModel, cells: &Cells) -> RowKind
    requires { FitsModel model.now cells.now }
    ensures { result ≡ kind_of model.now cells.now }
{
    model.assert_invariant();
    if !is_complete(cells) {
        return RowKind::Incomplete;
    }
    match model.row_fault(cells) {
        None => RowKind::Test,
        Some(_) => RowKind::Invalid,
    }
}

// Counts the rows of a suite by their kinds.
pub(crate) fn count_rows(model: &TestModel, suite: &RowFile) -> RowCounts
    requires fits { All (λ row. FitsModel model.now row.cells) suite.now.rows }
    requires few { length suite.now.rows ≤ 2 ^ 20 }
    ensures { result ≡ row_counts model.now (suite_seen suite.now) }
{
    let mut counts = RowCounts {
        tests: 0,
        incomplete: 0,
        invalid: 0,
    };
    for row in suite.rows.as_slice() {
        counts.add(kind_of(model, &row.cells));
    }
    counts
}
