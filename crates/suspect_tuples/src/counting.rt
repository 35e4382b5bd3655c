ghost use Rattle.std.specs.Prelude.{◌≡◌, ◌+◌, ◌<◌, ◌^◌, ◌++◌, ◌∷◌, [], ◌&&◌, not, if◌then◌else◌, All, length, map, IfOk, OnOk};
ghost use Rattle.cov_model.specs.believed.Rows.{is_complete};
ghost use Rattle.suspect_tuples.specs.believed.Suspects.{failing_rows, incomplete_rows, passing_rows};

use crate::row_list::RowList;
use cov_model::Cells;
use row_text::{FileRow, is_complete};
use std::alloc::Global;
use value_text::NoMemory;

// The rows of a file of results: those that count, by whether their tests failed, and the number of the others.
#[derive(Drop)]
pub(crate) struct CountedRows<'a> {
    pub passing: RowList<'a>,
    pub failing: RowList<'a>,
    pub incomplete: u64,
}

impl<'a> CountedRows<'a> {
    // Adds a row by whether its test failed.
    fn add(&mut self, row: &'a Cells, failed: bool) -> Result<(), NoMemory>
        requires short { length row.now < 2 ^ 16 }
        requires few { self.old.incomplete < 2 ^ 32 }
        ensures passing { OnOk result (self.new.passing ≡ self.old.passing ++ (if is_complete row.now && not failed then row.now ∷ [] else [])) }
        ensures failing { OnOk result (self.new.failing ≡ self.old.failing ++ (if is_complete row.now && failed then row.now ∷ [] else [])) }
        ensures incomplete { OnOk result (self.new.incomplete ≡ self.old.incomplete + (if is_complete row.now then 0 else 1)) }
    {
        if !is_complete(row) {
            self.incomplete += 1;
            return Ok(());
        }
        if failed {
            return self.failing.push(row);
        }
        self.passing.push(row)
    }
}

// The rows of a file of results, by whether their tests failed.
pub(crate) fn counted_rows<'a>(
    alloc: Global,
    rows: &'a [FileRow],
    failed: &[bool],
) -> Result<CountedRows<'a>, NoMemory>
    requires flags { length failed.now ≡ length rows.now }
    requires short { All (λ row. length row.cells < 2 ^ 16) rows.now }
    requires few { length rows.now < 2 ^ 32 }
    ensures passing { IfOk result (λ counted. counted.passing ≡ passing_rows (map (λ row. row.cells) rows.now) failed.now) }
    ensures failing { IfOk result (λ counted. counted.failing ≡ failing_rows (map (λ row. row.cells) rows.now) failed.now) }
    ensures incomplete { IfOk result (λ counted. counted.incomplete ≡ length (incomplete_rows (map (λ row. row.cells) rows.now))) }
{
    let mut counted = CountedRows {
        passing: RowList::new(alloc),
        failing: RowList::new(alloc),
        incomplete: 0,
    };
    for at in 0..rows.len() {
        counted.add(&rows[at].cells, failed[at])?;
    }
    Ok(counted)
}
