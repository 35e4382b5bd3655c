ghost use Rattle.std.specs.Prelude.{◌≡◌, ◌<◌, ◌==◌, ◌++◌, ◌∷◌, [], All, filter, length, slice_index_or, IfOk, OnOk};
ghost use Rattle.suspect_tuples.specs.RowBits.{has_at};
ghost use Rattle.suspect_tuples.specs.believed.Suspects.{gives, has_tuple};

use cov_model::{Cells, ParamNo, ValueNo};
use std::alloc::Global;
use std::marker::Model;
use value_text::NoMemory;

// Rows of a file. Contracts see the list of them.
#[derive(Drop)]
pub(crate) struct RowList<'a> {
    rows: Vec<&'a Cells>,
}

impl<'a> Model for RowList<'a> {
    ghost use Rattle.std.specs.Prelude.{List, Option, ℕ, map};

    ghost Value = { List (List (Option ℕ)) };

    ghost view = { λ list. map (λ row. row.now) list.rows.items };
}

// Whether a row gives a parameter this value.
fn gives(row: &Cells, pair: (ParamNo, ValueNo)) -> bool
    ensures { result ≡ gives row.now pair }
{
    if row.len() <= pair.0 as usize {
        return false;
    }
    match row.get(pair.0) {
        Some(value) => value == pair.1,
        None => false,
    }
}

// Whether a row gives each of the parameters its value.
pub(crate) fn gives_all(row: &Cells, pairs: &[(ParamNo, ValueNo)]) -> bool
    ensures { result ≡ has_tuple pairs.now row.now }
{
    pairs.iter().all(|pair| gives(row, *pair))
}

impl<'a> RowList<'a> {
    // No rows. Takes no memory.
    pub(crate) fn new(alloc: Global) -> RowList<'a>
        ensures { result ≡ [] }
    {
        RowList {
            rows: Vec::new(alloc),
        }
    }

    // Whether the row at a place contains a tuple; there is none past the last row.
    pub(crate) fn has_at(&self, at: usize, tuple: &[(ParamNo, ValueNo)]) -> bool
        ensures { result ≡ has_at self.now tuple.now at }
    {
        at < self.len() && gives_all(self.row(at), tuple)
    }

    // The number of rows.
    pub(crate) fn len(&self) -> usize
        ensures { result ≡ length self.now }
    {
        self.rows.len()
    }

    // The row at a place.
    pub(crate) fn row(&self, at: usize) -> &'a Cells
        requires { at < length self.now }
        ensures { result.now ≡ slice_index_or self.now at [] }
    {
        self.rows[at]
    }

    // Adds a row at the end.
    pub(crate) fn push(&mut self, row: &'a Cells) -> Result<(), NoMemory>
        ensures { OnOk result (self.new ≡ self.old ++ row.now ∷ []) }
    {
        self.rows.push(row)?;
        Ok(())
    }

    // The rows that give a parameter this value.
    pub(crate) fn giving(
        &self,
        alloc: Global,
        pair: (ParamNo, ValueNo),
    ) -> Result<RowList<'a>, NoMemory>
        ensures { IfOk result (λ rows. rows ≡ filter (λ row. gives row pair) self.now) }
    {
        let mut giving = RowList::new(alloc);
        for at in 0..self.len() {
            let row = self.row(at);
            if gives(row, pair) {
                giving.push(row)?;
            }
        }
        Ok(giving)
    }
}
