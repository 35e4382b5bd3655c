ghost use Rattle.std.specs.Prelude.{◌≡◌, [], All, length, not, IfOk};
ghost use Rattle.distinct_rows.specs.Known.{is_known_row, with_row};

use cov_model::ValueNo;
use indexmap::IndexSet;
use smallvec::SmallVec;
use std::alloc::Global;
use std::marker::Model;
use value_text::NoMemory;

// The places of a row, as a set compares them.
#[derive(Debug, Drop, PartialEq, Eq, Hash)]
pub(crate) struct RowKey {
    places: SmallVec<Option<ValueNo>, 4>,
}

/// Distinct rows of one length, in order of first occurrence. Contracts see the list of them.
#[derive(Drop)]
pub struct RowSet {
    keys: IndexSet<RowKey>,
}

impl Model for RowSet {
    ghost use Rattle.std.specs.Prelude.{List, Option, ℕ, map};

    ghost Value = { List (List (Option ℕ)) };

    ghost view = { λ set. map (λ key. key.places.items) set.keys.keys };
}

impl RowSet {
    /// No rows. Takes no memory.
    pub fn new(alloc: Global) -> RowSet
        ensures { result ≡ [] }
    {
        RowSet {
            keys: IndexSet::new(alloc),
        }
    }

    /// Adds a row of the same length as the others, unless it is among them, and tells whether it
    /// wasn't (this project's rule).
    ///
    /// # Errors
    ///
    /// `NoMemory` where memory is refused.
    pub fn add(&mut self, alloc: Global, row: &[Option<ValueNo>]) -> Result<bool, NoMemory>
        requires { All (λ known. length known ≡ length row.now) self.old }
        ensures added { IfOk result (λ added. added ≡ not (is_known_row self.old row.now)) }
        ensures rows { IfOk result (λ _. self.new ≡ with_row self.old row.now) }
    {
        let places = SmallVec::from_slice(alloc, row)?;
        let added = self.keys.insert(RowKey { places })?;
        Ok(added)
    }
}
