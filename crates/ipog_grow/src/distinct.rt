ghost use Rattle.std.specs.Prelude.{◌≡◌, ◌+◌, ◌^◌, ◌<◌, ◌≤◌, [], true, All, length, not, slice_index_or, take, IfOk, OnOk};
ghost use Rattle.definitions.specs.believed.Seeds.{distinct};
ghost use Rattle.ipog_grow.specs.Rows.{AreAsLong, AreRising, AreDone, is_known_row, stands_before, with_row};

use crate::fingerprint::are_apart;
use cov_model::{Rows, ValueNo};
use indexmap::IndexSet;
use smallvec::SmallVec;
use std::alloc::Global;
use std::marker::Model;
use value_text::NoMemory;

// The places of a row, as a set compares them.
#[derive(Debug, Drop, PartialEq, Eq, Hash)]
pub(crate) struct RowKey {
    places: SmallVec<Option<ValueNo>, 4>,
}

// Distinct rows of one length, in order of first occurrence. Contracts see the list of them.
#[derive(Drop)]
pub(crate) struct RowSet {
    keys: IndexSet<RowKey>,
}

impl Model for RowSet {
    ghost use Rattle.std.specs.Prelude.{List, Option, ℕ, map};

    ghost Value = { List (List (Option ℕ)) };

    ghost view = { λ set. map (λ key. key.places.items) set.keys.keys };
}

impl RowSet {
    // No rows. Takes no memory.
    pub(crate) fn new(alloc: Global) -> RowSet
        ensures { result ≡ [] }
    {
        RowSet {
            keys: IndexSet::new(alloc),
        }
    }

    // Adds a row of the same length as the others, unless it is among them, and tells whether it wasn't.
    pub(crate) fn add(&mut self, alloc: Global, row: &[Option<ValueNo>]) -> Result<bool, NoMemory>
        requires { All (λ known. length known ≡ length row.now) self.old }
        ensures added { IfOk result (λ added. added ≡ not (is_known_row self.old row.now)) }
        ensures rows { IfOk result (λ _. self.new ≡ with_row self.old row.now) }
    {
        let places = SmallVec::from_slice(alloc, row)?;
        let added = self.keys.insert(RowKey { places })?;
        Ok(added)
    }
}

// Whether a row stands before another: it has the lower value at the first parameter where they differ.
fn stands_before(row: &[Option<ValueNo>], other: &[Option<ValueNo>]) -> bool
    ensures { result ≡ stands_before row.now other.now }
{
    row.cmp(&other).is_lt()
}

// Whether each row stands before the next one.
fn are_rising(rows: &Rows) -> bool
    ensures { result ≡ true → AreRising rows.now }
{
    for i in 1..rows.len() {
        if !stands_before(rows.row(i - 1), rows.row(i)) {
            return false;
        }
    }
    true
}

// Puts the row at a place behind the distinct ones of the earlier rows: the first `count` rows, which
// are the known ones. Tells how many there are then.
fn keep_row(
    alloc: Global,
    rows: &mut Rows,
    i: usize,
    count: usize,
    known: &mut RowSet,
) -> Result<usize, NoMemory>
    requires within { i < length rows.old }
    requires short { length rows.old < 2 ^ 64 }
    requires count { count ≤ i }
    requires known { known.old ≡ take count rows.old }
    requires long { All (λ other. length other ≡ length (slice_index_or rows.old i [])) known.old }
    ensures done { IfOk result (λ after. AreDone rows.old rows.new (i + 1) after (with_row known.old (slice_index_or rows.old i []))) }
    ensures known { OnOk result (known.new ≡ with_row known.old (slice_index_or rows.old i [])) }
{
    if !known.add(alloc, rows.row(i))? {
        return Ok(count);
    }
    rows.copy_row(i, count);
    Ok(count + 1)
}

// Takes out the rows that are the same as an earlier one. Rows that rise, or whose fingerprints all differ, are
// distinct; only else each row is looked up among those before it.
pub(crate) fn remove_repeats(alloc: Global, rows: &mut Rows) -> Result<(), NoMemory>
    requires { AreAsLong rows.old }
    ensures { OnOk result (rows.new ≡ distinct rows.old) }
{
    if are_rising(rows) {
        return Ok(());
    }
    if are_apart(alloc, rows)? {
        return Ok(());
    }
    let mut known = RowSet::new(alloc);
    let mut count = 0;
    for i in 0..rows.len() {
        count = keep_row(alloc, rows, i, count, &mut known)?;
    }
    rows.truncate(count);
    Ok(())
}
