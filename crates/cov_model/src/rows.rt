ghost use Rattle.std.specs.Prelude.{◌≡◌, ◌<◌, ◌++◌, ◌∷◌, [], All, Some, length, slice_index_or, slice_set, take, drop, ◌+◌, ◌≤◌, OnOk, OnErr};

use crate::parameter::{ParamNo, ValueNo};
use std::alloc::Global;
use std::marker::Model;
use value_text::NoMemory;

/// Partial rows of one length, one behind another in one piece of memory. Contracts see the list of
/// them.
#[derive(Drop)]
pub struct Rows {
    width: usize,
    count: usize,
    places: Vec<Option<ValueNo>>,
}

impl Model for Rows {
    ghost use Rattle.std.specs.Prelude.{◌≡◌, ◌*◌, List, Option, ℕ, length};
    ghost use Rattle.cov_model.specs.PackedRows.{rows_of};

    ghost Value = { List (List (Option ℕ)) };

    ghost view = { λ rows. rows_of rows.width rows.count rows.places.items };

    ghost invariant = { λ rows. length rows.places.items ≡ rows.count * rows.width };
}

// The `width` neighbouring places from `begin` on.
#[inline]
fn part(places: &[Option<ValueNo>], begin: usize, width: usize) -> &[Option<ValueNo>]
    requires { begin + width ≤ length places.now }
    ensures { result.now ≡ take width (drop begin places.now) }
{
    &places[begin..begin + width]
}

// Writes a row over as many places, from `begin` on.
fn put_part(places: &mut [Option<ValueNo>], begin: usize, row: &[Option<ValueNo>])
    requires { begin + length row.now ≤ length places.old }
    ensures { places.new ≡ take begin places.old ++ (row.now ++ drop (begin + length row.now) places.old) }
{
    let end = begin + row.len();
    places[begin..end].copy_from_slice(row);
}

// Copies the `width` places from `from` on over those from `to` on.
fn copy_part(places: &mut [Option<ValueNo>], from: usize, to: usize, width: usize)
    requires from { from + width ≤ length places.old }
    requires to { to + width ≤ length places.old }
    ensures { places.new ≡ take to places.old ++ (take width (drop from places.old) ++ drop (to + width) places.old) }
{
    places.copy_within(from..from + width, to);
}

impl Rows {
    /// No rows. Takes no memory.
    pub fn new(alloc: Global) -> Rows
        ensures { result ≡ [] }
    {
        Rows {
            width: 0,
            count: 0,
            places: Vec::new(alloc),
        }
    }

    /// The number of rows.
    #[inline]
    pub fn len(&self) -> usize
        ensures { result ≡ length self.now }
    {
        self.count
    }

    /// The row at a place counted from 0: the values in the order of the parameters; `None` exactly
    /// where one has none.
    #[inline]
    pub fn row(&self, i: usize) -> &[Option<ValueNo>]
        requires { i < length self.now }
        ensures { result.now ≡ slice_index_or self.now i [] }
    {
        part(self.places.as_slice(), i * self.width, self.width)
    }

    /// Adds a row of the same length as the others at the end. After a refusal the rows are as before.
    ///
    /// # Errors
    ///
    /// `NoMemory` where there is no room for it.
    pub fn push(&mut self, row: &[Option<ValueNo>]) -> Result<(), NoMemory>
        requires { All (λ other. length other ≡ length row.now) self.old }
        ensures ok { OnOk result (self.new ≡ self.old ++ row.now ∷ []) }
        ensures err { OnErr result (self.new ≡ self.old) }
    {
        let Some(count) = self.count.checked_add(1) else {
            return Err(NoMemory);
        };
        self.places.extend_from_slice(row)?;
        self.width = row.len();
        self.count = count;
        Ok(())
    }

    /// The row at a place becomes another one, which is as long. Takes no memory.
    pub fn put(&mut self, i: usize, row: &[Option<ValueNo>])
        requires place { i < length self.old }
        requires long { length row.now ≡ length (slice_index_or self.old i []) }
        ensures { self.new ≡ slice_set self.old i row.now }
    {
        put_part(self.places.as_mut_slice(), i * self.width, row);
    }

    /// Gives a parameter a value in the row at a place, in place of the one it had. Takes no memory.
    pub fn set_cell(&mut self, i: usize, p: ParamNo, v: ValueNo)
        requires place { i < length self.old }
        requires parameter { p < length (slice_index_or self.old i []) }
        ensures { self.new ≡ slice_set self.old i (slice_set (slice_index_or self.old i []) p (Some v)) }
    {
        let place = i * self.width + p as usize;
        self.places[place] = Some(v);
    }

    /// The row at a place becomes the one at another place. Takes no memory.
    pub fn copy_row(&mut self, from: usize, to: usize)
        requires from { from < length self.old }
        requires to { to < length self.old }
        ensures { self.new ≡ slice_set self.old to (slice_index_or self.old from []) }
    {
        let (begin, end) = (from * self.width, to * self.width);
        copy_part(self.places.as_mut_slice(), begin, end, self.width);
    }

    /// Keeps the first `count` rows; all where there are no more.
    pub fn truncate(&mut self, count: usize)
        ensures { self.new ≡ take count self.old }
    {
        if count < self.count {
            self.places.truncate(count * self.width);
            self.count = count;
        }
    }

    /// Adds other rows at the end, in order. Where there are none, the memory of the others is taken
    /// over. After a refusal the rows are as before.
    ///
    /// # Errors
    ///
    /// `NoMemory` where there is no room for them.
    pub fn append(&mut self, mut others: Rows) -> Result<(), NoMemory>
        requires { All (λ row. All (λ known. length known ≡ length row) self.old) others }
        ensures ok { OnOk result (self.new ≡ self.old ++ others) }
        ensures err { OnErr result (self.new ≡ self.old) }
    {
        if self.count == 0 {
            *self = others;
            return Ok(());
        }
        let Some(count) = self.count.checked_add(others.count) else {
            return Err(NoMemory);
        };
        self.places.append(&mut others.places)?;
        self.count = count;
        Ok(())
    }
}
