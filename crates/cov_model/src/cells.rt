ghost use Rattle.std.specs.Prelude.{◌≡◌, ◌<◌, ◌∷◌, [], Option, Some, None, length, replicate, slice_index_or, slice_set, IfOk};
ghost use Rattle.std.specs.List.{list_all};
ghost use Rattle.cov_model.specs.believed.Rows.{contains, with_value};
ghost use Rattle.cov_model.specs.believed.Tuples.{cells_of};

use crate::parameter::{ParamNo, ValueNo};
use crate::tuple::Tuple;
use smallvec::SmallVec;
use std::alloc::Global;
use std::marker::Model;
use value_text::NoMemory;

/// A partial row: for each parameter of a model the number of its value, where it has one. With at
/// most four parameters it takes no memory beside its own.
#[derive(Drop)]
pub struct Cells {
    places: SmallVec<Option<ValueNo>, 4>,
}

impl Model for Cells {
    ghost use Rattle.std.specs.Prelude.{List, Option, ℕ};

    ghost Value = { List (Option ℕ) };

    ghost view = { λ cells. cells.places.items };
}

impl Cells {
    /// A partial row of `n` parameters that gives none a value.
    ///
    /// # Errors
    ///
    /// `NoMemory` where there is no room for `n` places.
    pub fn empty(alloc: Global, n: usize) -> Result<Cells, NoMemory>
        ensures { IfOk result (λ cells. cells ≡ replicate n None) }
    {
        let places = SmallVec::from_elem(alloc, None, n)?;
        Ok(Cells { places })
    }

    /// A copy of the partial row.
    ///
    /// # Errors
    ///
    /// `NoMemory` where there is no room for it.
    pub fn copy(&self, alloc: Global) -> Result<Cells, NoMemory>
        ensures { IfOk result (λ copy. copy ≡ self.now) }
    {
        let places = SmallVec::from_slice(alloc, self.as_slice())?;
        Ok(Cells { places })
    }

    /// The number of parameters.
    pub fn len(&self) -> usize
        ensures { result ≡ length self.now }
    {
        self.places.len()
    }

    /// The values in the order of the parameters; `None` exactly where one has none.
    pub fn as_slice(&self) -> &[Option<ValueNo>]
        ensures { result.now ≡ self.now }
    {
        self.places.as_slice()
    }

    /// The value of a parameter; `None` exactly where it has none.
    pub fn get(&self, p: ParamNo) -> Option<ValueNo>
        requires { p < length self.now }
        ensures { result ≡ slice_index_or self.now p None }
    {
        self.places[p as usize]
    }

    /// Gives a parameter a value, in place of the one it had. Takes no memory.
    pub fn set_cell(&mut self, p: ParamNo, v: ValueNo)
        requires { p < length self.old }
        ensures { self.new ≡ slice_set self.old p (Some v) }
    {
        self.places[p as usize] = Some(v);
    }

    /// Takes the value of a parameter away. Takes no memory.
    pub fn clear_cell(&mut self, p: ParamNo)
        requires { p < length self.old }
        ensures { self.new ≡ slice_set self.old p None }
    {
        self.places[p as usize] = None;
    }

    /// Takes the values of all parameters away. Takes no memory.
    pub fn clear(&mut self)
        ensures { self.new ≡ replicate (length self.old) None }
    {
        self.places.as_mut_slice().fill(None);
    }

    // Gives a parameter the value, where it has a place.
    fn give(&mut self, p: ParamNo, v: ValueNo)
        ensures { self.new ≡ with_value self.old p v }
    {
        if (p as usize) < self.len() {
            self.set_cell(p, v);
        }
    }

    /// Becomes the partial row of the tuple. A parameter that has no place is left out. Takes no
    /// memory.
    pub fn copy_tuple(&mut self, tuple: &Tuple)
        ensures { self.new ≡ cells_of (length self.old) tuple.now }
    {
        self.clear();
        let pairs = tuple.as_slice();
        for i in (0..pairs.len()).rev() {
            let (p, v) = pairs[i];
            self.give(p, v);
        }
    }

    // Whether a parameter has this value, or no place.
    fn gives(&self, pair: (ParamNo, ValueNo)) -> bool
        ensures { result ≡ contains self.now (cells_of (length self.now) (pair ∷ [])) }
    {
        if pair.0 as usize >= self.len() {
            return true;
        }
        self.get(pair.0) == Some(pair.1)
    }

    // The same of each of the pairs.
    fn gives_each(&self, pairs: &[(ParamNo, ValueNo)]) -> bool
        ensures { result ≡ list_all (λ pair. contains self.now (cells_of (length self.now) (pair ∷ []))) pairs.now }
    {
        pairs.iter().all(|pair| self.gives(*pair))
    }

    /// Whether the partial row contains that of the tuple: it gives each of the tuple's parameters
    /// the tuple's value. A parameter that has no place is left out. Takes no memory.
    pub fn contains(&self, tuple: &Tuple) -> bool
        ensures { result ≡ contains self.now (cells_of (length self.now) tuple.now) }
    {
        self.gives_each(tuple.as_slice())
    }

    /// Becomes the other partial row. Takes no memory.
    pub fn copy_from(&mut self, other: &Cells)
        requires { length self.old ≡ length other.now }
        ensures { self.new ≡ other.now }
    {
        self.copy_from_slice(other.as_slice());
    }

    /// Becomes the partial row with these values. Takes no memory.
    pub fn copy_from_slice(&mut self, places: &[Option<ValueNo>])
        requires { length self.old ≡ length places.now }
        ensures { self.new ≡ places.now }
    {
        self.places.as_mut_slice().copy_from_slice(places);
    }
}
