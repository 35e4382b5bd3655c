ghost use Rattle.std.specs.Prelude.{◌≡◌, ◌≢◌, ℕ, ◌^◌, ◌<◌, ◌≤◌, ◌++◌, ◌∷◌, [], Some, true, length, slice_index_or, OnOk, OnErr};
ghost use Rattle.definitions.specs.believed.Demand.{is_among};
ghost use Rattle.refutation.specs.Holders.{Adds, EndsWithin, last_pair, numbers_at};

use cov_model::{ParamNo, Tuple, ValueNo};
use std::alloc::Global;
use std::marker::Model;
use value_text::{NoMemory, OwnedList};

/// For each value of a parameter a list of numbers. Contracts see the lists; behind the last each is
/// empty.
#[derive(Drop)]
struct ValueLists {
    lists: Vec<OwnedList<u32>>,
}

impl Model for ValueLists {
    ghost use Rattle.std.specs.Prelude.{List, ℕ};

    ghost Value = { List (List ℕ) };

    ghost view = { λ a. a.lists.items };
}

impl ValueLists {
    // No numbers.
    fn new(alloc: Global) -> ValueLists
        ensures { result ≡ [] }
    {
        ValueLists {
            lists: Vec::new(alloc),
        }
    }

    // The numbers of a value.
    fn list(&self, v: ValueNo) -> &[u32]
        ensures { result.now ≡ slice_index_or self.now v [] }
    {
        match self.lists.get(v as usize) {
            Some(list) => list.as_slice(),
            None => &[],
        }
    }

    // Makes a list for each value up to this one.
    fn reach(&mut self, alloc: Global, v: ValueNo) -> Result<(), NoMemory>
        ensures same { (w : ℕ) → slice_index_or self.new w [] ≡ slice_index_or self.old w [] }
        ensures within { OnOk result (v < length self.new) }
    {
        let count = self.lists.len();
        for _ in count..v as usize + 1 {
            self.lists.push(OwnedList::new(alloc))?;
        }
        Ok(())
    }

    // Adds a number to those of a value.
    fn push(&mut self, alloc: Global, v: ValueNo, number: u32) -> Result<(), NoMemory>
        ensures others { (w : ℕ) → w ≢ v → slice_index_or self.new w [] ≡ slice_index_or self.old w [] }
        ensures ok { OnOk result (slice_index_or self.new v [] ≡ slice_index_or self.old v [] ++ number ∷ []) }
        ensures err { OnErr result (slice_index_or self.new v [] ≡ slice_index_or self.old v []) }
    {
        self.reach(alloc, v)?;
        let list = &mut self.lists[v as usize];
        list.push(number)?;
        Ok(())
    }
}

/// For each pair of a parameter and a value a list of numbers. Contracts see the lists by parameter
/// and value; behind the last each is empty.
#[derive(Drop)]
pub(crate) struct Holders {
    params: Vec<ValueLists>,
}

impl Model for Holders {
    ghost use Rattle.std.specs.Prelude.{List, ℕ};

    ghost Value = { List (List (List ℕ)) };

    ghost view = { λ a. a.params.items };
}

impl Holders {
    // No numbers.
    pub(crate) fn new(alloc: Global) -> Holders
        ensures { result ≡ [] }
    {
        Holders {
            params: Vec::new(alloc),
        }
    }

    // The numbers of a pair.
    pub(crate) fn list(&self, p: ParamNo, v: ValueNo) -> &[u32]
        ensures { result.now ≡ numbers_at self.now p v }
    {
        match self.params.get(p as usize) {
            Some(values) => values.list(v),
            None => &[],
        }
    }

    // Makes lists for each parameter up to this one.
    fn reach(&mut self, alloc: Global, p: ParamNo) -> Result<(), NoMemory>
        ensures same { (q : ℕ) → slice_index_or self.new q [] ≡ slice_index_or self.old q [] }
        ensures within { OnOk result (p < length self.new) }
    {
        let count = self.params.len();
        for _ in count..p as usize + 1 {
            self.params.push(ValueLists::new(alloc))?;
        }
        Ok(())
    }

    // Adds a number to those of a pair.
    fn push(&mut self, alloc: Global, p: ParamNo, v: ValueNo, number: u32) -> Result<(), NoMemory>
        ensures adds { Adds number self.old self.new }
        ensures listed { OnOk result (is_among (numbers_at self.new p v) number ≡ true) }
    {
        self.reach(alloc, p)?;
        let values = &mut self.params[p as usize];
        values.push(alloc, v, number)?;
        Ok(())
    }

    // Adds a number to those of the last of the pairs, if there is one.
    pub(crate) fn add(
        &mut self,
        alloc: Global,
        pairs: &[(ParamNo, ValueNo)],
        number: u32,
    ) -> Result<(), NoMemory>
        ensures adds { Adds number self.old self.new }
        ensures listed { OnOk result ((p v : ℕ) → last_pair pairs.now ≡ Some (p, v) → is_among (numbers_at self.new p v) number ≡ true) }
    {
        match pairs.last() {
            Some(pair) => self.push(alloc, pair.0, pair.1, number),
            None => Ok(()),
        }
    }
}

// How many parameters a model has at least that has those of the tuple; more than any has where the
// tuple has no pair.
pub(crate) fn least_width(tuple: &Tuple) -> u32
    ensures { (n : ℕ) → n < 2 ^ 16 → result ≤ n → EndsWithin n tuple.now }
{
    match tuple.as_slice().last() {
        Some(pair) => pair.0 as u32 + 1,
        None => u32::MAX,
    }
}
