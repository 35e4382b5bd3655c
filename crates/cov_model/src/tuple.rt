ghost use Rattle.std.specs.Prelude.{◌≡◌, ◌==◌, IfOk};
ghost use Rattle.std.specs.List.{list_any};
ghost use Rattle.cov_model.specs.Tuples.{IsRising};

use crate::parameter::{ParamNo, ValueNo};
use smallvec::SmallVec;
use std::alloc::Global;
use std::marker::Model;
use value_text::{NoMemory, OwnedList};

/// A partial row as the list of its parameters with their values, parameters rising.
#[derive(Drop)]
pub struct Tuple {
    pairs: SmallVec<(ParamNo, ValueNo), 8>,
}

/// A list of tuples.
pub type TupleList = OwnedList<Tuple>;

impl Model for Tuple {
    ghost use Rattle.std.specs.Prelude.{List, ℕ};
    ghost use Rattle.cov_model.specs.Tuples.{IsRising};

    ghost Value = { List (ℕ × ℕ) };

    ghost view = { λ tuple. tuple.pairs.items };

    ghost invariant = { λ tuple. IsRising tuple.pairs.items };
}

impl Tuple {
    /// The tuple of these pairs.
    ///
    /// # Errors
    ///
    /// `NoMemory` where there is no room for them.
    pub fn of(alloc: Global, pairs: &[(ParamNo, ValueNo)]) -> Result<Tuple, NoMemory>
        requires { IsRising pairs.now }
        ensures { IfOk result (λ tuple. tuple ≡ pairs.now) }
    {
        let pairs = SmallVec::from_slice(alloc, pairs)?;
        Ok(Tuple { pairs })
    }

    /// The pairs of parameter and value, parameters rising.
    pub fn as_slice(&self) -> &[(ParamNo, ValueNo)]
        ensures value { result.now ≡ self.now }
        ensures rising { IsRising self.now }
    {
        self.pairs.as_slice()
    }
    /// Whether the tuple gives a parameter a value. Takes no memory.
    pub fn has_param(&self, p: ParamNo) -> bool
        ensures { result ≡ list_any (λ pair. pair.0 == p) self.now }
    {
        self.as_slice().iter().any(|pair| pair.0 == p)
    }
}
