ghost use Rattle.std.specs.Prelude.{◌≡◌, ◌<◌, [], ◌∷◌, ◌++◌, length, take, None, IfOk, IfSome, OnOk, OnErr};
ghost use Rattle.seq_check.specs.believed.EventFile.{number_of};

use indexmap::IndexSet;
use std::alloc::Global;
use std::marker::Model;
use value_text::NoMemory;

/// The names of events, in the order of their numbers, to be looked up. Contracts see their list.
#[derive(Drop)]
pub(crate) struct EventNames {
    keys: IndexSet<Vec<u8>>,
}

impl Model for EventNames {
    ghost use Rattle.std.specs.Prelude.{List, ℕ, map};

    ghost Value = { List (List ℕ) };

    ghost view = { λ names. map (λ key. key.items) names.keys.keys };
}

impl EventNames {
    /// No names.
    pub(crate) fn new(alloc: Global) -> EventNames
        ensures { result ≡ [] }
    {
        EventNames {
            keys: IndexSet::new(alloc),
        }
    }

    /// The number of the event with a name.
    pub(crate) fn number(&self, alloc: Global, name: &[u8]) -> Result<Option<usize>, NoMemory>
        ensures value { IfOk result (λ number. number ≡ number_of self.now name.now) }
        ensures within { IfOk result (λ number. IfSome number (λ n. n < length self.now)) }
    {
        let key = Vec::from_slice(alloc, name)?;
        Ok(self.keys.get_index_of(&key))
    }

    /// Adds a name that no event has. Where memory is refused, they stay as they are.
    pub(crate) fn add(&mut self, alloc: Global, name: &[u8]) -> Result<(), NoMemory>
        requires { number_of self.old name.now ≡ None }
        ensures added { OnOk result (self.new ≡ self.old ++ name.now ∷ []) }
        ensures refused { OnErr result (self.new ≡ self.old) }
    {
        let key = Vec::from_slice(alloc, name)?;
        self.keys.insert(key)?;
        Ok(())
    }

    /// Drops the names behind the first so many.
    pub(crate) fn truncate(&mut self, count: usize)
        ensures { self.new ≡ take count self.old }
    {
        self.keys.truncate(count);
    }
}
