ghost use Rattle.std.specs.Prelude.{◌≡◌, [], ◌∷◌, ◌++◌, length, position, IfOk, IfSome, OnOk, false, ◌<◌};
ghost use Rattle.std.specs.Str.{bytes_eq};
ghost use Rattle.value_text.specs.believed.Texts.{folded};
ghost use Rattle.model_parse.specs.ValueSteps.{is_known, place_of};

use indexmap::IndexSet;
use std::alloc::Global;
use std::marker::Model;
use value_text::NoMemory;

/// Distinct names in the order in which they came, each kept as the case rule compares it. Contracts
/// see the list of these texts.
#[derive(Drop)]
pub struct NameSet {
    keys: IndexSet<Vec<u8>>,
}

impl Model for NameSet {
    ghost use Rattle.std.specs.Prelude.{List, ℕ, map};

    ghost Value = { List (List ℕ) };

    ghost view = { λ names. map (λ key. key.items) names.keys.keys };
}

// A name as the case rule compares it.
fn folded(alloc: Global, name: &str, fold: bool) -> Result<Vec<u8>, NoMemory>
    ensures { IfOk result (λ key. key.items ≡ folded fold name.now) }
{
    let bytes = name.as_bytes();
    if fold {
        Ok(bytes.to_ascii_lowercase(alloc)?)
    } else {
        Ok(Vec::from_slice(alloc, bytes)?)
    }
}

impl NameSet {
    /// No names.
    pub fn new(alloc: Global) -> NameSet
        ensures { result ≡ [] }
    {
        NameSet {
            keys: IndexSet::new(alloc),
        }
    }

    /// Whether a name is among them.
    pub fn holds(&self, alloc: Global, name: &str, fold: bool) -> Result<bool, NoMemory>
        ensures { IfOk result (λ known. known ≡ is_known fold self.now name.now) }
    {
        let key = folded(alloc, name, fold)?;
        Ok(self.keys.contains(&key))
    }

    /// The place of a name, from 0; `None` exactly where it isn't among them.
    pub fn place(&self, alloc: Global, name: &str, fold: bool) -> Result<Option<usize>, NoMemory>
        ensures value { IfOk result (λ place. place ≡ place_of fold self.now name.now) }
        ensures within { IfOk result (λ place. IfSome place (λ p. p < length self.now)) }
    {
        let key = folded(alloc, name, fold)?;
        Ok(self.keys.get_index_of(&key))
    }

    /// Adds a name that isn't among them.
    pub fn add(&mut self, alloc: Global, name: &str, fold: bool) -> Result<(), NoMemory>
        requires { is_known fold self.old name.now ≡ false }
        ensures { OnOk result (self.new ≡ self.old ++ folded fold name.now ∷ []) }
    {
        let key = folded(alloc, name, fold)?;
        self.keys.insert(key)?;
        Ok(())
    }
}
