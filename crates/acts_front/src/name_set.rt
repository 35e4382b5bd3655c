ghost use Rattle.std.specs.Prelude.{◌≡◌, ◌<◌, [], ◌∷◌, ◌++◌, length, false, map, IfOk, IfSome, OnOk, OnErr};
ghost use Rattle.value_text.specs.believed.Texts.{folded};
ghost use Rattle.model_parse.specs.ValueSteps.{is_known, place_of};
ghost use Rattle.acts_front.specs.believed.ParameterLines.{has_repeated};

use indexmap::IndexSet;
use std::alloc::Global;
use std::marker::Model;
use value_text::NoMemory;

/// Distinct names in the order in which they came, each kept as the case rule compares it. Contracts see the list
/// of these texts.
#[derive(Drop)]
pub(crate) struct NameSet {
    keys: IndexSet<Vec<u8>>,
}

impl Model for NameSet {
    ghost use Rattle.std.specs.Prelude.{List, ℕ, map};

    ghost Value = { List (List ℕ) };

    ghost view = { λ names. map (λ key. key.items) names.keys.keys };
}

// A name as the case rule compares it.
fn folded(alloc: Global, name: &[u8], fold: bool) -> Result<Vec<u8>, NoMemory>
    ensures { IfOk result (λ key. key.items ≡ folded fold name.now) }
{
    if fold {
        Ok(name.to_ascii_lowercase(alloc)?)
    } else {
        Ok(Vec::from_slice(alloc, name)?)
    }
}

impl NameSet {
    /// No names.
    pub(crate) fn new(alloc: Global) -> NameSet
        ensures { result ≡ [] }
    {
        NameSet {
            keys: IndexSet::new(alloc),
        }
    }

    /// Whether a name is among them.
    pub(crate) fn holds(&self, alloc: Global, name: &[u8], fold: bool) -> Result<bool, NoMemory>
        ensures { IfOk result (λ known. known ≡ is_known fold self.now name.now) }
    {
        let place = self.place(alloc, name, fold)?;
        Ok(place.is_some())
    }

    /// The place of a name, from 0; `None` exactly where it isn't among them.
    pub(crate) fn place(
        &self,
        alloc: Global,
        name: &[u8],
        fold: bool,
    ) -> Result<Option<usize>, NoMemory>
        ensures value { IfOk result (λ place. place ≡ place_of fold self.now name.now) }
        ensures within { IfOk result (λ place. IfSome place (λ p. p < length self.now)) }
    {
        let key = folded(alloc, name, fold)?;
        Ok(self.keys.get_index_of(&key))
    }

    /// Adds a name that isn't among them. Where memory is refused, they stay as they are.
    pub(crate) fn add(&mut self, alloc: Global, name: &[u8], fold: bool) -> Result<(), NoMemory>
        requires { is_known fold self.old name.now ≡ false }
        ensures added { OnOk result (self.new ≡ self.old ++ folded fold name.now ∷ []) }
        ensures refused { OnErr result (self.new ≡ self.old) }
    {
        let key = folded(alloc, name, fold)?;
        self.keys.insert(key)?;
        Ok(())
    }
}

// Whether one of some texts is the same as an earlier one. The set is empty at first, and keeps those so far.
fn is_one_known(
    alloc: Global,
    texts: &[&[u8]],
    fold: bool,
    earlier: &mut NameSet,
) -> Result<bool, NoMemory>
    requires { earlier.old ≡ [] }
    ensures { IfOk result (λ repeated. repeated ≡ has_repeated fold [] (map (λ text. text.now) texts.now)) }
{
    for text in texts {
        if earlier.holds(alloc, text, fold)? {
            return Ok(true);
        }
        earlier.add(alloc, text, fold)?;
    }
    Ok(false)
}

/// Whether one of some texts is the same as an earlier one.
pub(crate) fn has_repeated(alloc: Global, texts: &[&[u8]], fold: bool) -> Result<bool, NoMemory>
    ensures { IfOk result (λ repeated. repeated ≡ has_repeated fold [] (map (λ text. text.now) texts.now)) }
{
    let mut earlier = NameSet::new(alloc);
    is_one_known(alloc, texts, fold, &mut earlier)
}
