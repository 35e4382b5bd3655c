ghost use Rattle.std.specs.Prelude.{◌≡◌, ◌==◌, [], ◌∷◌, ◌++◌, false, length, IfOk, OnOk};
ghost use Rattle.acts_front.specs.believed.ParameterLines.{is_declared, kind_named};

use crate::kind::Kind;
use crate::name_set::NameSet;
use std::alloc::Global;
use std::marker::Model;
use value_text::NoMemory;

/// The parameters that lines declare, to be looked up by their names under the case rule. Contracts see the list of
/// the names, as they were declared, with the types, and whether letters of either case are one.
#[derive(Drop)]
pub(crate) struct Scope<'a> {
    fold: bool,
    declared: Vec<(&'a [u8], Kind)>,
    names: NameSet,
}

impl<'a> Model for Scope<'a> {
    ghost use Rattle.std.specs.Prelude.{◌≡◌, map};
    ghost use Rattle.value_text.specs.believed.Texts.{folded};
    ghost use Rattle.acts_front.specs.believed.ParameterLines as lines;

    ghost Value = { lines.Scope };

    ghost view = { λ scope. record { fold = scope.fold; params = map (λ param. record { name = param.0.now; kind = param.1 }) scope.declared.items } };

    ghost invariant = { λ scope. scope.names ≡ map (λ param. folded scope.fold param.0.now) scope.declared.items };
}

impl<'a> Scope<'a> {
    /// No parameters.
    pub(crate) fn new(alloc: Global, fold: bool) -> Scope<'a>
        ensures { result ≡ record { fold = fold; params = [] } }
    {
        Scope {
            fold,
            declared: Vec::new(alloc),
            names: NameSet::new(alloc),
        }
    }

    /// Whether none are declared.
    pub(crate) fn is_empty(&self) -> bool
        ensures { result ≡ (length self.now.params == 0) }
    {
        self.declared.is_empty()
    }

    /// Whether letters of either case are one.
    pub(crate) fn fold(&self) -> bool
        ensures { result ≡ self.now.fold }
    {
        self.fold
    }

    /// Whether a parameter of a name is declared.
    pub(crate) fn declares(&self, alloc: Global, name: &[u8]) -> Result<bool, NoMemory>
        ensures { IfOk result (λ known. known ≡ is_declared self.now name.now) }
    {
        let known = self.names.holds(alloc, name, self.fold)?;
        Ok(known)
    }

    /// The type of the parameter of a name, where it is declared.
    pub(crate) fn kind(&self, alloc: Global, name: &[u8]) -> Result<Option<Kind>, NoMemory>
        ensures { IfOk result (λ kind. kind ≡ kind_named self.now name.now) }
    {
        match self.names.place(alloc, name, self.fold)? {
            Some(place) => Ok(Some(self.declared[place].1)),
            None => Ok(None),
        }
    }

    /// Adds a parameter, of a name that isn't declared.
    pub(crate) fn add(&mut self, alloc: Global, name: &'a [u8], kind: Kind) -> Result<(), NoMemory>
        requires { is_declared self.old name.now ≡ false }
        ensures { OnOk result (self.new ≡ record self.old { params = self.old.params ++ record { name = name.now; kind = kind } ∷ [] }) }
    {
        self.declared.push((name, kind))?;
        let fold = self.fold;
        let added = self.names.add(alloc, name, fold);
        if added.is_err() {
            self.declared.pop();
        }
        added
    }
}
