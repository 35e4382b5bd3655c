ghost use Rattle.std.specs.Prelude.{◌≡◌, ◌==◌, ◌^◌, ◌<◌, ◌++◌, ◌∷◌, [], true, All, length, slice_get, option_copied, IfOk, OnOk, OnErr};
ghost use Rattle.std.specs.Iterator.Adapters.{IterYieldsInOrder};
ghost use Rattle.std.specs.Slice.Iter.{iter_rest};
ghost use Rattle.refutation.specs.declared.omissions.Omission.{Omission};
ghost use Rattle.refutation.specs.Holders.{EndsWithin, ListsEnding, NeverFalls};

use crate::holders::{Holders, least_width};
use crate::token::TreeBuf;
use cov_model::{ParamNo, Tuple, ValueNo};
use std::alloc::Global;
use std::marker::Model;
use std::slice::Iter;
use value_text::NoMemory;

/// The form of a proof, which its first line gives as a format (this project's rule).
#[derive(Debug, Drop, Clone, Copy, PartialEq, Eq)]
pub enum ProofForm {
    /// Trees stand on constraints and negative values alone.
    One,
    /// Trees may cite earlier omissions too.
    Two,
}

impl ProofForm {
    ghost use Rattle.refutation.specs.believed.Proofs.{format_of};

    // Whether trees may cite earlier omissions.
    pub(crate) fn may_cite(self) -> bool
        ensures { result ≡ (format_of self == 2) }
    {
        match self {
            ProofForm::One => false,
            ProofForm::Two => true,
        }
    }
}

/// A tuple that no row serves, with the tree that refutes it.
#[derive(Drop)]
pub struct Omission {
    /// The tuple.
    pub tuple: Tuple,
    /// The tokens of its tree.
    pub tree: TreeBuf,
}

/// A proof: its form, and the omitted tuples with their trees, in order. Contracts see both. For each
/// pair of a parameter and a value it keeps the numbers of the omissions whose tuples end with it, and
/// for all tuples how many parameters a model has at least that has theirs.
#[derive(Drop)]
pub struct Omissions {
    alloc: Global,
    form: ProofForm,
    listed: Vec<Omission>,
    holders: Holders,
    width: u32,
}

impl Model for Omissions {
    ghost use Rattle.refutation.specs.Holders.{AreHolders};
    ghost use Rattle.refutation.specs.Proofs.{ProofView};

    ghost Value = { ProofView };

    ghost view = { λ a. record { form = a.form; omissions = a.listed.items } };

    ghost invariant = { λ a. AreHolders a.listed.items a.holders a.width };
}

impl Omissions {
    /// A proof of this form without omissions. Takes no memory.
    pub fn empty(alloc: Global, form: ProofForm) -> Omissions
        ensures { result ≡ record { form = form; omissions = [] } }
    {
        Omissions {
            alloc,
            form,
            listed: Vec::new(alloc),
            holders: Holders::new(alloc),
            width: 0,
        }
    }

    // A proof of this form without omissions, with room for so many.
    pub(crate) fn with_room(
        alloc: Global,
        form: ProofForm,
        count: usize,
    ) -> Result<Omissions, NoMemory>
        ensures { IfOk result (λ proof. proof ≡ record { form = form; omissions = [] }) }
    {
        let listed = Vec::with_capacity(alloc, count)?;
        Ok(Omissions {
            alloc,
            form,
            listed,
            holders: Holders::new(alloc),
            width: 0,
        })
    }

    /// The form. Takes no memory.
    pub fn form(&self) -> ProofForm
        ensures { result ≡ self.now.form }
    {
        self.form
    }

    /// The number of omissions. Takes no memory.
    pub fn len(&self) -> usize
        ensures { result ≡ length self.now.omissions }
    {
        self.listed.len()
    }

    /// Whether there is no omission. Takes no memory.
    pub fn is_empty(&self) -> bool
        ensures { result ≡ (length self.now.omissions == 0) }
    {
        self.listed.is_empty()
    }

    /// The omission at a place, counted from 0, or `None` at and behind the end. Takes no memory.
    pub fn get(&self, i: usize) -> Option<&Omission>
        ensures { option_copied result ≡ slice_get self.now.omissions i }
    {
        self.listed.get(i)
    }

    /// The omissions in order. Takes no memory.
    pub fn as_slice(&self) -> &[Omission]
        ensures { result.now ≡ self.now.omissions }
    {
        self.listed.as_slice()
    }

    /// The omissions, one after another. Takes no memory.
    pub fn iter(&self) -> Iter<'_, Omission>
        ensures rest { iter_rest result ≡ self.now.omissions }
        ensures bound { length (iter_rest result) < 2 ^ 64 }
        ensures runs { IterYieldsInOrder Omission }
    {
        self.listed.iter()
    }

    /// Numbers, counted from 1 and never falling, among which is that of each omission whose tuple ends
    /// with the pair. Takes no memory.
    pub fn numbers_ending(&self, p: ParamNo, v: ValueNo) -> &[u32]
        ensures rising { NeverFalls result.now }
        ensures each { ListsEnding self.now.omissions p v result.now }
    {
        self.holders.list(p, v)
    }

    /// Whether each tuple is known to have a pair, and no parameter but the first `count`. Takes no
    /// memory.
    pub fn are_within(&self, count: ParamNo) -> bool
        ensures { result ≡ true → All (λ omission. EndsWithin count omission.tuple) self.now.omissions }
    {
        self.width <= count as u32
    }

    /// Adds an omission at the end.
    ///
    /// # Errors
    ///
    /// `NoMemory` where there is no room, or no number of 32 bits is left; the proof is then as before.
    pub fn push(&mut self, omission: Omission) -> Result<(), NoMemory>
        ensures ok { OnOk result (self.new ≡ record { form = self.old.form; omissions = self.old.omissions ++ omission ∷ [] }) }
        ensures err { OnErr result (self.new ≡ self.old) }
    {
        let Ok(number) = u32::try_from(self.listed.len() + 1) else {
            return Err(NoMemory);
        };
        let width = self.width.max(least_width(&omission.tuple));
        self.holders
            .add(self.alloc, omission.tuple.as_slice(), number)?;
        self.listed.push(omission)?;
        self.width = width;
        Ok(())
    }
}
