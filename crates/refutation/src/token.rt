ghost use Rattle.std.specs.Prelude.{◌≡◌, ◌==◌, ◌^◌, ◌<◌, [], ◌∷◌, ◌++◌, length, slice_get, option_copied, OnOk, OnErr, OnSome, IfOk};
ghost use Rattle.std.specs.Iterator.Adapters.{IterYieldsInOrder};
ghost use Rattle.std.specs.Slice.Iter.{iter_rest};
ghost use Rattle.refutation.specs.declared.token.TreeToken.{TreeToken};

use cov_model::ParamNo;
use smallvec::SmallVec;
use std::alloc::Global;
use std::marker::Model;
use std::slice::Iter;
use std::sync::Arc;
use value_text::NoMemory;

/// A token of a refutation tree, which is written in preorder (this project's rule).
#[derive(Debug, Default, Drop, Clone, Copy, PartialEq, Eq)]
pub enum TreeToken {
    /// A branch on a parameter: a tree follows for each of its values in declared order, negative
    /// ones too.
    Branch(ParamNo),
    /// A leaf: the constraint of this number is false whatever values are added.
    ByRule(u32),
    /// A leaf: there is a negative value that isn't in the tuple.
    #[default]
    ByNegative,
    /// A leaf: the omission of this number, counted from 1, has a tuple that is contained.
    ByOmission(u32),
}

// Where the tokens of a tree stand: in a list of its own, or in one that several trees share.
#[derive(Drop)]
enum Tokens {
    Own(SmallVec<TreeToken, 2>),
    Shared(Arc<SmallVec<TreeToken, 2>>),
}

/// The tokens of a tree. Contracts see their list.
///
/// Most trees of a proof are a leaf, so a few tokens stand in the value itself; and most of the others are
/// the tree of the line before, so that lines share their tokens.
#[derive(Drop)]
pub struct TreeBuf {
    tokens: Tokens,
}

impl Model for TreeBuf {
    ghost use Rattle.std.specs.Prelude.{List};
    ghost use Rattle.refutation.specs.declared.token.TreeToken.{TreeToken};
    ghost use Rattle.refutation.specs.HeldTokens.{held_tokens};

    ghost Value = { List TreeToken };

    ghost view = { λ tree. held_tokens tree.tokens };
}

impl TreeBuf {
    /// No tokens. Takes no memory; the list keeps the allocator for what it is given later.
    pub fn new(alloc: Global) -> Self
        ensures { result ≡ [] }
    {
        TreeBuf {
            tokens: Tokens::Own(SmallVec::new(alloc)),
        }
    }

    /// These tokens, in order.
    ///
    /// # Errors
    ///
    /// `NoMemory` where there is no room.
    pub fn from_slice(alloc: Global, tokens: &[TreeToken]) -> Result<Self, NoMemory>
        ensures { IfOk result (λ tree. tree ≡ tokens.now) }
    {
        let list = SmallVec::from_slice(alloc, tokens)?;
        Ok(TreeBuf {
            tokens: Tokens::Own(list),
        })
    }

    // No tokens, with room for so many.
    pub(crate) fn with_room(alloc: Global, count: usize) -> Result<Self, NoMemory>
        ensures { IfOk result (λ tree. tree ≡ []) }
    {
        let tokens = SmallVec::with_capacity(alloc, count)?;
        Ok(TreeBuf {
            tokens: Tokens::Own(tokens),
        })
    }

    /// The same tree, whose tokens others can share if they don't stand in the value itself.
    ///
    /// # Errors
    ///
    /// `NoMemory` where there is no room.
    pub fn shareable(self, alloc: Global) -> Result<Self, NoMemory>
        ensures { IfOk result (λ tree. tree ≡ self) }
    {
        let tokens = match self.tokens {
            Tokens::Own(list) => {
                if list.spilled() {
                    Tokens::Shared(Arc::new(alloc, list)?)
                } else {
                    Tokens::Own(list)
                }
            }
            Tokens::Shared(list) => Tokens::Shared(list),
        };
        Ok(TreeBuf { tokens })
    }

    /// A copy of the tree, which shares its tokens if others can.
    ///
    /// # Errors
    ///
    /// `NoMemory` where there is no room.
    pub fn copy(&self, alloc: Global) -> Result<Self, NoMemory>
        ensures { IfOk result (λ tree. tree ≡ self.now) }
    {
        let tokens = match &self.tokens {
            Tokens::Own(list) => Tokens::Own(SmallVec::from_slice(alloc, list.as_slice())?),
            Tokens::Shared(list) => Tokens::Shared(Arc::try_clone(list)?),
        };
        Ok(TreeBuf { tokens })
    }

    /// The number of tokens. Takes no memory.
    pub fn len(&self) -> usize
        ensures { result ≡ length self.now }
    {
        self.as_slice().len()
    }

    /// Whether there is no token. Takes no memory.
    pub fn is_empty(&self) -> bool
        ensures { result ≡ (length self.now == 0) }
    {
        self.as_slice().is_empty()
    }

    /// The tokens, in order. Takes no memory.
    pub fn as_slice(&self) -> &[TreeToken]
        ensures { result.now ≡ self.now }
    {
        match &self.tokens {
            Tokens::Own(list) => list.as_slice(),
            Tokens::Shared(list) => list.as_slice(),
        }
    }

    /// The token at a place counted from 0; `None` exactly where the place is not below the number of
    /// tokens. Takes no memory.
    pub fn get(&self, at: usize) -> Option<&TreeToken>
        ensures value { option_copied result ≡ slice_get self.now at }
        ensures within { OnSome result (at < length self.now) }
    {
        self.as_slice().get(at)
    }

    /// The tokens, one after another. Takes no memory.
    pub fn iter(&self) -> Iter<'_, TreeToken>
        ensures rest { iter_rest result ≡ self.now }
        ensures bound { length (iter_rest result) < 2 ^ 64 }
        ensures runs { IterYieldsInOrder TreeToken }
    {
        self.as_slice().iter()
    }

    /// Adds a token at the end.
    ///
    /// # Errors
    ///
    /// `NoMemory` where there is no room; the tokens are then as before.
    pub fn push(&mut self, token: TreeToken) -> Result<(), NoMemory>
        ensures ok { OnOk result (self.new ≡ self.old ++ token ∷ []) }
        ensures err { OnErr result (self.new ≡ self.old) }
    {
        match &mut self.tokens {
            Tokens::Own(list) => list.push(token)?,
            Tokens::Shared(list) => {
                let mut own = SmallVec::from_slice(*list.allocator(), list.as_slice())?;
                own.push(token)?;
                self.tokens = Tokens::Own(own);
            }
        }
        Ok(())
    }
}
