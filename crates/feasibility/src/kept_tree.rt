ghost use Rattle.std.specs.Prelude.{◌≡◌, true, length, IfOk, OnOk, OnErr};
ghost use Rattle.std.specs.List.{list_all};
ghost use Rattle.refutation.specs.Proofs.{meant};
ghost use Rattle.feasibility.specs.KeptTrees.{is_free, no_tree};

use cov_model::Cells;
use refutation::{TreeBuf, TreeToken};
use std::alloc::Global;
use value_text::NoMemory;

// The tree that was made last for a proof in format 1, if one is known, and the tuple that it refutes.
#[derive(Drop)]
pub(crate) struct KeptTree {
    // Whether a tree is known.
    pub(crate) known: bool,
    // The values of its tuple.
    pub(crate) cells: Cells,
    // Its tokens.
    pub(crate) tree: TreeBuf,
}

// Whether a token isn't a branch on a parameter to which the cells give a value.
fn is_free(cells: &Cells, token: TreeToken) -> bool
    ensures { result ≡ is_free cells.now (meant token) }
{
    match token {
        TreeToken::Branch(p) => (p as usize) >= cells.len() || cells.get(p).is_none(),
        TreeToken::ByRule(_) | TreeToken::ByNegative | TreeToken::ByOmission(_) => true,
    }
}

impl KeptTree {
    // No tree, with room for a tuple of so many parameters.
    pub(crate) fn none(alloc: Global, count: usize) -> Result<KeptTree, NoMemory>
        ensures { IfOk result (λ kept. kept ≡ no_tree count) }
    {
        let cells = Cells::empty(alloc, count)?;
        Ok(KeptTree {
            known: false,
            cells,
            tree: TreeBuf::new(alloc),
        })
    }

    // Keeps a tree in place of the one that was known.
    pub(crate) fn keep(
        &mut self,
        alloc: Global,
        cells: &Cells,
        tree: &TreeBuf,
    ) -> Result<(), NoMemory>
        requires { length self.old.cells ≡ length cells.now }
        ensures ok { OnOk result (self.new ≡ record { known = true; cells = cells.now; tree = tree.now }) }
        ensures err { OnErr result (self.new ≡ self.old) }
    {
        let again = tree.copy(alloc)?;
        self.cells.copy_from(cells);
        self.tree = again;
        self.known = true;
        Ok(())
    }

    // Whether each branch of the tree is on a parameter to which the cells give no value.
    pub(crate) fn branches_freely(&self, cells: &Cells) -> bool
        ensures { result ≡ true → list_all (λ token. is_free cells.now (meant token)) self.now.tree ≡ true }
    {
        for token in self.tree.as_slice() {
            if !is_free(cells, *token) {
                return false;
            }
        }
        true
    }
}
