ghost use Rattle.std.specs.Prelude.{◌≡◌, ◌≤◌, ◌<◌, ◌^◌, true, length, map, Err, OnOk, OnErr};
ghost use Rattle.cov_model.specs.believed.Slices.{slice_of};
ghost use Rattle.definitions.specs.believed.Covering.{IsUnserved};
ghost use Rattle.cov_model.specs.believed.Tuples.{cells_of};
ghost use Rattle.definitions.specs.believed.Refutation.{is_eager};
ghost use Rattle.definitions.specs.believed.Search.{plain_cost};
ghost use Rattle.definitions.specs.SliceRows.{IsOfSlice};
ghost use Rattle.definitions.specs.believed.SuiteProof.{branch_count};
ghost use Rattle.refutation.specs.believed.Proofs.{format_of};
ghost use Rattle.refutation.specs.Proofs.{meant};
ghost use Rattle.feasibility.specs.Refuting.{earlier_tuples};

use crate::answer::RefuteFault;
use crate::refuter::Refuter;
use crate::solver::Solver;
use cov_model::Tuple;
use refutation::{Omissions, TreeBuf};

impl<'a> Solver<'a> {
    /// Refutes a tuple of the slice which no row serves: the tokens become an eager tree after the
    /// tuples of the earlier omissions, in their form, with no more branches than the plain cost of
    /// the tuple. In a negative slice the tuple gives its negative value.
    ///
    /// # Errors
    ///
    /// `Spent` exactly where the plain cost of the tuple exceeds the budget, `NoMemory` where there
    /// is no room. The tokens are then as before.
    pub fn refute(
        &mut self,
        tuple: &Tuple,
        budget: u64,
        earlier: &Omissions,
        into: &mut TreeBuf,
    ) -> Result<(), RefuteFault>
        requires of { IsOfSlice self.old.model self.old.slice (cells_of (length self.old.model.params) tuple.now) }
        requires slice { slice_of self.old.model (cells_of (length self.old.model.params) tuple.now) ≡ self.old.slice }
        requires unserved { IsUnserved self.old.model (cells_of (length self.old.model.params) tuple.now) }
        requires few { length earlier.now.omissions < 2 ^ 32 }
        ensures eager { OnOk result (is_eager self.old.model (format_of earlier.now.form) (earlier_tuples self.old.model earlier.now)
            (cells_of (length self.old.model.params) tuple.now) (map meant into.new) ≡ true) }
        ensures branches { OnOk result (branch_count (map meant into.new)
            ≤ plain_cost self.old.model self.old.prefs self.old.slice (cells_of (length self.old.model.params) tuple.now)) }
        ensures within { OnOk result (plain_cost self.old.model self.old.prefs self.old.slice (cells_of (length self.old.model.params) tuple.now) ≤ budget) }
        ensures spent { result ≡ Err RefuteFault.Spent
            → budget < plain_cost self.old.model self.old.prefs self.old.slice (cells_of (length self.old.model.params) tuple.now) }
        ensures kept { OnErr result (into.new ≡ into.old) }
        ensures same { self.new ≡ self.old }
    {
        self.tree.assert_invariant();
        let refuter = Refuter::new(&self.tree, self.slice, tuple, earlier);
        *into = refuter.tree_of(
            self.alloc,
            self.fails,
            budget,
            &mut self.room,
            &mut self.sets,
            &self.answered,
            &mut self.kept,
        )?;
        Ok(())
    }
}
