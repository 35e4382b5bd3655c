ghost use Rattle.std.specs.Prelude.{◌≡◌, ◌+◌, ◌<◌, ◌^◌, ◌++◌, ◌∷◌, [], All, length, filter_map, map, IfOk, OnOk};
ghost use Rattle.cov_model.specs.believed.Tuples.{cells_of};
ghost use Rattle.definitions.specs.believed.Seeds.{distinct};
ghost use Rattle.feasibility.specs.Refuting.{earlier_tuples};
ghost use Rattle.ipog_grow.specs.Asking.{Grows, first_spent};
ghost use Rattle.ipog_grow.specs.Completing.{completed};
ghost use Rattle.ipog_grow.specs.Omissions.{AreOmissionsOf, IsOmittedIn, IsOmittedTuple, IsTreeOf};
ghost use Rattle.feasibility.specs.Ends.{Ends};

use crate::asker::Asker;
use crate::completing::complete_rows;
use crate::question::fault_of;
use cov_model::{Rows, Tuple};
use feasibility::SearchFault;
use refutation::{Omission, Omissions, ProofForm, TreeBuf};
use std::alloc::Global;
use value_text::NoMemory;

// The tree of an omitted tuple of the slice after earlier omissions. It has no tokens where no proof is
// asked for.
fn tree_of(
    alloc: Global,
    asker: &mut Asker,
    proof: Option<ProofForm>,
    tuple: &Tuple,
    earlier: &Omissions,
) -> Result<TreeBuf, NoMemory>
    requires omitted { IsOmittedIn asker.old.context (cells_of (length asker.old.context.model.params) tuple.now) }
    requires earlier { AreOmissionsOf asker.old.context.model asker.old.context.prefs asker.old.context.effort proof earlier.now }
    requires few { length earlier.now.omissions < 2 ^ 32 }
    ensures tree { IfOk result (IsTreeOf asker.old.context.model asker.old.context.prefs asker.old.context.effort proof
        (earlier_tuples asker.old.context.model earlier.now) (cells_of (length asker.old.context.model.params) tuple.now)) }
    ensures same { asker.new.context ≡ asker.old.context }
{
    match proof {
        Some(_) => asker.refute(alloc, tuple, earlier),
        None => Ok(TreeBuf::new(alloc)),
    }
}

// Puts an omitted tuple of the slice behind earlier omissions, with its tree.
fn push_omission(
    alloc: Global,
    asker: &mut Asker,
    proof: Option<ProofForm>,
    tuple: Tuple,
    into: &mut Omissions,
) -> Result<(), NoMemory>
    requires omitted { IsOmittedTuple asker.old.context tuple }
    requires earlier { AreOmissionsOf asker.old.context.model asker.old.context.prefs asker.old.context.effort proof into.old }
    requires few { length into.old.omissions < 2 ^ 32 }
    ensures tuples { OnOk result (earlier_tuples asker.old.context.model into.new
        ≡ earlier_tuples asker.old.context.model into.old ++ cells_of (length asker.old.context.model.params) tuple ∷ []) }
    ensures omissions { OnOk result (AreOmissionsOf asker.old.context.model asker.old.context.prefs asker.old.context.effort proof into.new) }
    ensures same { asker.new.context ≡ asker.old.context }
{
    asker.assert_invariant();
    let tree = tree_of(alloc, asker, proof, &tuple, into)?;
    into.push(Omission { tuple, tree })
}

// Puts the omitted tuples of a slice behind earlier omissions, each with its tree.
fn push_omitted(
    alloc: Global,
    asker: &mut Asker,
    proof: Option<ProofForm>,
    omitted: Vec<Tuple>,
    into: &mut Omissions,
) -> Result<(), NoMemory>
    requires omitted { All (IsOmittedTuple asker.old.context) omitted.items }
    requires earlier { AreOmissionsOf asker.old.context.model asker.old.context.prefs asker.old.context.effort proof into.old }
    requires few { length into.old.omissions + length omitted.items < 2 ^ 32 }
    ensures tuples { OnOk result (earlier_tuples asker.old.context.model into.new
        ≡ earlier_tuples asker.old.context.model into.old ++ map (cells_of (length asker.old.context.model.params)) omitted.items) }
    ensures omissions { OnOk result (AreOmissionsOf asker.old.context.model asker.old.context.prefs asker.old.context.effort proof into.new) }
{
    for tuple in omitted {
        push_omission(alloc, asker, proof, tuple, into)?;
    }
    Ok(())
}

// Ends the growth of a slice after its last column: completes the grown rows, and puts them and the
// omitted tuples behind those of earlier slices.
pub(crate) fn finish_slice(
    alloc: Global,
    asker: &mut Asker,
    proof: Option<ProofForm>,
    grown: Rows,
    omitted: Vec<Tuple>,
    rows: &mut Rows,
    omissions: &mut Omissions,
) -> Result<(), SearchFault>
    requires grows { All (Grows asker.old.context) grown }
    requires omitted { All (IsOmittedTuple asker.old.context) omitted.items }
    requires earlier { AreOmissionsOf asker.old.context.model asker.old.context.prefs asker.old.context.effort proof omissions.old }
    requires few { length omissions.old.omissions + length omitted.items < 2 ^ 32 }
    requires long { All (λ row. length row ≡ length asker.old.context.model.params) rows.old }
    ensures rows { OnOk result (rows.new ≡ rows.old ++ distinct (filter_map (completed asker.old.context) grown)) }
    ensures long { OnOk result (All (λ row. length row ≡ length asker.old.context.model.params) rows.new) }
    ensures tuples { OnOk result (earlier_tuples asker.old.context.model omissions.new
        ≡ earlier_tuples asker.old.context.model omissions.old ++ map (cells_of (length asker.old.context.model.params)) omitted.items) }
    ensures omissions { OnOk result (AreOmissionsOf asker.old.context.model asker.old.context.prefs asker.old.context.effort proof omissions.new) }
    ensures asked { Ends result (first_spent asker.old.context grown) }
{
    asker.assert_invariant();
    if let Err(stop) = complete_rows(alloc, asker, grown, rows) {
        return Err(fault_of(alloc, stop, asker.question()));
    }
    match push_omitted(alloc, asker, proof, omitted, omissions) {
        Ok(()) => Ok(()),
        Err(_) => Err(SearchFault::NoMemory),
    }
}
