ghost use Rattle.std.specs.Prelude.{All, replicate, None, ◌≡◌, ◌≢◌, ◌<◌, ◌^◌, true, false, Some, length, map, IfOk, OnOk, OnErr};
ghost use Rattle.cov_model.specs.Preference.{OrdersValues};
ghost use Rattle.cov_model.specs.believed.Slices.{slice_of};
ghost use Rattle.definitions.specs.believed.Completion.{first_completion, is_extendable};
ghost use Rattle.definitions.specs.believed.Covering.{IsUnserved};
ghost use Rattle.definitions.specs.believed.Demand.{is_among};
ghost use Rattle.cov_model.specs.believed.Tuples.{cells_of};
ghost use Rattle.definitions.specs.believed.Refutation.{is_eager};
ghost use Rattle.definitions.specs.believed.Search.{constrained_params};
ghost use Rattle.definitions.specs.SliceRows.{IsOfSlice, IsSliceOf};
ghost use Rattle.feasibility.specs.Refuting.{earlier_tuples};
ghost use Rattle.refutation.specs.believed.Proofs.{format_of};
ghost use Rattle.refutation.specs.Proofs.{meant};

use crate::closing::close_tuple;
use crate::completing::complete_row;
use crate::conflicts::Conflicts;
use crate::finding::find_row;
use crate::witness::Witness;
use cov_model::{Cells, ParamNo, Prefs, Slice, TestModel, Tuple};
use definitions::Effort;
use feasibility::{Refuter, SearchTree};
use live_sets::LiveSets;
use refutation::{Omissions, TreeBuf, TreeToken};
use std::alloc::Global;
use std::marker::Model;
use value_text::NoMemory;

// A search of one slice that answers every question. Contracts see the model, the preference orders and the slice,
// and no call changes them.
#[derive(Drop)]
pub(crate) struct FullSearch<'a> {
    alloc: Global,
    tree: SearchTree<'a>,
    prefs: &'a Prefs,
    slice: Slice,
    // The path.
    room: Cells,
    // The values that are live where no parameter has a value, or why that node fails.
    sets: LiveSets,
    // Whether it fails.
    fails: bool,
    // The row that the search is at.
    witness: Witness,
    // Room for a row that is kept.
    saved: Cells,
    // Room for the reasons of the nodes of a path.
    whys: Vec<Cells>,
    // Conflicts that were met.
    conflicts: Conflicts,
    // Room for the tokens of a tree.
    tokens: Vec<TreeToken>,
}

impl<'a> Model for FullSearch<'a> {
    ghost use Rattle.std.specs.Coded.{codes};
    ghost use Rattle.cov_model.specs.contracts.model.TestModel as tested;
    ghost use Rattle.feasibility.specs.Solving.{SolverView};
    ghost use Rattle.full_search.specs.FullSearch.{IsFullSearch};

    ghost Value = { SolverView };

    ghost coded = { Prim.hlevel (codes, tested.the_row.coded) };

    ghost view = { λ a. record { model = a.tree.model; prefs = a.prefs.now; slice = a.slice } };

    ghost invariant = { λ a. IsFullSearch (record { model = a.tree.model; prefs = a.prefs.now; slice = a.slice }) a.tree.values a.room a.fails a.sets
        a.witness a.saved a.whys.items a.conflicts };
}

// Room for so many partial rows of so many parameters.
fn rows_of(alloc: Global, rows: usize, count: usize) -> Result<Vec<Cells>, NoMemory>
    ensures { IfOk result (λ list. list.items ≡ replicate rows (replicate count None)) }
{
    let mut list = Vec::new(alloc);
    while list.len() < rows {
        let row = Cells::empty(alloc, count)?;
        list.push(row)?;
    }
    Ok(list)
}

impl<'a> FullSearch<'a> {
    // A search for this slice of the model, which has to be one of the model's; the preferences have to be the
    // model's too. All room that questions need is taken here.
    pub(crate) fn new(
        alloc: Global,
        model: &'a TestModel,
        prefs: &'a Prefs,
        slice: Slice,
    ) -> Result<FullSearch<'a>, NoMemory>
        requires slice { IsSliceOf model.now slice }
        requires orders { OrdersValues model.now prefs.now }
        ensures { IfOk result (λ search. search ≡ record { model = model.now; prefs = prefs.now; slice = slice }) }
    {
        let tree = SearchTree::new(alloc, model, prefs, slice)?;
        let count = model.params().len();
        let mut room = Cells::empty(alloc, count)?;
        let mut sets = tree.listed_sets(alloc)?;
        let fails = tree.begin(&mut room, &mut sets);
        let witness = Witness::new(alloc, &tree)?;
        let saved = Cells::empty(alloc, count)?;
        let whys = rows_of(alloc, count + 1, count)?;
        let conflicts = Conflicts::new(alloc)?;
        Ok(FullSearch {
            alloc,
            tree,
            prefs,
            slice,
            room,
            sets,
            fails,
            witness,
            saved,
            whys,
            conflicts,
            tokens: Vec::new(alloc),
        })
    }

    // Whether a constraint of the model names a parameter.
    pub(crate) fn is_constrained(&self, p: ParamNo) -> bool
        ensures { result ≡ is_among (constrained_params self.now.model) p }
    {
        self.tree.is_constrained(p)
    }

    // Whether a partial row of the slice is extendable there.
    pub(crate) fn decide(&mut self, cells: &Cells) -> bool
        requires { IsOfSlice self.old.model self.old.slice cells.now }
        ensures answer { result ≡ is_extendable self.old.model self.old.slice cells.now }
        ensures same { self.new ≡ self.old }
    {
        self.tree.assert_invariant();
        if !self.fails {
            if let Some(found) = self.tree.found_at_once(cells, Effort::Full) {
                return found;
            }
        }
        find_row(
            &self.tree,
            self.fails,
            cells,
            &mut self.room,
            &mut self.sets,
            &mut self.witness,
            self.whys.as_mut_slice(),
            &mut self.conflicts,
        )
    }

    // Completes a partial row of the slice. Where it is extendable, the other cells become the first of its
    // completions in preference order that meets every constraint; else they are as before.
    pub(crate) fn complete(&mut self, cells: &Cells, into: &mut Cells) -> bool
        requires of { IsOfSlice self.old.model self.old.slice cells.now }
        requires long { length into.old ≡ length self.old.model.params }
        ensures answer { result ≡ is_extendable self.old.model self.old.slice cells.now }
        ensures completed { result ≡ true → Some into.new ≡ first_completion self.old.model self.old.prefs self.old.slice cells.now }
        ensures kept { result ≡ false → into.new ≡ into.old }
        ensures long { length into.new ≡ length into.old }
        ensures same { self.new ≡ self.old }
    {
        let found = find_row(
            &self.tree,
            self.fails,
            cells,
            &mut self.room,
            &mut self.sets,
            &mut self.witness,
            self.whys.as_mut_slice(),
            &mut self.conflicts,
        );
        if !found {
            return false;
        }
        complete_row(
            &self.tree,
            cells,
            into,
            &mut self.sets,
            &mut self.witness,
            &mut self.saved,
            self.whys.as_mut_slice(),
        );
        true
    }

    // Refutes a tuple of the slice which no row serves: the tokens become an eager tree after the tuples of the
    // earlier omissions, in their form. In a negative slice the tuple gives its negative value.
    pub(crate) fn refute(
        &mut self,
        tuple: &Tuple,
        earlier: &Omissions,
        into: &mut TreeBuf,
    ) -> Result<(), NoMemory>
        requires of { IsOfSlice self.old.model self.old.slice (cells_of (length self.old.model.params) tuple.now) }
        requires slice { slice_of self.old.model (cells_of (length self.old.model.params) tuple.now) ≡ self.old.slice }
        requires unserved { IsUnserved self.old.model (cells_of (length self.old.model.params) tuple.now) }
        requires few { length earlier.now.omissions < 2 ^ 32 }
        ensures eager { OnOk result (is_eager self.old.model (format_of earlier.now.form) (earlier_tuples self.old.model earlier.now)
            (cells_of (length self.old.model.params) tuple.now) (map meant into.new) ≡ true) }
        ensures kept { OnErr result (into.new ≡ into.old) }
        ensures same { self.new ≡ self.old }
    {
        self.tree.assert_invariant();
        let refuter = Refuter::new(&self.tree, self.slice, tuple, earlier);
        refuter.begin(&mut self.room);
        self.tokens.clear();
        close_tuple(
            &refuter,
            self.fails,
            &mut self.room,
            &mut self.sets,
            &mut self.witness,
            self.whys.as_mut_slice(),
            &mut self.tokens,
        )?;
        *into = TreeBuf::from_slice(self.alloc, self.tokens.as_slice())?;
        Ok(())
    }
}
