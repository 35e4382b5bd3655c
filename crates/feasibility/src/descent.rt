ghost use Rattle.std.specs.Prelude.{◌≡◌, ◌<◌, true, length, slice_index_or, [], ◌+◌, IfSome};
ghost use Rattle.cov_model.specs.believed.Rows.{is_assigned};
ghost use Rattle.definitions.specs.believed.Search.{constrained_params, visit};
ghost use Rattle.live_sets.specs.Trail.{IsSince};
ghost use Rattle.feasibility.specs.Answers.{VisitTells};
ghost use Rattle.feasibility.specs.Descent.{ComesTo, IsFirstLive, IsNode};
ghost use Rattle.feasibility.specs.Live.{HasShape};
ghost use Rattle.feasibility.specs.Path.{reached};
ghost use Rattle.feasibility.specs.Tree.{constrained_from};

use crate::answer::Answer;
use crate::tree::SearchTree;
use crate::visiting::visit_nodes;
use cov_model::{Cells, ParamNo};
use live_sets::LiveSets;

impl<'a> SearchTree<'a> {
    // The place of a parameter's first live value among those that are tried.
    fn first_live(&self, p: ParamNo, sets: &LiveSets) -> Option<usize>
        requires parameter { p < length self.now.model.params }
        requires shape { HasShape self.now.model sets.now.live }
        ensures { IfSome result (IsFirstLive sets.now.live p (slice_index_or self.now.values p [])) }
    {
        self.assert_invariant();
        let values = self.values_of(p);
        for k in 0..values.len() {
            if sets.is_live(p, values[k]) {
                return Some(k);
            }
        }
        None
    }

    // Gives the constrained parameter at a place, if it has no value, the first live one. How many nodes a
    // search visits for that, unless the node fails then.
    fn descend_at(&self, i: usize, cells: &mut Cells, sets: &mut LiveSets) -> Option<u64>
        requires place { i < length (constrained_params self.now.model) }
        requires node { IsNode self.now cells.old sets.old }
        ensures comes { IfSome result (ComesTo self.now (constrained_from self.now.model i) (constrained_from self.now.model (i + 1)) cells.old cells.new) }
        ensures node { IfSome result (λ _. IsNode self.now cells.new sets.new) }
        ensures since { IsSince sets.old sets.new }
        ensures long { length cells.new ≡ length cells.old }
    {
        self.assert_invariant();
        let p = self.constrained_at(i).param;
        if cells.get(p).is_some() {
            return Some(0);
        }
        let k = self.first_live(p, sets)?;
        let v = self.values_of(p)[k];
        if !self.enter(i, v, cells, sets) {
            return None;
        }
        Some(k as u64 + 1)
    }

    // Gives each constrained parameter without a value the first live one. How many nodes a search visits
    // so, unless one of them fails.
    fn descend(&self, cells: &mut Cells, sets: &mut LiveSets) -> Option<u64>
        requires node { IsNode self.now cells.old sets.old }
        ensures found { IfSome result (λ count. visit self.now.model self.now.values (constrained_params self.now.model) cells.old ≡ record { found = true; cost = count }) }
        ensures path { IfSome result (λ _. cells.new ≡ reached self.now.model self.now.values (constrained_params self.now.model) cells.old) }
        ensures since { IsSince sets.old sets.new }
        ensures long { length cells.new ≡ length cells.old }
    {
        let mut count = 1u64;
        for i in 0..self.constrained_len() {
            let nodes = self.descend_at(i, cells, sets)?;
            count = count.checked_add(nodes)?;
        }
        Some(count)
    }

    // Visits the node of the cells in the room: straight on, and where a node fails then from the cells anew.
    pub(crate) fn visit_node(
        &self,
        cells: &Cells,
        room: &mut Cells,
        sets: &mut LiveSets,
        left: &mut u64,
    ) -> Answer
        requires node { IsNode self.now cells.now sets.old }
        requires same { room.old ≡ cells.now }
        ensures told { VisitTells self.now (constrained_params self.now.model) cells.now cells.now room.new left.old left.new result }
        ensures sets { sets.new ≡ sets.old }
    {
        let len = sets.trail_len();
        let descent = self.descend(room, sets);
        sets.undo(len);
        if let Some(count) = descent {
            return visit_nodes(true, count, left);
        }
        room.copy_from(cells);
        self.visit(0, room, sets, left)
    }
}
