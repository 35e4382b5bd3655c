ghost use Rattle.std.specs.Prelude.{◌≡◌, ◌+◌, ◌-◌, ◌<◌, ◌≤◌, true, false, None, [], length, slice_index_or, slice_set};
ghost use Rattle.cov_model.specs.Fits.{FitsModel};
ghost use Rattle.cov_model.specs.believed.Rows.{is_assigned, with_value};
ghost use Rattle.cov_model.specs.believed.Sound.{IsSound};
ghost use Rattle.definitions.specs.believed.Demand.{is_among};
ghost use Rattle.definitions.specs.believed.Search.{constrained_params, is_failing};
ghost use Rattle.feasibility.specs.Answers.{VisitTells, answer_of, searched};
ghost use Rattle.feasibility.specs.Live.{ShowsLive};
ghost use Rattle.feasibility.specs.Path.{filled, filled_cell, reached};
ghost use Rattle.feasibility.specs.Recurring.{AgreeOnNamed, AreAnswered};
ghost use Rattle.feasibility.specs.Solving.{IsReady};
ghost use Rattle.feasibility.specs.Tree.{IsListed, constrained_at, constrained_from, no_values};

use crate::answer::Answer;
use crate::answer_table::AnswerTable;
use crate::answered::Answered;
use crate::tree::SearchTree;
use cov_model::{Cells, ParamNo, ValueNo};
use definitions::Effort;
use live_sets::LiveSets;

// Visits so many nodes, and says whether the last of them succeeds; Spent where the budget that is left has
// fewer, and then nothing of it is left.
pub(crate) fn visit_nodes(found: bool, count: u64, left: &mut u64) -> Answer
    ensures answer { result ≡ answer_of found count left.old }
    ensures left { left.new ≡ left.old - count }
{
    if *left < count {
        *left = 0;
        return Answer::Spent;
    }
    *left -= count;
    if found { Answer::Yes } else { Answer::No }
}

impl<'a> SearchTree<'a> {
    // Gives the parameter the first value of its list, if it has none.
    fn fill_cell(&self, p: ParamNo, cells: &mut Cells)
        requires parameter { p < length self.now.model.params }
        requires within { p < length cells.old }
        ensures { cells.new ≡ slice_set cells.old p (filled_cell (slice_index_or self.now.values p []) (slice_index_or cells.old p None)) }
    {
        if cells.get(p).is_some() {
            return;
        }
        if let Some(v) = self.values_of(p).first() {
            cells.set_cell(p, *v);
        }
    }

    /// Gives each parameter without a value the first of its list.
    pub fn fill(&self, cells: &mut Cells)
        requires { length cells.old ≡ length self.now.model.params }
        ensures { cells.new ≡ filled self.now.values cells.old }
    {
        self.assert_invariant();
        let count = self.model().params().len() as ParamNo;
        for p in 0..count {
            self.fill_cell(p, cells);
        }
    }

    // Visits a node that doesn't fail, given that the constrained parameters before a place have
    // values. The sets show the live values, before and after.
    #[cycle(visits)]
    pub(crate) fn visit(
        &self,
        i: usize,
        cells: &mut Cells,
        sets: &mut LiveSets,
        left: &mut u64,
    ) -> Answer
        requires place { i ≤ length (constrained_params self.now.model) }
        requires fits { FitsModel self.now.model cells.old }
        requires node { is_failing self.now.model self.now.values cells.old ≡ false }
        requires live { ShowsLive self.now.model self.now.values cells.old sets.old }
        ensures told { VisitTells self.now (constrained_from self.now.model i) cells.old cells.old cells.new left.old left.new result }
        ensures sets { sets.new ≡ sets.old }
    {
        self.assert_invariant();
        if i == self.constrained_len() {
            return visit_nodes(true, 1, left);
        }
        let p = self.constrained_at(i).param;
        if cells.get(p).is_some() {
            return self.visit(i + 1, cells, sets, left);
        }
        if *left == 0 {
            return Answer::Spent;
        }
        *left -= 1;
        let values = self.values_of(p);
        for v in values {
            match self.visit_value(i, *v, cells, sets, left) {
                Answer::Yes => return Answer::Yes,
                Answer::Spent => return Answer::Spent,
                Answer::No => {}
            }
        }
        Answer::No
    }

    // Visits the node that one more value leads to, of the constrained parameter at a place.
    #[cycle(visits)]
    fn visit_value(
        &self,
        i: usize,
        v: ValueNo,
        cells: &mut Cells,
        sets: &mut LiveSets,
        left: &mut u64,
    ) -> Answer
        requires place { i < length (constrained_params self.now.model) }
        requires value { is_among (slice_index_or self.now.values (constrained_at self.now.model i) []) v ≡ true }
        requires free { is_assigned cells.old (constrained_at self.now.model i) ≡ false }
        requires fits { FitsModel self.now.model cells.old }
        requires node { is_failing self.now.model self.now.values cells.old ≡ false }
        requires live { ShowsLive self.now.model self.now.values cells.old sets.old }
        ensures told { VisitTells self.now (constrained_from self.now.model (i + 1)) (with_value cells.old (constrained_at self.now.model i) v) cells.old cells.new left.old left.new result }
        ensures sets { sets.new ≡ sets.old }
    {
        self.assert_invariant();
        let p = self.constrained_at(i).param;
        if !sets.is_live(p, v) {
            return visit_nodes(false, 1, left);
        }
        let len = sets.trail_len();
        if !self.enter(i, v, cells, sets) {
            sets.undo(len);
            cells.clear_cell(p);
            return visit_nodes(false, 1, left);
        }
        let answer = self.visit(i + 1, cells, sets, left);
        sets.undo(len);
        if answer == Answer::No {
            cells.clear_cell(p);
        }
        answer
    }

    /// Whether two partial rows give each parameter that constraints name the same value, or none.
    pub fn agree_on_named(&self, cells: &Cells, others: &Cells) -> bool
        requires long { length cells.now ≡ length self.now.model.params }
        requires also { length others.now ≡ length self.now.model.params }
        ensures { result ≡ true → AgreeOnNamed self.now.model cells.now others.now }
    {
        let count = self.constrained_len();
        for i in 0..count {
            let p = self.constrained_at(i).param;
            if cells.get(p) != others.get(p) {
                return false;
            }
        }
        true
    }

    // Whether the cells ask the same as a question that was answered, if one is known: what no constraint names
    // changes neither the answer nor the cost.
    fn is_same_question(&self, cells: &Cells, answered: &Answered) -> bool
        requires long { length cells.now ≡ length self.now.model.params }
        requires also { length answered.now.cells ≡ length self.now.model.params }
        ensures known { result ≡ true → answered.now.known ≡ true }
        ensures agree { result ≡ true → AgreeOnNamed self.now.model cells.now answered.now.cells }
    {
        answered.known && self.agree_on_named(cells, &answered.cells)
    }

    // The place of a question in a table: the number of what it gives the parameters that constraints
    // name, if the table has so many places.
    fn place_of(&self, cells: &Cells, places: usize) -> usize
        requires long { length cells.now ≡ length self.now.model.params }
        requires some { 0 < places }
        ensures { result < places }
    {
        self.assert_invariant();
        if places == 1 {
            return 0;
        }
        let mut number = 0usize;
        let count = self.constrained_len();
        for i in 0..count {
            let named = self.constrained_at(i);
            let value = match cells.get(named.param) {
                Some(v) => v as usize + 1,
                None => 0,
            };
            // a list for each value, and one number more for none
            let choices = named.undecided.len().wrapping_add(1);
            number = number.wrapping_mul(choices).wrapping_add(value);
        }
        number % places
    }

    // Searches for a completion of the cells in the room, given that the node without values doesn't
    // fail.
    fn search_anew(&self, room: &mut Cells, sets: &mut LiveSets, left: &mut u64) -> Answer
        requires fits { FitsModel self.now.model room.old }
        requires node { is_failing self.now.model self.now.values (no_values self.now.model) ≡ false }
        requires live { ShowsLive self.now.model self.now.values (no_values self.now.model) sets.old }
        ensures told { VisitTells self.now (constrained_params self.now.model) room.old room.old room.new left.old left.new result }
        ensures sets { sets.new ≡ sets.old }
    {
        self.assert_invariant();
        let len = sets.trail_len();
        if !self.start(room, sets) {
            sets.undo(len);
            return visit_nodes(false, 1, left);
        }
        let answer = self.visit(0, room, sets, left);
        sets.undo(len);
        answer
    }

    // The same for the cells of a question, which are in the room. Most searches need not go back.
    fn search_straight(
        &self,
        cells: &Cells,
        room: &mut Cells,
        sets: &mut LiveSets,
        left: &mut u64,
    ) -> Answer
        requires fits { FitsModel self.now.model cells.now }
        requires same { room.old ≡ cells.now }
        requires node { is_failing self.now.model self.now.values (no_values self.now.model) ≡ false }
        requires live { ShowsLive self.now.model self.now.values (no_values self.now.model) sets.old }
        ensures told { VisitTells self.now (constrained_params self.now.model) cells.now cells.now room.new left.old left.new result }
        ensures sets { sets.new ≡ sets.old }
    {
        let len = sets.trail_len();
        if !self.start(room, sets) {
            sets.undo(len);
            return visit_nodes(false, 1, left);
        }
        let answer = self.visit_node(cells, room, sets, left);
        sets.undo(len);
        answer
    }

    // Searches for a completion of the cells, given whether the node without values fails. After Yes
    // the room holds the values of the constrained parameters.
    pub(crate) fn search(
        &self,
        fails: bool,
        cells: &Cells,
        room: &mut Cells,
        sets: &mut LiveSets,
        table: &AnswerTable,
        budget: u64,
    ) -> Answer
        requires fits { FitsModel self.now.model cells.now }
        requires listed { IsListed self.now.values cells.now }
        requires long { length room.old ≡ length cells.now }
        requires ready { IsReady self.now.model self.now.values fails sets.old }
        requires kept { AreAnswered self.now.model self.now.values table.now }
        ensures answer { result ≡ answer_of (searched self.now cells.now).found (searched self.now cells.now).cost budget }
        ensures yes { result ≡ Answer.Yes → room.new ≡ reached self.now.model self.now.values (constrained_params self.now.model) cells.now }
        ensures long { length room.new ≡ length room.old }
        ensures sound { IsSound self.now.model }
        ensures sets { sets.new ≡ sets.old }
    {
        room.copy_from(cells);
        self.search_from(fails, room, sets, table, budget)
    }

    // The same for the cells in the room, which after No are as before. A question without a completion that
    // is the same as one in the table isn't searched again.
    pub(crate) fn search_from(
        &self,
        fails: bool,
        room: &mut Cells,
        sets: &mut LiveSets,
        table: &AnswerTable,
        budget: u64,
    ) -> Answer
        requires fits { FitsModel self.now.model room.old }
        requires listed { IsListed self.now.values room.old }
        requires ready { IsReady self.now.model self.now.values fails sets.old }
        requires kept { AreAnswered self.now.model self.now.values table.now }
        ensures answer { result ≡ answer_of (searched self.now room.old).found (searched self.now room.old).cost budget }
        ensures yes { result ≡ Answer.Yes → room.new ≡ reached self.now.model self.now.values (constrained_params self.now.model) room.old }
        ensures no { result ≡ Answer.No → room.new ≡ room.old }
        ensures long { length room.new ≡ length room.old }
        ensures sound { IsSound self.now.model }
        ensures sets { sets.new ≡ sets.old }
    {
        self.assert_invariant();
        let mut left = budget;
        if fails {
            return visit_nodes(false, 1, &mut left);
        }
        let place = self.place_of(room, table.len());
        let answered = table.at(place);
        if !answered.found && self.is_same_question(room, answered) {
            return answered.answer(budget);
        }
        self.search_anew(room, sets, &mut left)
    }

    // Whether the cells have a completion, given whether the node without values fails. What isn't told at once is
    // searched and kept in the table, unless it is the same question as one there.
    pub(crate) fn ask_and_keep(
        &self,
        fails: bool,
        cells: &Cells,
        room: &mut Cells,
        sets: &mut LiveSets,
        table: &mut AnswerTable,
        budget: u64,
    ) -> Answer
        requires fits { FitsModel self.now.model cells.now }
        requires listed { IsListed self.now.values cells.now }
        requires long { length room.old ≡ length cells.now }
        requires ready { IsReady self.now.model self.now.values fails sets.old }
        requires kept { AreAnswered self.now.model self.now.values table.old }
        ensures answer { result ≡ answer_of (searched self.now cells.now).found (searched self.now cells.now).cost budget }
        ensures long { length room.new ≡ length room.old }
        ensures sound { IsSound self.now.model }
        ensures sets { sets.new ≡ sets.old }
        ensures kept { AreAnswered self.now.model self.now.values table.new }
    {
        self.assert_invariant();
        let mut left = budget;
        if fails {
            return visit_nodes(false, 1, &mut left);
        }
        if let Some(found) = self.found_at_once(cells, Effort::Within(budget)) {
            return if found { Answer::Yes } else { Answer::No };
        }
        let place = self.place_of(cells, table.len());
        let answered = table.at(place);
        if self.is_same_question(cells, answered) {
            return answered.answer(budget);
        }
        room.copy_from(cells);
        let answer = self.search_straight(cells, room, sets, &mut left);
        table.keep_answer(place, cells, answer, budget - left);
        answer
    }
}
