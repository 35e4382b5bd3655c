ghost use Rattle.std.specs.Prelude.{◌≡◌, ◌+◌, ◌<◌, ◌≤◌, ◌∷◌, [], true, false, length, find, slice_index_or, OnOk};
ghost use Rattle.std.specs.List.{count_by, range_with_len};
ghost use Rattle.cov_model.specs.Fits.{FitsModel};
ghost use Rattle.cov_model.specs.believed.Meaning.{value_at};
ghost use Rattle.cov_model.specs.believed.Rows.{is_assigned, with_value};
ghost use Rattle.cov_model.specs.believed.Sound.{param_at};
ghost use Rattle.definitions.specs.believed.Demand.{is_among};
ghost use Rattle.definitions.specs.believed.Refutation.{is_omission_leaf};
ghost use Rattle.definitions.specs.believed.Search.{breaks_a_rule, constrained_params, is_failing, visit};
ghost use Rattle.live_sets.specs.Trail.{IsSince};
ghost use Rattle.feasibility.specs.Live.{HasShape, HasUnmarked, ShowsFailure, ShowsLive, no_on};
ghost use Rattle.feasibility.specs.Refuting.{Closes, HasNoLeaf, IsPath, value_cost};
ghost use Rattle.feasibility.specs.Solving.{IsReady};
ghost use Rattle.feasibility.specs.Tree.{IsListed, constrained_at, constrained_from, no_values};

use crate::refuter::Refuter;
use cov_model::{Cells, ParamNo, ValueNo};
use live_sets::LiveSets;
use refutation::{TreeBuf, TreeToken};
use value_text::NoMemory;

impl<'t> Refuter<'t> {
    /// The least number of a constraint that is No with this value of a parameter, where without it
    /// none is: it is one that the value leaves undecided.
    pub fn first_no_with(&self, q: ParamNo, v: ValueNo, cells: &mut Cells) -> Option<u32>
        requires parameter { q < length self.now.model.params }
        requires value { v < length (param_at self.now.model.params q).values }
        requires free { is_assigned cells.old q ≡ false }
        requires path { IsPath self.now cells.old }
        requires unbroken { breaks_a_rule self.now.model cells.old ≡ false }
        ensures least { result ≡ find (no_on self.now.model (with_value cells.old q v)) (range_with_len 1 (length self.now.model.rules)) }
        ensures same { cells.new ≡ cells.old }
    {
        self.assert_invariant();
        let rules = self.undecided(q, v);
        cells.set_cell(q, v);
        let rule = self.first_no_of(rules, cells);
        cells.clear_cell(q);
        rule
    }

    /// The least number of an omission that is a leaf with this value of a parameter.
    pub fn first_cited_with(&self, q: ParamNo, v: ValueNo, cells: &mut Cells) -> Option<u32>
        requires parameter { q < length self.now.model.params }
        requires free { is_assigned cells.old q ≡ false }
        requires path { IsPath self.now cells.old }
        ensures least { result ≡ find (is_omission_leaf self.now.model self.now.format self.now.earlier self.now.tuple (with_value cells.old q v)) (range_with_len 1 (length self.now.earlier)) }
        ensures same { cells.new ≡ cells.old }
    {
        cells.set_cell(q, v);
        let number = self.first_cited(cells);
        cells.clear_cell(q);
        number
    }

    // Puts the leaf of a value that isn't live: it is negative, or a constraint is No with it.
    fn put_value_leaf(
        &self,
        q: ParamNo,
        v: ValueNo,
        cells: &mut Cells,
        tokens: &mut TreeBuf,
    ) -> Result<(), NoMemory>
        requires parameter { q < length self.now.model.params }
        requires value { v < length (param_at self.now.model.params q).values }
        requires free { is_assigned cells.old q ≡ false }
        requires path { IsPath self.now cells.old }
        requires unbroken { breaks_a_rule self.now.model cells.old ≡ false }
        requires dead { (value_at self.now.model q v).negative ≡ false → breaks_a_rule self.now.model (with_value cells.old q v) ≡ true }
        ensures closes { OnOk result (Closes self.now (with_value cells.old q v ∷ []) 0 tokens.old tokens.new) }
        ensures same { cells.new ≡ cells.old }
    {
        self.assert_invariant();
        if self.is_negative(q, v) {
            return tokens.push(TreeToken::ByNegative);
        }
        let rule = self.first_no_with(q, v, cells).unwrap();
        tokens.push(TreeToken::ByRule(rule))
    }

    // The first parameter without a value that has no live value.
    fn param_without_live_value(&self, cells: &Cells, sets: &LiveSets) -> ParamNo
        requires path { IsPath self.now cells.now }
        requires shape { HasShape self.now.model sets.now.live }
        requires some { HasUnmarked self.now.model cells.now sets.now.live }
        ensures exists { result < length self.now.model.params }
        ensures free { is_assigned cells.now result ≡ false }
        ensures unmarked { count_by (λ mark. mark) (slice_index_or sets.now.live result []) ≡ 0 }
    {
        self.assert_invariant();
        let mut q = 0;
        while cells.get(q).is_some() || sets.count(q) > 0 {
            q += 1;
        }
        q
    }

    // Branches on a parameter without a live value: each of its values is a leaf.
    fn put_branch_of_leaves(
        &self,
        cells: &mut Cells,
        sets: &LiveSets,
        tokens: &mut TreeBuf,
    ) -> Result<(), NoMemory>
        requires path { IsPath self.now cells.old }
        requires unbroken { breaks_a_rule self.now.model cells.old ≡ false }
        requires leafless { HasNoLeaf self.now cells.old }
        requires why { ShowsFailure self.now.model self.now.lists cells.old sets.now }
        ensures closes { OnOk result (Closes self.now (cells.old ∷ []) 1 tokens.old tokens.new) }
        ensures same { cells.new ≡ cells.old }
    {
        self.assert_invariant();
        let q = self.param_without_live_value(cells, sets);
        tokens.push(TreeToken::Branch(q))?;
        let count = self.count_of(q);
        for v in 0..count {
            self.put_value_leaf(q, v, cells, tokens)?;
        }
        Ok(())
    }

    // Puts the tree of a path that no leaf is possible on and that doesn't fail: branches on the first
    // constrained parameter without a value, from a place on. A search finds nothing there.
    #[cycle(closes)]
    fn close_node(
        &self,
        i: usize,
        cells: &mut Cells,
        sets: &mut LiveSets,
        tokens: &mut TreeBuf,
    ) -> Result<(), NoMemory>
        requires path { IsPath self.now cells.old }
        requires leafless { HasNoLeaf self.now cells.old }
        requires node { is_failing self.now.model self.now.lists cells.old ≡ false }
        requires live { ShowsLive self.now.model self.now.lists cells.old sets.old }
        requires unfound { (visit self.now.model self.now.lists (constrained_from self.now.model i) cells.old).found ≡ false }
        ensures closes { OnOk result (Closes self.now (cells.old ∷ []) (visit self.now.model self.now.lists (constrained_from self.now.model i) cells.old).cost tokens.old tokens.new) }
        ensures cells { cells.new ≡ cells.old }
        ensures sets { sets.new ≡ sets.old }
    {
        self.assert_invariant();
        let p = self.constrained_param(i);
        if cells.get(p).is_some() {
            return self.close_node(i + 1, cells, sets, tokens);
        }
        tokens.push(TreeToken::Branch(p))?;
        let count = self.count_of(p);
        for v in 0..count {
            self.close_value(i, v, cells, sets, tokens)?;
        }
        Ok(())
    }

    // Puts the tree of such a path with one more value, of the constrained parameter at a place.
    #[cycle(closes)]
    fn close_value(
        &self,
        i: usize,
        v: ValueNo,
        cells: &mut Cells,
        sets: &mut LiveSets,
        tokens: &mut TreeBuf,
    ) -> Result<(), NoMemory>
        requires place { i < length (constrained_params self.now.model) }
        requires value { v < length (param_at self.now.model.params (constrained_at self.now.model i)).values }
        requires free { is_assigned cells.old (constrained_at self.now.model i) ≡ false }
        requires path { IsPath self.now cells.old }
        requires leafless { HasNoLeaf self.now cells.old }
        requires node { is_failing self.now.model self.now.lists cells.old ≡ false }
        requires live { ShowsLive self.now.model self.now.lists cells.old sets.old }
        requires unfound { is_among (slice_index_or self.now.lists (constrained_at self.now.model i) []) v ≡ true
            → (visit self.now.model self.now.lists (constrained_from self.now.model (i + 1)) (with_value cells.old (constrained_at self.now.model i) v)).found ≡ false }
        ensures closes { OnOk result (Closes self.now (with_value cells.old (constrained_at self.now.model i) v ∷ [])
            (value_cost self.now (constrained_from self.now.model (i + 1)) cells.old (constrained_at self.now.model i) v) tokens.old tokens.new) }
        ensures cells { cells.new ≡ cells.old }
        ensures sets { sets.new ≡ sets.old }
    {
        self.assert_invariant();
        let p = self.constrained_param(i);
        if !sets.is_live(p, v) {
            return self.put_value_leaf(p, v, cells, tokens);
        }
        if let Some(number) = self.first_cited_with(p, v, cells) {
            return tokens.push(TreeToken::ByOmission(number));
        }
        let len = sets.trail_len();
        let closed = self.close_live(i, v, cells, sets, tokens);
        sets.undo(len);
        cells.clear_cell(p);
        closed
    }

    // Puts the tree of such a path with a live value more, on which no leaf is possible. The cells have
    // this value then, and values were taken away.
    #[cycle(closes)]
    fn close_live(
        &self,
        i: usize,
        v: ValueNo,
        cells: &mut Cells,
        sets: &mut LiveSets,
        tokens: &mut TreeBuf,
    ) -> Result<(), NoMemory>
        requires place { i < length (constrained_params self.now.model) }
        requires value { v < length (param_at self.now.model.params (constrained_at self.now.model i)).values }
        requires free { is_assigned cells.old (constrained_at self.now.model i) ≡ false }
        requires path { IsPath self.now (with_value cells.old (constrained_at self.now.model i) v) }
        requires before { IsPath self.now cells.old }
        requires unbroken { breaks_a_rule self.now.model (with_value cells.old (constrained_at self.now.model i) v) ≡ false }
        requires leafless { HasNoLeaf self.now (with_value cells.old (constrained_at self.now.model i) v) }
        requires node { is_failing self.now.model self.now.lists cells.old ≡ false }
        requires live { ShowsLive self.now.model self.now.lists cells.old sets.old }
        requires unfound { (visit self.now.model self.now.lists (constrained_from self.now.model (i + 1)) (with_value cells.old (constrained_at self.now.model i) v)).found ≡ false }
        ensures closes { OnOk result (Closes self.now (with_value cells.old (constrained_at self.now.model i) v ∷ [])
            (visit self.now.model self.now.lists (constrained_from self.now.model (i + 1)) (with_value cells.old (constrained_at self.now.model i) v)).cost tokens.old tokens.new) }
        ensures cells { cells.new ≡ with_value cells.old (constrained_at self.now.model i) v }
        ensures since { IsSince sets.old sets.new }
    {
        self.assert_invariant();
        if self.tree().enter(i, v, cells, sets) {
            return self.close_node(i + 1, cells, sets, tokens);
        }
        self.put_branch_of_leaves(cells, sets, tokens)
    }

    // Puts the tree of a path whose node fails, as the sets show: a leaf if one is possible, else a branch
    // on a parameter without a live value.
    fn close_failing(
        &self,
        cells: &mut Cells,
        sets: &LiveSets,
        tokens: &mut TreeBuf,
    ) -> Result<(), NoMemory>
        requires path { IsPath self.now cells.old }
        requires why { ShowsFailure self.now.model self.now.lists cells.old sets.now }
        ensures closes { OnOk result (Closes self.now (cells.old ∷ []) 1 tokens.old tokens.new) }
        ensures same { cells.new ≡ cells.old }
    {
        self.assert_invariant();
        if let Some(rule) = self.first_no(cells) {
            return tokens.push(TreeToken::ByRule(rule));
        }
        if let Some(number) = self.first_cited(cells) {
            return tokens.push(TreeToken::ByOmission(number));
        }
        self.put_branch_of_leaves(cells, sets, tokens)
    }

    // Puts the tree of the tuple, given that the node without values doesn't fail. Values were taken away
    // then.
    fn close_started(
        &self,
        cells: &mut Cells,
        sets: &mut LiveSets,
        tokens: &mut TreeBuf,
    ) -> Result<(), NoMemory>
        requires path { IsPath self.now cells.old }
        requires node { is_failing self.now.model self.now.lists (no_values self.now.model) ≡ false }
        requires live { ShowsLive self.now.model self.now.lists (no_values self.now.model) sets.old }
        requires unfound { (visit self.now.model self.now.lists (constrained_params self.now.model) cells.old).found ≡ false }
        ensures closes { OnOk result (Closes self.now (cells.old ∷ []) (visit self.now.model self.now.lists (constrained_params self.now.model) cells.old).cost tokens.old tokens.new) }
        ensures cells { cells.new ≡ cells.old }
        ensures since { IsSince sets.old sets.new }
    {
        self.assert_invariant();
        if !self.tree().start(cells, sets) {
            return self.close_failing(cells, sets, tokens);
        }
        if let Some(number) = self.first_cited(cells) {
            return tokens.push(TreeToken::ByOmission(number));
        }
        self.close_node(0, cells, sets, tokens)
    }

    // Puts the tree of the tuple, given whether the node without values fails. A search of the tuple
    // finds nothing.
    pub(crate) fn close_tuple(
        &self,
        fails: bool,
        cells: &mut Cells,
        sets: &mut LiveSets,
        tokens: &mut TreeBuf,
    ) -> Result<(), NoMemory>
        requires path { IsPath self.now cells.old }
        requires listed { IsListed self.now.lists cells.old }
        requires ready { IsReady self.now.model self.now.lists fails sets.old }
        requires unfound { (visit self.now.model self.now.lists (constrained_params self.now.model) cells.old).found ≡ false }
        ensures closes { OnOk result (Closes self.now (cells.old ∷ []) (visit self.now.model self.now.lists (constrained_params self.now.model) cells.old).cost tokens.old tokens.new) }
        ensures cells { cells.new ≡ cells.old }
        ensures sets { sets.new ≡ sets.old }
    {
        self.assert_invariant();
        if fails {
            return self.close_failing(cells, sets, tokens);
        }
        let len = sets.trail_len();
        let closed = self.close_started(cells, sets, tokens);
        sets.undo(len);
        closed
    }
}
