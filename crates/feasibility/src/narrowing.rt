ghost use Rattle.std.specs.Prelude.{◌≡◌, ℕ, ◌+◌, ◌<◌, ◌≤◌, ◌∷◌, true, false, Some, None, [], length, not, slice_index_or, All, IfOk};
ghost use Rattle.cov_model.specs.Fits.{FitsModel};
ghost use Rattle.cov_model.specs.believed.Sound.{param_at};
ghost use Rattle.cov_model.specs.Sound.{rule_at};
ghost use Rattle.cov_model.specs.believed.Rows.{is_assigned, with_value};
ghost use Rattle.definitions.specs.believed.Search.{constrained_params, is_failing};
ghost use Rattle.live_sets.specs.Trail.{IsSince, mark_at};
ghost use Rattle.feasibility.specs.Live.{AreRules, AreSeen, BreaksNoMark, EachHasOne, HasShape, IsFree, ListMarks, LookedAt, NamesEarlier, Narrowed};
ghost use Rattle.feasibility.specs.Live.{NarrowedBy, NoValueBreaks, ShowsFailure, ShowsListed, ShowsLive, Stops, no_on};
ghost use Rattle.feasibility.specs.Tree.{constrained_at, members, no_values};

use crate::tree::SearchTree;
use bit_table::BitTable;
use cov_model::{Cells, ParamNo, Truth, ValueNo};
use live_sets::LiveSets;
use std::alloc::Global;
use value_text::NoMemory;

// Marks the values of a list.
fn marks_of(alloc: Global, count: ValueNo, list: &[ValueNo]) -> Result<BitTable, NoMemory>
    requires { All (λ v. v < count) list.now }
    ensures { IfOk result (ListMarks list.now count) }
{
    let mut table = BitTable::all_set(alloc, count as u32)?;
    for w in 0..count {
        table.clear(w as u32);
    }
    for v in list {
        table.set(*v as u32);
    }
    Ok(table)
}

impl<'a> SearchTree<'a> {
    /// Sets of all values that are listed. Takes all room that a search needs.
    ///
    /// # Errors
    ///
    /// `NoMemory` where there is no room.
    pub fn listed_sets(&self, alloc: Global) -> Result<LiveSets, NoMemory>
        ensures { IfOk result (ShowsListed self.now.model self.now.values) }
    {
        self.assert_invariant();
        let count = self.model().params().len() as ParamNo;
        let mut sets = Vec::new(alloc);
        for q in 0..count {
            let table = marks_of(alloc, self.count_of(q), self.values_of(q))?;
            sets.push(table)?;
        }
        let all = LiveSets::new(alloc, sets)?;
        Ok(all)
    }

    /// Whether the constraint is No on the cells.
    pub fn is_no(&self, rule: u32, cells: &Cells) -> bool
        requires first { 0 < rule }
        requires last { rule ≤ length self.now.model.rules }
        requires fits { FitsModel self.now.model cells.now }
        ensures { result ≡ no_on self.now.model cells.now rule }
    {
        self.truth(rule, cells) == Truth::No
    }

    // Whether the constraint is No with this value of a parameter.
    fn is_no_with(&self, rule: u32, q: ParamNo, w: ValueNo, cells: &mut Cells) -> bool
        requires first { 0 < rule }
        requires last { rule ≤ length self.now.model.rules }
        requires parameter { q < length self.now.model.params }
        requires value { w < length (param_at self.now.model.params q).values }
        requires fits { FitsModel self.now.model cells.old }
        requires free { is_assigned cells.old q ≡ false }
        ensures broken { result ≡ no_on self.now.model (with_value cells.old q w) rule }
        ensures same { cells.new ≡ cells.old }
    {
        cells.set_cell(q, w);
        let broken = self.is_no(rule, cells);
        cells.clear_cell(q);
        broken
    }

    // Takes a value away, if it is live and the constraint is No with it.
    fn narrow_value(
        &self,
        rule: u32,
        q: ParamNo,
        w: ValueNo,
        cells: &mut Cells,
        sets: &mut LiveSets,
    )
        requires first { 0 < rule }
        requires last { rule ≤ length self.now.model.rules }
        requires parameter { q < length self.now.model.params }
        requires value { w < length (param_at self.now.model.params q).values }
        requires fits { FitsModel self.now.model cells.old }
        requires free { is_assigned cells.old q ≡ false }
        requires shape { HasShape self.now.model sets.old.live }
        ensures narrowed { NarrowedBy self.now.model rule q (w ∷ []) cells.old sets.old sets.new }
        ensures same { cells.new ≡ cells.old }
    {
        if !sets.is_live(q, w) {
            return;
        }
        if self.is_no_with(rule, q, w, cells) {
            sets.take_away(q, w);
        }
    }

    // Takes the values of a parameter away with which the constraint is No: they are among those that
    // alone leave it undecided. The parameter is the one at a place of those that it names.
    fn narrow(&self, rule: u32, j: usize, q: ParamNo, cells: &mut Cells, sets: &mut LiveSets)
        requires first { 0 < rule }
        requires last { rule ≤ length self.now.model.rules }
        requires place { j < length (members (length self.now.model.params) (rule_at self.now.model rule).body) }
        requires named { q ≡ slice_index_or (members (length self.now.model.params) (rule_at self.now.model rule).body) j 0 }
        requires parameter { q < length self.now.model.params }
        requires fits { FitsModel self.now.model cells.old }
        requires free { is_assigned cells.old q ≡ false }
        requires shape { HasShape self.now.model sets.old.live }
        ensures narrowed { Narrowed self.now.model rule q cells.old sets.old sets.new }
        ensures same { cells.new ≡ cells.old }
    {
        self.assert_invariant();
        for w in self.doubtful_of(rule, j) {
            self.narrow_value(rule, q, *w, cells, sets);
        }
    }

    // Narrows the values of each parameter without a value that the constraint names. Whether each
    // has a value left.
    fn look_ahead(&self, rule: u32, cells: &mut Cells, sets: &mut LiveSets) -> bool
        requires first { 0 < rule }
        requires last { rule ≤ length self.now.model.rules }
        requires unbroken { no_on self.now.model cells.old rule ≡ false }
        requires fits { FitsModel self.now.model cells.old }
        requires shape { HasShape self.now.model sets.old.live }
        requires left { EachHasOne self.now.model cells.old sets.old.live }
        ensures looked { result ≡ true → LookedAt self.now.model (rule ∷ []) cells.old sets.old sets.new }
        ensures stops { result ≡ false → Stops self.now.model cells.old sets.old sets.new }
        ensures since { IsSince sets.old sets.new }
        ensures same { cells.new ≡ cells.old }
    {
        let members = self.members_of(rule);
        for j in 0..members.len() {
            let q = members[j];
            if cells.get(q).is_none() {
                self.narrow(rule, j, q, cells, sets);
                if sets.count(q) == 0 {
                    return false;
                }
            }
        }
        true
    }

    // Whether the parameter at a place of those that the constraint names has no value, and one that
    // alone makes the constraint hold.
    fn is_free(&self, rule: u32, j: usize, q: ParamNo, cells: &Cells) -> bool
        requires first { 0 < rule }
        requires last { rule ≤ length self.now.model.rules }
        requires place { j < length (members (length self.now.model.params) (rule_at self.now.model rule).body) }
        requires named { q ≡ slice_index_or (members (length self.now.model.params) (rule_at self.now.model rule).body) j 0 }
        requires parameter { q < length self.now.model.params }
        requires fits { FitsModel self.now.model cells.now }
        ensures { result ≡ true → IsFree self.now.model rule cells.now q }
    {
        cells.get(q).is_none() && self.doubtful_of(rule, j).len() < self.count_of(q) as usize
    }

    // Whether two parameters that the constraint names are free so. Whichever parameter gets a value, one
    // of the two can still make the constraint hold, so that it is No with no value.
    fn has_two_free(&self, rule: u32, cells: &Cells) -> bool
        requires first { 0 < rule }
        requires last { rule ≤ length self.now.model.rules }
        requires fits { FitsModel self.now.model cells.now }
        ensures { result ≡ true → NoValueBreaks self.now.model rule cells.now }
    {
        let members = self.members_of(rule);
        if members.len() < 3 {
            return false;
        }
        let mut found: Option<ParamNo> = None;
        for j in 0..members.len() {
            let q = members[j];
            if self.is_free(rule, j, q, cells) {
                match found {
                    Some(p) if p != q => return true,
                    _ => found = Some(q),
                }
            }
        }
        false
    }

    // Looks at a constraint: one that holds says nothing of a value. Whether it isn't No and each
    // parameter that it names has a value left.
    fn look_at(&self, rule: u32, cells: &mut Cells, sets: &mut LiveSets) -> bool
        requires first { 0 < rule }
        requires last { rule ≤ length self.now.model.rules }
        requires fits { FitsModel self.now.model cells.old }
        requires shape { HasShape self.now.model sets.old.live }
        requires left { EachHasOne self.now.model cells.old sets.old.live }
        ensures looked { result ≡ true → LookedAt self.now.model (rule ∷ []) cells.old sets.old sets.new }
        ensures stops { result ≡ false → Stops self.now.model cells.old sets.old sets.new }
        ensures since { IsSince sets.old sets.new }
        ensures same { cells.new ≡ cells.old }
    {
        match self.truth(rule, cells) {
            Truth::Yes => true,
            Truth::No => false,
            Truth::Unknown => self.has_two_free(rule, cells) || self.look_ahead(rule, cells, sets),
        }
    }

    // Whether the constraint names a parameter below this one that has a value.
    pub(crate) fn names_earlier(&self, rule: u32, p: ParamNo, cells: &Cells) -> bool
        requires first { 0 < rule }
        requires last { rule ≤ length self.now.model.rules }
        requires fits { FitsModel self.now.model cells.now }
        ensures { result ≡ true → NamesEarlier self.now.model rule p cells.now }
    {
        for q in self.members_of(rule) {
            if *q >= p {
                return false;
            }
            if cells.get(*q).is_some() {
                return true;
            }
        }
        false
    }

    // Looks at a constraint, unless it names a parameter below this one with a value: then it was looked
    // at from there, or that value alone makes it hold.
    fn look_once(&self, rule: u32, p: ParamNo, cells: &mut Cells, sets: &mut LiveSets) -> bool
        requires first { 0 < rule }
        requires last { rule ≤ length self.now.model.rules }
        requires fits { FitsModel self.now.model cells.old }
        requires shape { HasShape self.now.model sets.old.live }
        requires left { EachHasOne self.now.model cells.old sets.old.live }
        requires seen { NamesEarlier self.now.model rule p cells.old → BreaksNoMark self.now.model rule cells.old sets.old }
        ensures looked { result ≡ true → LookedAt self.now.model (rule ∷ []) cells.old sets.old sets.new }
        ensures stops { result ≡ false → Stops self.now.model cells.old sets.old sets.new }
        ensures since { IsSince sets.old sets.new }
        ensures same { cells.new ≡ cells.old }
    {
        self.names_earlier(rule, p, cells) || self.look_at(rule, cells, sets)
    }

    // Looks at each of the constraints, but not again at those that name a parameter below this one with a
    // value. No parameter is below 0.
    fn look_at_each(
        &self,
        rules: &[u16],
        p: ParamNo,
        cells: &mut Cells,
        sets: &mut LiveSets,
    ) -> bool
        requires exist { AreRules self.now.model rules.now }
        requires fits { FitsModel self.now.model cells.old }
        requires shape { HasShape self.now.model sets.old.live }
        requires left { EachHasOne self.now.model cells.old sets.old.live }
        requires seen { AreSeen self.now.model p cells.old sets.old }
        ensures looked { result ≡ true → LookedAt self.now.model rules.now cells.old sets.old sets.new }
        ensures stops { result ≡ false → Stops self.now.model cells.old sets.old sets.new }
        ensures since { IsSince sets.old sets.new }
        ensures same { cells.new ≡ cells.old }
    {
        for rule in rules {
            if !self.look_once(*rule as u32, p, cells, sets) {
                return false;
            }
        }
        true
    }

    // Whether each parameter has a value; none has one in the cells.
    fn has_values(&self, cells: &Cells, sets: &LiveSets) -> bool
        requires shape { HasShape self.now.model sets.now.live }
        requires none { cells.now ≡ no_values self.now.model }
        ensures left { result ≡ true → EachHasOne self.now.model cells.now sets.now.live }
        ensures stops { result ≡ false → Stops self.now.model cells.now sets.now sets.now }
    {
        let count = self.model().params().len() as ParamNo;
        for q in 0..count {
            if sets.count(q) == 0 {
                return false;
            }
        }
        true
    }

    /// Takes the values away that aren't live where no parameter has a value. Whether this node fails;
    /// then the sets show why.
    pub fn begin(&self, cells: &mut Cells, sets: &mut LiveSets) -> bool
        requires none { cells.old ≡ no_values self.now.model }
        requires listed { ShowsListed self.now.model self.now.values sets.old }
        ensures fails { result ≡ is_failing self.now.model self.now.values cells.old }
        ensures live { result ≡ false → ShowsLive self.now.model self.now.values cells.old sets.new }
        ensures why { result ≡ true → ShowsFailure self.now.model self.now.values cells.old sets.new }
        ensures same { cells.new ≡ cells.old }
    {
        self.assert_invariant();
        if !self.has_values(cells, sets) {
            return true;
        }
        let count = self.model().rules().len() as u32;
        for i in 0..count {
            if !self.look_at(i + 1, cells, sets) {
                return true;
            }
        }
        false
    }

    /// Takes the values away that aren't live on the cells, from those that are where no parameter has
    /// a value: looks at the constraints that the cells' values leave undecided. Whether the node
    /// doesn't fail; else the sets show why.
    pub fn start(&self, cells: &mut Cells, sets: &mut LiveSets) -> bool
        requires fits { FitsModel self.now.model cells.old }
        requires node { is_failing self.now.model self.now.values (no_values self.now.model) ≡ false }
        requires live { ShowsLive self.now.model self.now.values (no_values self.now.model) sets.old }
        ensures fails { result ≡ not (is_failing self.now.model self.now.values cells.old) }
        ensures live { result ≡ true → ShowsLive self.now.model self.now.values cells.old sets.new }
        ensures why { result ≡ false → ShowsFailure self.now.model self.now.values cells.old sets.new }
        ensures since { IsSince sets.old sets.new }
        ensures same { cells.new ≡ cells.old }
    {
        self.assert_invariant();
        let count = self.constrained_len();
        for i in 0..count {
            let named = self.constrained_at(i);
            if let Some(v) = cells.get(named.param) {
                let rules = named.undecided.list(v as usize);
                if !self.look_at_each(rules, named.param, cells, sets) {
                    return false;
                }
            }
        }
        true
    }

    /// Gives the constrained parameter at a place a live value, and takes the values away that so stop
    /// being live. Whether the node doesn't fail; else the sets show why.
    pub fn enter(&self, i: usize, v: ValueNo, cells: &mut Cells, sets: &mut LiveSets) -> bool
        requires place { i < length (constrained_params self.now.model) }
        requires value { v < length (param_at self.now.model.params (constrained_at self.now.model i)).values }
        requires fits { FitsModel self.now.model cells.old }
        requires free { is_assigned cells.old (constrained_at self.now.model i) ≡ false }
        requires node { is_failing self.now.model self.now.values cells.old ≡ false }
        requires live { ShowsLive self.now.model self.now.values cells.old sets.old }
        ensures fails { result ≡ not (is_failing self.now.model self.now.values (with_value cells.old (constrained_at self.now.model i) v)) }
        ensures live { result ≡ true → ShowsLive self.now.model self.now.values (with_value cells.old (constrained_at self.now.model i) v) sets.new }
        ensures why { result ≡ false → ShowsFailure self.now.model self.now.values (with_value cells.old (constrained_at self.now.model i) v) sets.new }
        ensures since { IsSince sets.old sets.new }
        ensures cells { cells.new ≡ with_value cells.old (constrained_at self.now.model i) v }
    {
        self.assert_invariant();
        let named = self.constrained_at(i);
        cells.set_cell(named.param, v);
        self.look_at_each(named.undecided.list(v as usize), 0, cells, sets)
    }
}
