ghost use Rattle.std.specs.Prelude.{◌≡◌, ◌+◌, ◌<◌, ◌≤◌, [], All, length, find, slice_index_or};
ghost use Rattle.std.specs.List.{list_all, range_with_len};
ghost use Rattle.cov_model.specs.Fits.{FitsModel};
ghost use Rattle.cov_model.specs.believed.Rows.{is_assigned};
ghost use Rattle.cov_model.specs.believed.Meaning.{value_at};
ghost use Rattle.cov_model.specs.believed.Sound.{IsSound, param_at};
ghost use Rattle.cov_model.specs.believed.Valid.{negatives};
ghost use Rattle.cov_model.specs.believed.Tuples.{cells_of};
ghost use Rattle.definitions.specs.believed.Refutation.{is_omission_leaf};
ghost use Rattle.definitions.specs.believed.Search.{constrained_params};
ghost use Rattle.refutation.specs.Holders.{EndsWithin, NeverFalls};
ghost use Rattle.refutation.specs.believed.Proofs.{format_of};
ghost use Rattle.feasibility.specs.Live.{AreRules, no_on};
ghost use Rattle.feasibility.specs.Refuting.{IsRefuter, Lowers, TriesPositive, earlier_tuples, is_cited, is_less};
ghost use Rattle.feasibility.specs.Tree.{ListsValues, constrained_at, undecided};

use crate::tree::SearchTree;
use cov_model::{Cells, ParamNo, Slice, Tuple, ValueNo};
use refutation::{Omissions, ProofForm};
use std::marker::Model;

/// What the tree of a tuple is made from: what a search of the tuple's slice looks at, and the
/// omissions that stand before it.
#[derive(Drop)]
pub struct Refuter<'t> {
    tree: &'t SearchTree<'t>,
    slice: Slice,
    tuple: &'t Tuple,
    omissions: &'t Omissions,
}

impl<'t> Model for Refuter<'t> {
    ghost use Rattle.std.specs.Prelude.{length};
    ghost use Rattle.std.specs.Coded.{codes};
    ghost use Rattle.cov_model.specs.contracts.model.TestModel as tested;
    ghost use Rattle.cov_model.specs.believed.Tuples.{cells_of};
    ghost use Rattle.refutation.specs.believed.Proofs.{format_of};
    ghost use Rattle.feasibility.specs.Refuting.{IsRefuter, RefuterView, earlier_tuples};

    ghost Value = { RefuterView };

    ghost coded = { Prim.hlevel (codes, tested.the_row.coded) };

    ghost view = { λ a. record {
      model = a.tree.now.model;
      lists = a.tree.now.values;
      format = format_of a.omissions.now.form;
      earlier = earlier_tuples a.tree.now.model a.omissions.now;
      tuple = cells_of (length a.tree.now.model.params) a.tuple.now;
    } };

    ghost invariant = { λ a. IsRefuter (record {
      model = a.tree.now.model;
      lists = a.tree.now.values;
      format = format_of a.omissions.now.form;
      earlier = earlier_tuples a.tree.now.model a.omissions.now;
      tuple = cells_of (length a.tree.now.model.params) a.tuple.now;
    }) a.slice };
}

// Whether a number is less than another, if there is another.
fn is_less(number: u32, other: Option<u32>) -> bool
    ensures { result ≡ is_less number other }
{
    match other {
        Some(most) => number < most,
        None => true,
    }
}

impl<'t> Refuter<'t> {
    /// A refuter of the tuple of a slice, after these omissions.
    pub fn new(
        tree: &'t SearchTree<'t>,
        slice: Slice,
        tuple: &'t Tuple,
        omissions: &'t Omissions,
    ) -> Refuter<'t>
        requires { IsRefuter (record {
          model = tree.now.model;
          lists = tree.now.values;
          format = format_of omissions.now.form;
          earlier = earlier_tuples tree.now.model omissions.now;
          tuple = cells_of (length tree.now.model.params) tuple.now;
        }) slice }
        ensures { result ≡ record {
          model = tree.now.model;
          lists = tree.now.values;
          format = format_of omissions.now.form;
          earlier = earlier_tuples tree.now.model omissions.now;
          tuple = cells_of (length tree.now.model.params) tuple.now;
        } }
    {
        Refuter {
            tree,
            slice,
            tuple,
            omissions,
        }
    }

    /// What a refuter keeps.
    pub fn assert_invariant(&self)
        ensures sound { IsSound self.now.model }
        ensures values { ListsValues self.now.model self.now.lists }
        ensures positive { TriesPositive self.now }
    {
        self.tree.assert_invariant();
    }

    /// What a search of the tuple's slice looks at.
    pub fn tree(&self) -> &'t SearchTree<'t>
        ensures { result.now ≡ record { model = self.now.model; values = self.now.lists } }
    {
        self.tree
    }

    // The constrained parameter at a place.
    pub(crate) fn constrained_param(&self, i: usize) -> ParamNo
        requires { i < length (constrained_params self.now.model) }
        ensures { result ≡ constrained_at self.now.model i }
    {
        self.tree().constrained_at(i).param
    }

    /// How many values a parameter has.
    pub fn count_of(&self, q: ParamNo) -> ValueNo
        requires { q < length self.now.model.params }
        ensures { result ≡ length (param_at self.now.model.params q).values }
    {
        self.tree().count_of(q)
    }

    /// Whether a value is negative.
    pub fn is_negative(&self, q: ParamNo, v: ValueNo) -> bool
        requires parameter { q < length self.now.model.params }
        requires value { v < length (param_at self.now.model.params q).values }
        ensures { result ≡ (value_at self.now.model q v).negative }
    {
        self.tree().model().is_negative(q, v)
    }

    /// The cells become the tuple.
    pub fn begin(&self, cells: &mut Cells)
        requires { length cells.old ≡ length self.now.model.params }
        ensures { cells.new ≡ self.now.tuple }
    {
        cells.copy_tuple(self.tuple);
    }

    // The constraints that this value of a parameter leaves undecided, of those that name the
    // parameter.
    pub(crate) fn undecided(&self, q: ParamNo, v: ValueNo) -> &'t [u16]
        requires parameter { q < length self.now.model.params }
        requires value { v < length (param_at self.now.model.params q).values }
        ensures { result.now ≡ undecided self.now.model q v }
    {
        self.tree.undecided(q, v)
    }

    /// The least number of a constraint that is No on the cells.
    pub fn first_no(&self, cells: &Cells) -> Option<u32>
        requires { FitsModel self.now.model cells.now }
        ensures { result ≡ find (no_on self.now.model cells.now) (range_with_len 1 (length self.now.model.rules)) }
    {
        let tree = self.tree();
        let count = tree.model().rules().len() as u32;
        for i in 0..count {
            if tree.is_no(i + 1, cells) {
                return Some(i + 1);
            }
        }
        None
    }

    // The first of these numbers of constraints whose constraint is No on the cells.
    pub(crate) fn first_no_of(&self, rules: &[u16], cells: &Cells) -> Option<u32>
        requires exist { AreRules self.now.model rules.now }
        requires fits { FitsModel self.now.model cells.now }
        ensures { result ≡ find (no_on self.now.model cells.now) rules.now }
    {
        let tree = self.tree();
        for rule in rules {
            if tree.is_no(*rule as u32, cells) {
                return Some(*rule as u32);
            }
        }
        None
    }

    // Whether the tuple gives the parameter of the slice's negative value a value, if there is one.
    fn gives_negative(&self, tuple: &Tuple) -> bool
        ensures { result ≡ list_all (is_assigned (cells_of (length self.now.model.params) tuple.now)) (negatives self.now.model self.now.tuple) }
    {
        match self.slice {
            Slice::Positive => true,
            Slice::Negative(fixed, _) => tuple.has_param(fixed),
        }
    }

    // Whether the omission at a place is a leaf on the cells, in a proof whose form has such leaves.
    fn is_cited(&self, i: u32, cells: &Cells) -> bool
        requires place { i < length self.now.earlier }
        requires long { length cells.now ≡ length self.now.model.params }
        ensures { result ≡ is_cited self.now cells.now (slice_index_or self.now.earlier i []) }
    {
        let tuple = &self.omissions.as_slice()[i as usize].tuple;
        cells.contains(tuple) && self.gives_negative(tuple)
    }

    // Whether the omission of a number is a leaf on the cells, in such a proof.
    fn is_citation(&self, number: u32, cells: &Cells) -> bool
        requires form { self.now.format ≡ 2 }
        requires long { length cells.now ≡ length self.now.model.params }
        ensures { result ≡ is_omission_leaf self.now.model self.now.format self.now.earlier self.now.tuple cells.now number }
    {
        if number == 0 || number as usize > self.omissions.len() {
            return false;
        }
        self.is_cited(number - 1, cells)
    }

    // The lesser of a number, if there is one, and of the first of a list whose omission is a leaf on
    // the cells. The numbers of the list never fall.
    fn lesser_citation(&self, numbers: &[u32], least: Option<u32>, cells: &Cells) -> Option<u32>
        requires form { self.now.format ≡ 2 }
        requires long { length cells.now ≡ length self.now.model.params }
        requires rising { NeverFalls numbers.now }
        ensures { Lowers (is_omission_leaf self.now.model self.now.format self.now.earlier self.now.tuple cells.now) numbers.now least result }
    {
        for number in numbers {
            if !is_less(*number, least) {
                return least;
            }
            if self.is_citation(*number, cells) {
                return Some(*number);
            }
        }
        least
    }

    /// The omissions that stand before the tree.
    pub fn omissions(&self) -> &'t Omissions
        ensures format { self.now.format ≡ format_of result.now.form }
        ensures earlier { self.now.earlier ≡ earlier_tuples self.now.model result.now }
    {
        self.omissions
    }

    // The least number of an omission that is a leaf on the cells, in such a proof: an omission's tuple
    // that the cells contain ends with one of their pairs, if its parameters are of the model.
    fn first_ending(&self, omissions: &Omissions, cells: &Cells) -> Option<u32>
        requires form { self.now.format ≡ 2 }
        requires long { length cells.now ≡ length self.now.model.params }
        requires earlier { self.now.earlier ≡ earlier_tuples self.now.model omissions.now }
        requires within { All (λ omission. EndsWithin (length self.now.model.params) omission.tuple) omissions.now.omissions }
        ensures { result ≡ find (is_omission_leaf self.now.model self.now.format self.now.earlier self.now.tuple cells.now) (range_with_len 1 (length self.now.earlier)) }
    {
        self.assert_invariant();
        let count = cells.len() as ParamNo;
        let mut least = None;
        for p in 0..count {
            if let Some(v) = cells.get(p) {
                least = self.lesser_citation(omissions.numbers_ending(p, v), least, cells);
            }
        }
        least
    }

    // The same, whatever the tuples are.
    fn first_of_all(&self, cells: &Cells) -> Option<u32>
        requires form { self.now.format ≡ 2 }
        requires long { length cells.now ≡ length self.now.model.params }
        ensures { result ≡ find (is_omission_leaf self.now.model self.now.format self.now.earlier self.now.tuple cells.now) (range_with_len 1 (length self.now.earlier)) }
    {
        let count = self.omissions.len() as u32;
        for i in 0..count {
            if self.is_cited(i, cells) {
                return Some(i + 1);
            }
        }
        None
    }

    // The same, looked for where it can be.
    fn first_contained(&self, cells: &Cells) -> Option<u32>
        requires form { self.now.format ≡ 2 }
        requires long { length cells.now ≡ length self.now.model.params }
        ensures { result ≡ find (is_omission_leaf self.now.model self.now.format self.now.earlier self.now.tuple cells.now) (range_with_len 1 (length self.now.earlier)) }
    {
        self.assert_invariant();
        let omissions = self.omissions();
        let count = cells.len() as ParamNo;
        if omissions.are_within(count) {
            self.first_ending(omissions, cells)
        } else {
            self.first_of_all(cells)
        }
    }

    /// The least number of an omission that is a leaf on the cells.
    pub fn first_cited(&self, cells: &Cells) -> Option<u32>
        requires { length cells.now ≡ length self.now.model.params }
        ensures { result ≡ find (is_omission_leaf self.now.model self.now.format self.now.earlier self.now.tuple cells.now) (range_with_len 1 (length self.now.earlier)) }
    {
        match self.omissions().form() {
            ProofForm::One => None,
            ProofForm::Two => self.first_contained(cells),
        }
    }
}
