ghost use Rattle.std.specs.Prelude.{◌≡◌, ◌+◌, ◌*◌, true, ◌^◌, ◌<◌, ◌≤◌, ℕ, List, [], All, Some, None, IfErr, IfOk, OnOk, length, map, take, sum, sum_by, slice_get, slice_index_or};
ghost use Rattle.cov_model.specs.believed.Sound.{ModelView};
ghost use Rattle.definitions.specs.believed.Demand.{is_among, tuples_of};
ghost use Rattle.tuple_index.specs.Kept.{IsKept, of_values, with_sets};
ghost use Rattle.tuple_index.specs.Places.{RisesFrom, IsOwnSlice, has_part, ways_in, negative_lists, negative_ways, IsSliceOfPlan, negatives_of, place, place_of, rank_of};
ghost use Rattle.tuple_index.specs.Places.{slice_given, start_of, tuple_count, tuple_lists, value_lists, values_in, ways, ways_before};
ghost use Rattle.tuple_index.specs.Plan.{IsChoice, is_negative, plan_of, set_at, tuple_cells};
ghost use Rattle.tuple_index.specs.PlanFault.{IsFaultOf};
ghost use Rattle.tuple_index.specs.believed.PlanFault.{limit_passed, saturated};

use crate::bases::bases_of;
use crate::count::count_choices;
use crate::fault::PlanFault;
use crate::sets::sets_of;
use crate::values::values_by_sign;
use cov_model::{ParamNo, Slice, TestModel, ValueNo};
use packed_lists::PackedLists;
use std::alloc::Global;
use std::marker::Model;
use value_text::NoMemory;

/// The plan of a model: its demanded sets, and the ranks of their demanded tuples.
#[derive(Drop)]
pub struct Plan {
    members_of: PackedLists,
    counts: Vec<u32>,
    bases: Vec<u32>,
    positive: Vec<Vec<u16>>,
    negative: Vec<Vec<u16>>,
}

impl Model for Plan {
    ghost use Rattle.std.specs.Prelude.{map};
    ghost use Rattle.tuple_index.specs.Plan.{PlanView};
    ghost use Rattle.tuple_index.specs.Kept.{AreBases, IsKept};

    ghost Value = { PlanView };

    ghost view = { λ a. record { sets = a.members_of; sizes = a.counts.items; positives = map (λ s. s.items) a.positive.items; negatives = map (λ s. s.items) a.negative.items } };

    ghost invariant = { λ a. AreBases a.counts.items a.bases.items
        × IsKept (record { sets = a.members_of; sizes = a.counts.items; positives = map (λ s. s.items) a.positive.items; negatives = map (λ s. s.items) a.negative.items }) };
}

impl Plan {
    /// The plan of a model. The choices of sets are counted before any is listed, and the tuples of
    /// a set are never listed.
    ///
    /// # Errors
    ///
    /// `TooManySets` where there are more than 2^20 choices of demanded sets, before equal ones are
    /// joined; else `TooManyTuples` where there are more than 2^26 demanded tuples; `NoMemory` where
    /// memory is refused.
    pub fn new(alloc: Global, model: &TestModel) -> Result<Plan, PlanFault>
        ensures made { IfOk result (λ plan. plan ≡ plan_of model.now) }
        ensures within { OnOk result (limit_passed model.now ≡ None) }
        ensures refused { IfErr result (IsFaultOf model.now) }
    {
        let choices = count_choices(alloc, model)?;
        if choices > 1 << 20 {
            return Err(PlanFault::TooManySets(choices));
        }
        let sets = sets_of(alloc, model)?;
        let values = Plan::without_sets(alloc, model)?;
        let tuples = values.count_all(&sets);
        if tuples > 1 << 26 {
            return Err(PlanFault::TooManyTuples(tuples));
        }
        Ok(values.with_sets(alloc, sets)?)
    }

    // The values of the parameters by their signs, and no set.
    fn without_sets(alloc: Global, model: &TestModel) -> Result<Plan, NoMemory>
        ensures { IfOk result (λ plan. plan ≡ of_values (plan_of model.now)) }
    {
        let positive = values_by_sign(alloc, model, false)?;
        let negative = values_by_sign(alloc, model, true)?;
        Ok(Plan {
            members_of: PackedLists::new(alloc),
            counts: Vec::new(alloc),
            bases: Vec::new(alloc),
            positive,
            negative,
        })
    }

    // The plan with these sets, and with the values of this one.
    fn with_sets(self, alloc: Global, sets: PackedLists) -> Result<Plan, NoMemory>
        requires rising { All (RisesFrom 0 (length self.positives)) sets }
        requires few { length sets ≤ 2 ^ 20 }
        requires within { sum_by (tuple_count self) sets ≤ 2 ^ 26 }
        ensures { IfOk result (λ plan. plan ≡ with_sets self sets) }
    {
        let counts = self.sizes_of(alloc, &sets)?;
        let bases = bases_of(alloc, &counts)?;
        Ok(Plan {
            members_of: sets,
            counts,
            bases,
            positive: self.positive,
            negative: self.negative,
        })
    }

    // How many demanded tuples these sets have.
    fn count_all(&self, sets: &PackedLists) -> u64
        requires { All (RisesFrom 0 (length self.now.positives)) sets.now }
        ensures { result ≡ saturated (sum_by (tuple_count self.now) sets.now) }
    {
        let mut count: u64 = 0;
        for i in 0..sets.len() {
            count = count.saturating_add(self.count_tuples(sets.list(i)));
        }
        count
    }

    // How many demanded tuples each of these sets has.
    fn sizes_of(&self, alloc: Global, sets: &PackedLists) -> Result<Vec<u32>, NoMemory>
        requires rising { All (RisesFrom 0 (length self.now.positives)) sets.now }
        requires within { sum_by (tuple_count self.now) sets.now ≤ 2 ^ 26 }
        ensures { IfOk result (λ sizes. sizes.items ≡ map (tuple_count self.now) sets.now) }
    {
        let mut sizes = Vec::with_capacity(alloc, sets.len())?;
        for i in 0..sets.len() {
            let count = self.count_tuples(sets.list(i)) as u32;
            sizes.push(count)?;
        }
        Ok(sizes)
    }

    /// Says again what every plan keeps: its sets rise, and its sizes are the numbers of their tuples.
    /// Does nothing when it runs.
    pub fn assert_invariant(&self)
        ensures { IsKept self.now }
    {
        // a use of a field brings into a proof what the type keeps
        let _ = &self.members_of;
    }

    /// The number of demanded sets. Takes no memory.
    pub fn set_count(&self) -> u32
        ensures value { result ≡ length self.now.sets }
        ensures kept { IsKept self.now }
    {
        self.members_of.len() as u32
    }

    /// The parameters of a set, rising. Takes no memory.
    pub fn members(&self, set: u32) -> &[ParamNo]
        requires { set < length self.now.sets }
        ensures { result.now ≡ set_at self.now set }
    {
        self.members_of.list(set as usize)
    }

    /// The number of demanded tuples of a set. Takes no memory.
    pub fn size(&self, set: u32) -> u32
        requires { set < length self.now.sets }
        ensures { result ≡ slice_index_or self.now.sizes set 0 }
    {
        self.counts[set as usize]
    }

    /// The number of demanded tuples of the sets before a set. Takes no memory.
    pub fn base(&self, set: u32) -> u32
        requires { set < length self.now.sets }
        ensures { result ≡ sum (take set self.now.sizes) }
    {
        self.bases[set as usize]
    }

    /// The place of a demanded tuple among those of its set, counted from 0: slice by slice, the
    /// positive one first, and inside a slice in lexicographic order of the value numbers. The values
    /// are those of the members in their order, and at most one is negative. Takes no memory.
    pub fn rank(&self, set: u32, values: &[ValueNo]) -> u32
        requires set { set < length self.now.sets }
        requires choice { IsChoice self.now (set_at self.now set) values.now }
        ensures tuple { (m : ModelView) → self.now ≡ plan_of m → slice_get (tuples_of m (set_at self.now set)) result
            ≡ Some (tuple_cells m (set_at self.now set) values.now) }
        ensures within { result < slice_index_or self.now.sizes set 0 }
    {
        self.place_of_values(self.kept_members(set), values) as u32
    }

    /// Puts the values of the demanded tuple of this rank, those of the members in their order. They
    /// are a choice, as `rank` asks. Takes no memory.
    pub fn unrank(&self, set: u32, rank: u32, into: &mut [ValueNo])
        requires set { set < length self.now.sets }
        requires rank { rank < slice_index_or self.now.sizes set 0 }
        requires room { length into.old ≡ length (set_at self.now set) }
        ensures tuple { (m : ModelView) → self.now ≡ plan_of m → slice_get (tuples_of m (set_at self.now set)) rank
            ≡ Some (tuple_cells m (set_at self.now set) into.new) }
        ensures choice { (m : ModelView) → self.now ≡ plan_of m → IsChoice self.now (set_at self.now set) into.new }
    {
        let members = self.kept_members(set);
        let (slice, rest) = self.slice_holding(members, rank as u64);
        self.put_values(members, slice, rest, into);
    }

    /// The ranks of the demanded tuples of a set in a slice: the first one, and how many there are.
    /// They stand one after another. Takes no memory.
    pub fn slice_ranks(&self, set: u32, slice: Slice) -> (u32, u32)
        requires set { set < length self.now.sets }
        requires own { IsOwnSlice self.now slice }
        ensures count { result.1 ≡ ways_in self.now (set_at self.now set) slice }
        ensures start { has_part (set_at self.now set) slice ≡ true → result.0 ≡ start_of self.now (set_at self.now set) slice }
        ensures within { result.0 + result.1 ≤ slice_index_or self.now.sizes set 0 }
    {
        let members = self.kept_members(set);
        if !is_part(members, slice) {
            return (0, 0);
        }
        let start = self.start(members, slice);
        let count = self.ways(members, slice);
        (start as u32, count as u32)
    }

    /// How many values a parameter has in a slice. Takes no memory.
    pub fn value_count(&self, p: ParamNo, slice: Slice) -> u64
        requires { p < length self.now.positives }
        ensures { result ≡ length (values_in self.now slice p) }
    {
        self.radix(p, slice)
    }

    // The parameters of a set, with what is kept of them.
    fn kept_members(&self, set: u32) -> &[ParamNo]
        requires { set < length self.now.sets }
        ensures value { result.now ≡ set_at self.now set }
        ensures rising { RisesFrom 0 (length self.now.positives) result.now }
        ensures exist { All (λ p. p < length self.now.positives) result.now }
        ensures kept { IsKept self.now }
    {
        self.assert_invariant();
        self.members(set)
    }

    // The values of a parameter that aren't negative.
    fn positives(&self, p: ParamNo) -> &[ValueNo]
        requires { p < length self.now.positives }
        ensures { result.now ≡ slice_index_or self.now.positives p [] }
    {
        self.positive[p as usize].as_slice()
    }

    // The negative values of a parameter.
    fn negatives(&self, p: ParamNo) -> &[ValueNo]
        requires { p < length self.now.positives }
        ensures { result.now ≡ negatives_of self.now p }
    {
        self.negative[p as usize].as_slice()
    }

    // How many values a parameter has in a slice.
    fn radix(&self, p: ParamNo, slice: Slice) -> u64
        requires { p < length self.now.positives }
        ensures { result ≡ length (values_in self.now slice p) }
    {
        match slice {
            Slice::Negative(q, _) if p == q => 1,
            _ => self.positives(p).len() as u64,
        }
    }

    // The place of a value among those of its parameter in a slice.
    fn digit(&self, p: ParamNo, v: ValueNo, slice: Slice) -> u64
        requires { p < length self.now.positives }
        ensures { result ≡ place_of (values_in self.now slice p) v }
    {
        match slice {
            Slice::Negative(q, w) if p == q => place_in(&[w], v),
            _ => place_in(self.positives(p), v),
        }
    }

    // How many choices of values a slice has.
    fn ways(&self, members: &[ParamNo], slice: Slice) -> u64
        requires { All (λ p. p < length self.now.positives) members.now }
        ensures { result ≡ saturated (ways (values_in self.now slice) members.now) }
    {
        let mut count: u64 = 1;
        for p in members {
            count = count.saturating_mul(self.radix(*p, slice));
        }
        count
    }

    // The place of a choice of values in a slice.
    fn place(&self, members: &[ParamNo], values: &[ValueNo], slice: Slice) -> u64
        requires exist { All (λ p. p < length self.now.positives) members.now }
        requires as_long { length values.now ≡ length members.now }
        ensures { result ≡ saturated (place (values_in self.now slice) members.now values.now) }
    {
        let mut count: u64 = 0;
        for (i, p) in members.iter().enumerate() {
            count = count
                .saturating_mul(self.radix(*p, slice))
                .saturating_add(self.digit(*p, values[i], slice));
        }
        count
    }

    // Whether a value is a negative one of the parameter.
    fn has_negative(&self, p: ParamNo, v: ValueNo) -> bool
        requires { p < length self.now.positives }
        ensures { result ≡ is_negative self.now p v }
    {
        self.negatives(p).iter().any(|w| *w == v)
    }

    // The slice of these values.
    fn given_slice(&self, members: &[ParamNo], values: &[ValueNo]) -> Slice
        requires exist { All (λ p. p < length self.now.positives) members.now }
        requires as_long { length values.now ≡ length members.now }
        ensures value { result ≡ slice_given self.now members.now values.now }
        ensures own { IsSliceOfPlan self.now result }
    {
        for (i, p) in members.iter().enumerate() {
            if self.has_negative(*p, values[i]) {
                return Slice::Negative(*p, values[i]);
            }
        }
        Slice::Positive
    }

    // How many tuples have one of so many negative values of a member.
    fn ways_with(&self, members: &[ParamNo], p: ParamNo, count: u64) -> u64
        requires exist { All (λ p. p < length self.now.positives) members.now }
        requires own { p < length self.now.positives }
        ensures { result ≡ saturated (count * ways (values_in self.now (Slice.Negative p 0)) members.now) }
    {
        if count == 0 {
            return 0;
        }
        count.saturating_mul(self.ways(members, Slice::Negative(p, 0)))
    }

    // How many tuples have a negative value of this member.
    fn negative_ways(&self, members: &[ParamNo], p: ParamNo) -> u64
        requires exist { All (λ p. p < length self.now.positives) members.now }
        requires own { p < length self.now.positives }
        ensures { result ≡ saturated (negative_ways self.now members.now p) }
    {
        self.ways_with(members, p, self.negatives(p).len() as u64)
    }

    // How many demanded tuples a set has.
    fn count_tuples(&self, members: &[ParamNo]) -> u64
        requires { All (λ p. p < length self.now.positives) members.now }
        ensures { result ≡ saturated (tuple_count self.now members.now) }
    {
        let mut count = self.ways(members, Slice::Positive);
        for p in members {
            count = count.saturating_add(self.negative_ways(members, *p));
        }
        count
    }

    // How many tuples have a negative value of a member before this one.
    fn ways_before(&self, members: &[ParamNo], q: ParamNo) -> u64
        requires { All (λ p. p < length self.now.positives) members.now }
        ensures { result ≡ saturated (ways_before self.now members.now q members.now) }
    {
        let mut count: u64 = 0;
        for p in members {
            if *p == q {
                return count;
            }
            count = count.saturating_add(self.negative_ways(members, *p));
        }
        count
    }

    // How many tuples of a set stand in the slices before.
    fn start(&self, members: &[ParamNo], slice: Slice) -> u64
        requires exist { All (λ p. p < length self.now.positives) members.now }
        requires own { IsSliceOfPlan self.now slice }
        ensures { result ≡ saturated (start_of self.now members.now slice) }
    {
        match slice {
            Slice::Positive => 0,
            Slice::Negative(q, v) => {
                let inside = self.ways_with(members, q, place_in(self.negatives(q), v));
                let before = self.ways_before(members, q).saturating_add(inside);
                self.ways(members, Slice::Positive).saturating_add(before)
            }
        }
    }

    // The place of values among the tuples of a set.
    fn place_of_values(&self, members: &[ParamNo], values: &[ValueNo]) -> u64
        requires exist { All (λ p. p < length self.now.positives) members.now }
        requires as_long { length values.now ≡ length members.now }
        ensures { result ≡ saturated (rank_of self.now members.now values.now) }
    {
        let slice = self.given_slice(members, values);
        self.start(members, slice)
            .saturating_add(self.place(members, values, slice))
    }

    // Of a tuple with a negative value of this member, the slice and the place in it.
    fn negative_holding(&self, members: &[ParamNo], q: ParamNo, place: u64) -> (Slice, u64)
        requires exist { All (λ p. p < length self.now.positives) members.now }
        requires own { q < length self.now.positives }
        requires small { place < 2 ^ 26 }
        requires within { place < negative_ways self.now members.now q }
        ensures holds { (chosen : List ℕ) → slice_get (value_lists (values_in self.now result.0) members.now) result.1 ≡ Some chosen
            → slice_get (negative_lists self.now members.now q) place ≡ Some chosen }
        ensures within { result.1 < ways (values_in self.now result.0) members.now }
        ensures small { result.1 < 2 ^ 26 }
    {
        let each = self.ways(members, Slice::Negative(q, 0));
        let v = self.negatives(q)[(place / each) as usize];
        (Slice::Negative(q, v), place % each)
    }

    // Of a tuple of a set, the slice and the place in it.
    fn slice_holding(&self, members: &[ParamNo], rank: u64) -> (Slice, u64)
        requires exist { All (λ p. p < length self.now.positives) members.now }
        requires small { rank < 2 ^ 26 }
        requires within { rank < tuple_count self.now members.now }
        ensures holds { (chosen : List ℕ) → slice_get (value_lists (values_in self.now result.0) members.now) result.1 ≡ Some chosen
            → slice_get (tuple_lists self.now members.now) rank ≡ Some chosen }
        ensures within { result.1 < ways (values_in self.now result.0) members.now }
        ensures small { result.1 < 2 ^ 26 }
    {
        let positive = self.ways(members, Slice::Positive);
        if rank < positive {
            return (Slice::Positive, rank);
        }
        let mut place = rank - positive;
        for q in members {
            let count = self.negative_ways(members, *q);
            if place < count {
                return self.negative_holding(members, *q, place);
            }
            place -= count;
        }
        unreachable!()
    }

    // The value of a parameter at a place of its values in a slice.
    fn value_at(&self, p: ParamNo, slice: Slice, place: u64) -> ValueNo
        requires own { p < length self.now.positives }
        requires within { place < length (values_in self.now slice p) }
        ensures { slice_get (values_in self.now slice p) place ≡ Some result }
    {
        match slice {
            Slice::Negative(q, v) if p == q => v,
            _ => self.positives(p)[place as usize],
        }
    }

    // Puts the values of a choice of a slice, from the last member on: dividing by the number of a member's values
    // leaves the place of the members before, so no numbers are multiplied.
    fn put_values(&self, members: &[ParamNo], slice: Slice, place: u64, into: &mut [ValueNo])
        requires exist { All (λ p. p < length self.now.positives) members.now }
        requires small { place < 2 ^ 26 }
        requires within { place < ways (values_in self.now slice) members.now }
        requires room { length into.old ≡ length members.now }
        ensures { slice_get (value_lists (values_in self.now slice) members.now) place ≡ Some into.new }
    {
        let mut rest = place;
        for i in (0..members.len()).rev() {
            let count = self.radix(members[i], slice);
            into[i] = self.value_at(members[i], slice, rest % count);
            rest /= count;
        }
    }
}

// Whether a set has tuples in a slice.
fn is_part(members: &[ParamNo], slice: Slice) -> bool
    ensures { result ≡ has_part members.now slice }
{
    match slice {
        Slice::Positive => true,
        Slice::Negative(q, _) => is_member(members, q),
    }
}

// Whether a parameter is one of a set.
fn is_member(members: &[ParamNo], q: ParamNo) -> bool
    ensures { result ≡ is_among members.now q }
{
    members.iter().any(|p| *p == q)
}

// The place of a value in a list, or the list's length.
fn place_in(values: &[ValueNo], v: ValueNo) -> u64
    ensures { result ≡ place_of values.now v }
{
    for (i, w) in values.iter().enumerate() {
        if *w == v {
            return i as u64;
        }
    }
    values.len() as u64
}
