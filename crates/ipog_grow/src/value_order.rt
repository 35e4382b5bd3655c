ghost use Rattle.std.specs.Prelude.{◌≡◌, ◌<◌, ◌≤◌, ℕ, true, All, IsPermutation, length, slice_index, IfSome};
ghost use Rattle.std.specs.List.{range_with_len};
ghost use Rattle.ipog_grow.specs.Growing.{best};

use crate::top_score::greatest;
use cov_model::ValueNo;
use std::marker::Model;

// Whether values stand in declared order.
fn is_declared(values: &[ValueNo]) -> bool
    ensures { result ≡ true → (k : ℕ) → k < length values.now → slice_index values.now k ≡ k }
{
    for k in 0..values.len() {
        if usize::from(values[k]) != k {
            return false;
        }
    }
    true
}

// The values of a column in preference order. Contracts see the list of them.
#[derive(Drop)]
pub(crate) struct ValueOrder<'a> {
    values: &'a [ValueNo],
    // Whether this is the declared order, in which a score stands at the place of its value.
    declared: bool,
}

impl<'a> Model for ValueOrder<'a> {
    ghost use Rattle.std.specs.Prelude.{List, ℕ, ◌≡◌, ◌<◌, true, slice_index, length};

    ghost Value = { List ℕ };

    ghost view = { λ order. order.values.now };

    ghost invariant = { λ order. order.declared ≡ true → (k : ℕ) → k < length order.values.now → slice_index order.values.now k ≡ k };
}

impl<'a> ValueOrder<'a> {
    // The order of these values.
    pub(crate) fn new(values: &'a [ValueNo]) -> ValueOrder<'a>
        ensures { result ≡ values.now }
    {
        ValueOrder {
            values,
            declared: is_declared(values),
        }
    }

    // A place up to which each value is its own place, and not above another place.
    fn place_from(&self, begin: usize) -> usize
        ensures most { result ≤ begin }
        ensures own { (k : ℕ) → k < result → k < length self.now → slice_index self.now k ≡ k }
    {
        if self.declared { begin } else { 0 }
    }

    // The first value of the greatest score, if one has a score above 0. Scores are compared in their own order
    // first, many at once; in the declared order the value is then looked for in one block alone. There is a place
    // in the order for each score.
    pub(crate) fn best(&self, scores: &[u32]) -> Option<ValueNo>
        requires order { IsPermutation (range_with_len 0 (length scores.now)) self.now }
        requires exist { All (λ v. v < length scores.now) self.now }
        ensures best { result ≡ best (λ v. slice_index scores.now v) self.now }
        ensures within { IfSome result (λ v. v < length scores.now) }
    {
        let most = greatest(scores);
        if most.score == 0 {
            return None;
        }
        for k in self.place_from(most.begin)..self.values.len() {
            let v = self.values[k];
            if scores[v as usize] == most.score {
                return Some(v);
            }
        }
        None
    }
}
