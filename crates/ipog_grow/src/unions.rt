ghost use Rattle.std.specs.Prelude.{◌≡◌, ◌≢◌, ℕ, ◌<◌, ◌≤◌, All, None, if◌then◌else◌, length, slice_index_or, take};
ghost use Rattle.std.specs.Option.{is_some};
ghost use Rattle.definitions.specs.believed.Growth.{agrees, union};
ghost use Rattle.ipog_grow.specs.Growing.{given_params};

use cov_model::{Cells, ParamNo, ValueNo};

// Whether no parameter has one value in a partial row and another in a tuple, which gives values to
// these parameters.
pub(crate) fn agree(row: &[Option<ValueNo>], tuple: &Cells, given: &[ParamNo]) -> bool
    requires long { length tuple.now ≡ length row.now }
    requires given { given.now ≡ given_params tuple.now }
    requires exist { All (λ p. p < length row.now) given.now }
    ensures { result ≡ agrees row.now tuple.now }
{
    for p in given {
        if let (Some(v), Some(w)) = (row[*p as usize], tuple.get(*p)) {
            if v != w {
                return false;
            }
        }
    }
    true
}

// Gives a parameter the value that a tuple gives it, unless it has one.
fn put_beside(tuple: &Cells, p: ParamNo, into: &mut Cells)
    requires tuple { p < length tuple.now }
    requires room { p < length into.old }
    ensures long { length into.new ≡ length into.old }
    ensures others { (q : ℕ) → q ≢ p → slice_index_or into.new q None ≡ slice_index_or into.old q None }
    ensures own { slice_index_or into.new p None
        ≡ (if is_some (slice_index_or into.old p None) then slice_index_or into.old p None else slice_index_or tuple.now p None) }
{
    if into.get(p).is_some() {
        return;
    }
    if let Some(v) = tuple.get(p) {
        into.set_cell(p, v);
    }
}

// Puts the values of a partial row, and beside them those of a tuple that agrees with it. The tuple gives
// values to these parameters.
pub(crate) fn unite(row: &[Option<ValueNo>], tuple: &Cells, given: &[ParamNo], into: &mut Cells)
    requires long { length tuple.now ≡ length row.now }
    requires given { given.now ≡ given_params tuple.now }
    requires exist { All (λ p. p < length row.now) given.now }
    requires room { length into.old ≡ length row.now }
    ensures { into.new ≡ union row.now tuple.now }
{
    into.copy_from_slice(row);
    for p in given {
        put_beside(tuple, *p, into);
    }
}
