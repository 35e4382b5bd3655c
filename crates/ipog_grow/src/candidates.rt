ghost use Rattle.std.specs.Prelude.{◌≡◌, drop, slice_get};

use std::marker::Model;

// The numbers of the partial rows that a tuple may join, in order: rising ones of rows without a value
// in the column that grows, and rising ones of rows with the tuple's value there.
#[derive(Drop)]
pub(crate) struct Candidates<'a> {
    pub(crate) without: &'a [usize],
    pub(crate) with_value: &'a [usize],
}

impl<'a> Model for Candidates<'a> {
    ghost use Rattle.std.specs.Prelude.{ℕ, List};
    ghost use Rattle.ipog_grow.specs.UnfilledRows.{merged};

    ghost Value = { List ℕ };

    ghost view = { λ candidates. merged candidates.without.now candidates.with_value.now };
}

impl<'a> Candidates<'a> {
    // The first of them, which is taken away.
    pub(crate) fn take_first(&mut self) -> Option<usize>
        ensures first { result ≡ slice_get self.old 0 }
        ensures rest { self.new ≡ drop 1 self.old }
    {
        match (self.without, self.with_value) {
            ([i, without @ ..], [j, with_value @ ..]) => {
                if i <= j {
                    self.without = without;
                }
                if j <= i {
                    self.with_value = with_value;
                }
                if i <= j { Some(*i) } else { Some(*j) }
            }
            ([i, without @ ..], []) => {
                self.without = without;
                Some(*i)
            }
            ([], [j, with_value @ ..]) => {
                self.with_value = with_value;
                Some(*j)
            }
            ([], []) => None,
        }
    }
}
