ghost use Rattle.std.specs.Prelude.{◌≡◌, ◌*◌, ◌^◌, ◌≤◌, nat_le, if◌then◌else◌};
ghost use Rattle.coverage_measure.specs.SetFigures.{IsWithin, with_set};

// How well demanded sets are covered: the sums of their servable and of their covered tuples, and of how many
// sets at least so many percent of the servable tuples are covered: all, 75, 50, 25.
#[derive(Drop, Clone, Copy)]
pub(crate) struct SetFigures {
    pub(crate) servable: u64,
    pub(crate) covered: u64,
    pub(crate) complete: u64,
    pub(crate) at75: u64,
    pub(crate) at50: u64,
    pub(crate) at25: u64,
}

// One for a set of whose servable tuples at least so many percent are covered, and else none. A set without
// servable tuples counts.
fn one_at(percent: u64, servable: u32, covered: u32) -> u64
    requires { percent ≤ 100 }
    ensures { result ≡ (if nat_le (percent * servable) (100 * covered) then 1 else 0) }
{
    if 100 * u64::from(covered) >= percent * u64::from(servable) {
        1
    } else {
        0
    }
}

impl SetFigures {
    // Of no set.
    pub(crate) fn none() -> SetFigures
        ensures { result ≡ record { servable = 0; covered = 0; complete = 0; at75 = 0; at50 = 0; at25 = 0 } }
    {
        SetFigures {
            servable: 0,
            covered: 0,
            complete: 0,
            at75: 0,
            at50: 0,
            at25: 0,
        }
    }

    // Adds a set with these numbers of servable and of covered tuples.
    pub(crate) fn add(&mut self, servable: u32, covered: u32)
        requires { IsWithin (2 ^ 20) self.old }
        ensures { self.new ≡ with_set self.old servable covered }
    {
        self.servable += u64::from(servable);
        self.covered += u64::from(covered);
        self.complete += one_at(100, servable, covered);
        self.at75 += one_at(75, servable, covered);
        self.at50 += one_at(50, servable, covered);
        self.at25 += one_at(25, servable, covered);
    }
}
