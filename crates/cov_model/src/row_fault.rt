ghost use Rattle.std.specs.Prelude.{◌≡◌, ◌&&◌, ◌<◌, true, is_none, length};
ghost use Rattle.cov_model.specs.Views.{body_view};
ghost use Rattle.cov_model.specs.believed.Sound.{IsSoundBody};
ghost use Rattle.cov_model.specs.believed.Rows.{is_assigned};
ghost use Rattle.cov_model.specs.Fits.{FitsModel};
ghost use Rattle.cov_model.specs.believed.Meaning.{body_holds, given_value};
ghost use Rattle.cov_model.specs.believed.Valid.{is_row, is_valid, negatives};
ghost use Rattle.cov_model.specs.believed.RowFault.{first_two, row_fault};
ghost use Rattle.cov_model.specs.Laws.{NoStays, RowsAreKnown, YesStays};

use crate::cells::Cells;
use crate::constraint::Body;
use crate::model::TestModel;
use crate::parameter::ParamNo;
use crate::truth::Truth;

/// Why a row isn't valid.
#[derive(Debug, Drop, Clone, Copy, PartialEq, Eq)]
pub enum RowWhy {
    /// The constraint of this number is false on it.
    Rule(u32),
    /// Both parameters have negative values, the first one declared before the second.
    Negatives(ParamNo, ParamNo),
}

/// What is known of a constraint on a partial row is so on every row that contains it: No means
/// that it is false there, Yes that it is true. On rows nothing is unknown. (Kleene's logic.)
pub fn partial_rows_tell()
    ensures no { NoStays }
    ensures yes { YesStays }
    ensures rows { RowsAreKnown }
{}

impl TestModel {
    // Whether a constraint is true on a row.
    fn holds_on(&self, body: &Body, row: &Cells) -> bool
        requires sound { IsSoundBody self.now.params (body_view body.now) }
        requires row { is_row self.now row.now ≡ true }
        requires fits { FitsModel self.now row.now }
        ensures { result ≡ body_holds self.now (body_view body.now) row.now }
    {
        self.body_truth(body, row) == Truth::Yes
    }

    /// Whether a partial row gives a parameter a negative value. Takes no memory.
    pub fn gives_negative(&self, p: ParamNo, cells: &Cells) -> bool
        requires parameter { p < length self.now.params }
        requires fits { FitsModel self.now cells.now }
        ensures { result ≡ (is_assigned cells.now p && (given_value self.now cells.now p).negative) }
    {
        match self.given(p, cells) {
            Some(value) => value.negative,
            None => false,
        }
    }

    // The first two parameters to which the cells give negative values.
    fn two_negatives(&self, cells: &Cells) -> Option<RowWhy>
        requires fits { FitsModel self.now cells.now }
        ensures { result ≡ first_two (negatives self.now cells.now) }
    {
        let count = self.params().len() as u16;
        let mut first = None;
        for p in 0..count {
            if self.gives_negative(p, cells) {
                match first {
                    Some(q) => return Some(RowWhy::Negatives(q, p)),
                    None => first = Some(p),
                }
            }
        }
        None
    }

    /// Why the row isn't valid: the constraint of least number that is false on it, else the first
    /// two parameters with negative values, of which a row holds at most one (PICT's guide). `None`
    /// exactly where the row is valid. Takes no memory.
    pub fn row_fault(&self, row: &Cells) -> Option<RowWhy>
        requires { is_row self.now row.now ≡ true }
        ensures fault { result ≡ row_fault self.now row.now }
        ensures valid { is_none result ≡ is_valid self.now row.now }
    {
        for rule in self.rules().as_slice() {
            if !self.holds_on(&rule.body, row) {
                return Some(RowWhy::Rule(rule.number));
            }
        }
        self.two_negatives(row)
    }
}
