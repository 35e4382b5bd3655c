ghost use Rattle.std.specs.Prelude.{◌≡◌, All, None, false, slice_index_or};
ghost use Rattle.cov_model.specs.Fits.{FitsModel};
ghost use Rattle.cov_model.specs.believed.Kleene.{known, not_of, term_truth};
ghost use Rattle.cov_model.specs.believed.Sound.{IsSoundTerm};
ghost use Rattle.compiled_rules.specs.Codes.{all_codes, any_codes, body_code_truth, code_truth, one_truth, two_truth};
ghost use Rattle.compiled_rules.specs.SoundCodes.{IsSoundBodyCode, IsSoundCode};

use crate::table::TruthTable;
use cov_model::{Cells, ParamNo, Rel, Term, TestModel, Truth, ValueNo};
use value_text::OwnedList;

/// A predicate whose terms are compiled.
#[derive(Drop)]
pub(crate) enum Code {
    /// A term of one parameter, whose truths at the values begin at `start` in the table.
    OneParameter {
        parameter: ParamNo,
        start: u32,
    },
    /// A term of two parameters, whose truths at the pairs of values begin at `start` in the table, a
    /// row for each value of the first; `width` values has the second.
    TwoParameters {
        first: ParamNo,
        second: ParamNo,
        start: u32,
        width: u16,
    },
    /// A comparison of two parameters with too many pairs of values for the table: it is told from the
    /// model each time.
    Comparison {
        first: ParamNo,
        relation: Rel,
        second: ParamNo,
    },
    /// The predicate doesn't hold.
    Not(Box<Code>),
    /// Each predicate holds.
    All(CodeList),
    /// Some predicate holds.
    Any(CodeList),
}

/// The parts of `All` and `Any`.
pub(crate) type CodeList = OwnedList<Code>;

/// A constraint whose terms are compiled.
#[derive(Drop)]
pub(crate) enum BodyCode {
    /// The predicate holds.
    Plain(Code),
    /// Where the first holds, the second does.
    IfThen(Code, Code),
    /// Where the first holds, the second does, and where it doesn't, the third does.
    IfElse(Code, Code, Code),
}

// The truth at a place of the table.
#[inline]
fn truth_at(table: &TruthTable, place: usize) -> Truth
    ensures { result ≡ known (slice_index_or table.now place false) }
{
    Truth::of(table.holds(place))
}

// The value of a parameter, if it has one.
#[inline]
fn value_of(cells: &Cells, p: ParamNo) -> Option<ValueNo>
    ensures { result ≡ slice_index_or cells.now p None }
{
    match cells.as_slice().get(p as usize) {
        Some(value) => *value,
        None => None,
    }
}

// What is known of a compiled term of one parameter.
#[inline]
fn one_truth(table: &TruthTable, parameter: ParamNo, start: u32, cells: &Cells) -> Truth
    ensures { result ≡ one_truth table.now parameter start cells.now }
{
    match value_of(cells, parameter) {
        Some(v) => truth_at(table, start as usize + v as usize),
        None => Truth::Unknown,
    }
}

// What is known of a compiled term of two parameters.
#[inline]
fn two_truth(
    table: &TruthTable,
    first: ParamNo,
    second: ParamNo,
    start: u32,
    width: u16,
    cells: &Cells,
) -> Truth
    ensures { result ≡ two_truth table.now first second start width cells.now }
{
    match (value_of(cells, first), value_of(cells, second)) {
        (Some(v), Some(w)) => {
            truth_at(
                table,
                start as usize + v as usize * width as usize + w as usize,
            )
        }
        _ => Truth::Unknown,
    }
}

// What is known of a comparison that isn't in the table.
#[inline(never)]
fn comparison_truth(
    model: &TestModel,
    first: ParamNo,
    relation: Rel,
    second: ParamNo,
    cells: &Cells,
) -> Truth
    requires sound { IsSoundTerm model.now.params (Term.ParamIs first relation second) }
    requires fits { FitsModel model.now cells.now }
    ensures { result ≡ term_truth model.now (Term.ParamIs first relation second) cells.now }
{
    model.term_truth(&Term::ParamIs(first, relation, second), cells)
}

// What is known of a compiled predicate. Most are terms in the table, which need no call.
#[inline(always)]
#[cycle(truths)]
pub(crate) fn code_truth(model: &TestModel, table: &TruthTable, code: &Code, cells: &Cells) -> Truth
    requires sound { IsSoundCode model.now.params code.now }
    requires fits { FitsModel model.now cells.now }
    ensures { result ≡ code_truth model.now table.now code.now cells.now }
{
    match code {
        Code::OneParameter { parameter, start } => one_truth(table, *parameter, *start, cells),
        Code::TwoParameters {
            first,
            second,
            start,
            width,
        } => two_truth(table, *first, *second, *start, *width, cells),
        Code::Comparison {
            first,
            relation,
            second,
        } => comparison_truth(model, *first, *relation, *second, cells),
        Code::Not(inner) => not_truth(model, table, inner, cells),
        Code::All(parts) => all_codes(model, table, parts.as_slice(), cells),
        Code::Any(parts) => any_codes(model, table, parts.as_slice(), cells),
    }
}

// What is known of the negation of a compiled predicate.
#[inline(never)]
#[cycle(truths)]
fn not_truth(model: &TestModel, table: &TruthTable, code: &Code, cells: &Cells) -> Truth
    requires sound { IsSoundCode model.now.params code.now }
    requires fits { FitsModel model.now cells.now }
    ensures { result ≡ not_of (code_truth model.now table.now code.now cells.now) }
{
    code_truth(model, table, code, cells).negated()
}

// What is known of a list of compiled predicates: that each holds.
#[inline(never)]
#[cycle(truths)]
fn all_codes(model: &TestModel, table: &TruthTable, parts: &[Code], cells: &Cells) -> Truth
    requires sound { All (IsSoundCode model.now.params) parts.now }
    requires fits { FitsModel model.now cells.now }
    ensures { result ≡ all_codes model.now table.now parts.now cells.now }
{
    let mut so_far = Truth::Yes;
    for part in parts {
        so_far = so_far.and(code_truth(model, table, part, cells));
        if so_far == Truth::No {
            return Truth::No;
        }
    }
    so_far
}

// What is known of a list of compiled predicates: that some of them holds.
#[inline(never)]
#[cycle(truths)]
fn any_codes(model: &TestModel, table: &TruthTable, parts: &[Code], cells: &Cells) -> Truth
    requires sound { All (IsSoundCode model.now.params) parts.now }
    requires fits { FitsModel model.now cells.now }
    ensures { result ≡ any_codes model.now table.now parts.now cells.now }
{
    let mut so_far = Truth::No;
    for part in parts {
        so_far = so_far.or(code_truth(model, table, part, cells));
        if so_far == Truth::Yes {
            return Truth::Yes;
        }
    }
    so_far
}

// What is known of a compiled constraint.
pub(crate) fn body_truth(
    model: &TestModel,
    table: &TruthTable,
    body: &BodyCode,
    cells: &Cells,
) -> Truth
    requires sound { IsSoundBodyCode model.now.params body.now }
    requires fits { FitsModel model.now cells.now }
    ensures { result ≡ body_code_truth model.now table.now body.now cells.now }
{
    match body {
        BodyCode::Plain(code) => code_truth(model, table, code, cells),
        BodyCode::IfThen(premise, code) => match code_truth(model, table, premise, cells) {
            Truth::No => Truth::Yes,
            met => met.negated().or(code_truth(model, table, code, cells)),
        },
        BodyCode::IfElse(premise, code, other) => match code_truth(model, table, premise, cells) {
            Truth::Yes => code_truth(model, table, code, cells),
            Truth::No => code_truth(model, table, other, cells),
            Truth::Unknown => {
                let first = Truth::Unknown.or(code_truth(model, table, code, cells));
                first.and(Truth::Unknown.or(code_truth(model, table, other, cells)))
            }
        },
    }
}
