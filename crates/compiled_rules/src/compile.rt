ghost use Rattle.std.specs.Prelude.{◌≡◌, ◌<◌, ◌++◌, ◌∷◌, [], length, IfOk, OnOk, All};
ghost use Rattle.cov_model.specs.believed.Sound.{IsSoundBody, IsSoundPred, IsSoundTerm};
ghost use Rattle.cov_model.specs.believed.Views.{Leaf};
ghost use Rattle.cov_model.specs.Views.{body_view, pred_view};
ghost use Rattle.cov_model.specs.Fits.{FitsModel};
ghost use Rattle.cov_model.specs.believed.Kleene.{term_params};
ghost use Rattle.compiled_rules.specs.Codes.{AreCodesOf, Extends, IsBodyCodeOf, IsCodeOf, is_yes, truths_over, IsNegation};

use crate::code::{BodyCode, Code, CodeList};
use crate::table::TruthTable;
use cov_model::{Body, Cells, ParamNo, Pred, Rel, Term, TestModel, Truth};
use std::alloc::Global;
use value_text::{NoMemory, OwnedList};

// The most places of the table with the pairs of values of a comparison: 8 MiB of bits. Two parameters of
// 4,095 values have 16.8 million pairs, so 257 such comparisons, of 4,096 that a model may have, would have
// more than a `u32` numbers.
const MOST_PLACES: u64 = 1 << 26;

// Whether something is known to hold.
fn is_yes(truth: Truth) -> bool
    ensures { result ≡ is_yes truth }
{
    match truth {
        Truth::Yes => true,
        Truth::No | Truth::Unknown => false,
    }
}

// Puts what holds of a term on the cells with each value of the parameter behind the table.
fn push_row(
    model: &TestModel,
    term: &Term,
    q: ParamNo,
    room: &mut Cells,
    table: &mut TruthTable,
) -> Result<(), NoMemory>
    requires sound { IsSoundTerm model.now.params term.now }
    requires within { q < length model.now.params }
    requires fits { FitsModel model.now room.old }
    ensures row { OnOk result (table.new ≡ table.old ++ truths_over model.now term.now room.old q) }
    ensures fits { FitsModel model.now room.new }
{
    let count = model.value_count(q);
    for w in 0..count {
        room.set_cell(q, w);
        let holds = is_yes(model.term_truth(term, room));
        table.push(holds)?;
    }
    Ok(())
}

// Compiles a term of one parameter.
fn compile_one(
    model: &TestModel,
    term: &Term,
    p: ParamNo,
    room: &mut Cells,
    table: &mut TruthTable,
) -> Result<Code, NoMemory>
    requires sound { IsSoundTerm model.now.params term.now }
    requires within { p < length model.now.params }
    requires named { term_params term.now ≡ p ∷ [] }
    requires fits { FitsModel model.now room.old }
    ensures grows { IfOk result (λ _. Extends table.new table.old) }
    ensures code { IfOk result (IsCodeOf model.now table.new (Leaf term.now)) }
    ensures fits { FitsModel model.now room.new }
{
    let start = table.len();
    push_row(model, term, p, room, table)?;
    Ok(Code::OneParameter {
        parameter: p,
        start,
    })
}

// Compiles a term of two parameters.
fn compile_two(
    model: &TestModel,
    term: &Term,
    p: ParamNo,
    q: ParamNo,
    room: &mut Cells,
    table: &mut TruthTable,
) -> Result<Code, NoMemory>
    requires sound { IsSoundTerm model.now.params term.now }
    requires first { p < length model.now.params }
    requires second { q < length model.now.params }
    requires named { term_params term.now ≡ p ∷ q ∷ [] }
    requires fits { FitsModel model.now room.old }
    ensures grows { IfOk result (λ _. Extends table.new table.old) }
    ensures code { IfOk result (IsCodeOf model.now table.new (Leaf term.now)) }
    ensures fits { FitsModel model.now room.new }
{
    let start = table.len();
    let width = model.value_count(q);
    let count = model.value_count(p);
    for v in 0..count {
        room.set_cell(p, v);
        push_row(model, term, q, room, table)?;
    }
    Ok(Code::TwoParameters {
        first: p,
        second: q,
        start,
        width,
    })
}

// Whether the table has room for a truth at each pair of values of two parameters.
fn has_room(model: &TestModel, p: ParamNo, q: ParamNo, table: &TruthTable) -> bool
    requires first { p < length model.now.params }
    requires second { q < length model.now.params }
{
    let pairs = u64::from(model.value_count(p)) * u64::from(model.value_count(q));
    u64::from(table.len()) + pairs <= MOST_PLACES
}

// Compiles a comparison of two parameters: into the table where that has room, else as it stands.
fn compile_comparison(
    model: &TestModel,
    term: &Term,
    first: ParamNo,
    relation: Rel,
    second: ParamNo,
    room: &mut Cells,
    table: &mut TruthTable,
) -> Result<Code, NoMemory>
    requires sound { IsSoundTerm model.now.params term.now }
    requires is { term.now ≡ Term.ParamIs first relation second }
    requires fits { FitsModel model.now room.old }
    ensures grows { IfOk result (λ _. Extends table.new table.old) }
    ensures code { IfOk result (IsCodeOf model.now table.new (Leaf term.now)) }
    ensures fits { FitsModel model.now room.new }
{
    if has_room(model, first, second, table) {
        compile_two(model, term, first, second, room, table)
    } else {
        Ok(Code::Comparison {
            first,
            relation,
            second,
        })
    }
}

// Compiles a term.
fn compile_term(
    model: &TestModel,
    term: &Term,
    room: &mut Cells,
    table: &mut TruthTable,
) -> Result<Code, NoMemory>
    requires sound { IsSoundTerm model.now.params term.now }
    requires fits { FitsModel model.now room.old }
    ensures grows { IfOk result (λ _. Extends table.new table.old) }
    ensures code { IfOk result (IsCodeOf model.now table.new (Leaf term.now)) }
    ensures fits { FitsModel model.now room.new }
{
    match term {
        Term::ParamIs(p, relation, q) => {
            compile_comparison(model, term, *p, *relation, *q, room, table)
        }
        Term::ValueIs(p, _, _) => compile_one(model, term, *p, room, table),
        Term::OneOf(p, _) => compile_one(model, term, *p, room, table),
        Term::Like(p, _) => compile_one(model, term, *p, room, table),
        Term::Negative(p) => compile_one(model, term, *p, room, table),
        Term::Positive(p) => compile_one(model, term, *p, room, table),
    }
}

// The negation of a compiled predicate.
fn negated(alloc: Global, code: Code) -> Result<Code, NoMemory>
    ensures { IfOk result (λ negation. IsNegation negation code) }
{
    let inner = Box::new(alloc, code)?;
    Ok(Code::Not(inner))
}

// Compiles a predicate.
#[cycle(compile)]
fn compile_pred(
    alloc: Global,
    model: &TestModel,
    pred: &Pred,
    room: &mut Cells,
    table: &mut TruthTable,
) -> Result<Code, NoMemory>
    requires sound { IsSoundPred model.now.params (pred_view pred.now) }
    requires fits { FitsModel model.now room.old }
    ensures grows { IfOk result (λ _. Extends table.new table.old) }
    ensures code { IfOk result (IsCodeOf model.now table.new (pred_view pred.now)) }
    ensures fits { FitsModel model.now room.new }
{
    match pred {
        Pred::Term(term) => compile_term(model, term, room, table),
        Pred::Not(inner) => {
            let code = compile_pred(alloc, model, inner, room, table)?;
            negated(alloc, code)
        }
        Pred::All(parts) => {
            let codes = compile_parts(alloc, model, parts.as_slice(), room, table)?;
            Ok(Code::All(codes))
        }
        Pred::Any(parts) => {
            let codes = compile_parts(alloc, model, parts.as_slice(), room, table)?;
            Ok(Code::Any(codes))
        }
    }
}

// Compiles a list of predicates.
#[cycle(compile)]
fn compile_parts(
    alloc: Global,
    model: &TestModel,
    parts: &[Pred],
    room: &mut Cells,
    table: &mut TruthTable,
) -> Result<CodeList, NoMemory>
    requires sound { All (λ part. IsSoundPred model.now.params (pred_view part)) parts.now }
    requires fits { FitsModel model.now room.old }
    ensures grows { IfOk result (λ _. Extends table.new table.old) }
    ensures codes { IfOk result (AreCodesOf model.now table.new parts.now) }
    ensures fits { FitsModel model.now room.new }
{
    let mut codes = OwnedList::new(alloc);
    for part in parts {
        let code = compile_pred(alloc, model, part, room, table)?;
        codes.push(code)?;
    }
    Ok(codes)
}

// Compiles a constraint.
pub(crate) fn compile_body(
    alloc: Global,
    model: &TestModel,
    body: &Body,
    room: &mut Cells,
    table: &mut TruthTable,
) -> Result<BodyCode, NoMemory>
    requires sound { IsSoundBody model.now.params (body_view body.now) }
    requires fits { FitsModel model.now room.old }
    ensures grows { IfOk result (λ _. Extends table.new table.old) }
    ensures code { IfOk result (IsBodyCodeOf model.now table.new (body_view body.now)) }
    ensures fits { FitsModel model.now room.new }
{
    match body {
        Body::Plain(pred) => Ok(BodyCode::Plain(compile_pred(alloc, model, pred, room, table)?)),
        Body::IfThen(premise, pred) => {
            let first = compile_pred(alloc, model, premise, room, table)?;
            let second = compile_pred(alloc, model, pred, room, table)?;
            Ok(BodyCode::IfThen(first, second))
        }
        Body::IfElse(premise, pred, other) => {
            let first = compile_pred(alloc, model, premise, room, table)?;
            let second = compile_pred(alloc, model, pred, room, table)?;
            let third = compile_pred(alloc, model, other, room, table)?;
            Ok(BodyCode::IfElse(first, second, third))
        }
    }
}
