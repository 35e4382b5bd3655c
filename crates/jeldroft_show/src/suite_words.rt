//! The text that says in words what a suite covers, whether it is accepted, and why not.
ghost use Rattle.std.specs.Prelude.{◌≡◌, ◌++◌, ◌<◌, Some, length, map, option_map, OnOk, IfOk, IfSome, decimal};
ghost use Rattle.std.specs.List.{flat_map};
ghost use Rattle.suite_facts.specs.Coverages.{set_seen};
ghost use Rattle.tuple_index.specs.Plan.{plan_of};
ghost use Rattle.model_words.specs.believed.Words as plain;
ghost use Rattle.refutation.specs.Proofs.{omission_meant};
ghost use Rattle.jeldroft_show.specs.believed.Words as words;

use cov_model::{ParamNo, TestModel, ValueNo};
use model_words::{
    add, add_combinations, add_counted, add_left_out, add_number, add_pairs, add_params, add_tests,
    add_two,
};
use proof_check::Verdict;
use refutation::Omissions;
use std::alloc::Global;
use suite_facts::{CurvePoint, LargestSet, SuiteNumbers};
use tuple_index::Plan;
use value_text::NoMemory;

// Adds how many tests and parameters there are.
fn add_size(numbers: &SuiteNumbers, text: &mut Vec<u8>) -> Result<(), NoMemory>
    ensures { OnOk result (text.new.items ≡ text.old.items ++ words.size_words numbers.now) }
{
    add_tests(numbers.tests, text)?;
    add(" of ", text)?;
    add_counted(numbers.params, "parameter", "parameters", text)?;
    add(". ", text)
}

// Adds how many of the demanded combinations are covered.
fn add_covered(numbers: &SuiteNumbers, text: &mut Vec<u8>) -> Result<(), NoMemory>
    ensures { OnOk result (text.new.items ≡ text.old.items ++ words.covered_words numbers.now) }
{
    add_number(numbers.covered, text)?;
    add(" of ", text)?;
    add_combinations(numbers.demanded, text)?;
    add(" of ", text)?;
    add_counted(numbers.sets, "set", "sets", text)?;
    add(" are covered; ", text)
}

// Adds how many are not.
fn add_rest(numbers: &SuiteNumbers, accepted: bool, text: &mut Vec<u8>) -> Result<(), NoMemory>
    ensures { OnOk result (text.new.items ≡ text.old.items ++ words.rest_words numbers.now accepted) }
{
    let rest = numbers.demanded.saturating_sub(numbers.covered);
    add_number(rest, text)?;
    if accepted {
        add(" are left out with a proof.\n", text)
    } else {
        add(" are not covered.\n", text)
    }
}

/// Adds how large the suite is, and how much of the demand it covers.
pub(crate) fn add_coverage(
    numbers: &SuiteNumbers,
    accepted: bool,
    text: &mut Vec<u8>,
) -> Result<(), NoMemory>
    ensures { OnOk result (text.new.items ≡ text.old.items ++ words.coverage_words numbers.now accepted) }
{
    add_size(numbers, text)?;
    add_covered(numbers, text)?;
    add_rest(numbers, accepted, text)
}

// Adds that the suite is accepted.
fn add_accepted(rows: u32, omissions: u32, text: &mut Vec<u8>) -> Result<(), NoMemory>
    ensures { OnOk result (text.new.items ≡ text.old.items ++ words.accepted_words rows omissions) }
{
    add_two(
        "accepted: ",
        rows,
        " rows, ",
        omissions,
        " omissions\n",
        text,
    )
}

// Adds that a line is refused, by the texts around its number.
fn add_refused(file: &str, line: u32, reason: &str, text: &mut Vec<u8>) -> Result<(), NoMemory>
    ensures { OnOk result (text.new.items ≡ text.old.items ++ (file.now ++ (decimal line ++ reason.now))) }
{
    add(file, text)?;
    add_number(u64::from(line), text)?;
    add(reason, text)
}

// Adds a combination, by the texts around it.
fn add_around(
    opening: &str,
    model: &TestModel,
    pairs: &[(ParamNo, ValueNo)],
    ending: &str,
    text: &mut Vec<u8>,
) -> Result<(), NoMemory>
    ensures { OnOk result (text.new.items ≡ text.old.items ++ (opening.now ++ (plain.listed (plain.pair_words model.now) pairs.now ++ ending.now))) }
{
    add(opening, text)?;
    add_pairs(model, pairs, text)?;
    add(ending, text)
}

// Adds that a combination isn't covered.
fn add_uncovered(
    model: &TestModel,
    pairs: &[(ParamNo, ValueNo)],
    text: &mut Vec<u8>,
) -> Result<(), NoMemory>
    ensures { OnOk result (text.new.items ≡ text.old.items ++ words.uncovered_words model.now pairs.now) }
{
    add_around("refused: no test covers ", model, pairs, "\n", text)
}

/// Adds the verdict.
pub(crate) fn add_verdict(
    model: &TestModel,
    verdict: &Verdict,
    text: &mut Vec<u8>,
) -> Result<(), NoMemory>
    ensures { OnOk result (text.new.items ≡ text.old.items ++ words.verdict_words model.now verdict.now) }
{
    match verdict {
        Verdict::Accepted(rows, omissions) => add_accepted(*rows, *omissions, text),
        Verdict::BadRow(line) => add_refused(
            "refused: table line ",
            *line,
            ": not a valid row\n",
            text,
        ),
        Verdict::BadProof(line) => add_refused(
            "refused: proof line ",
            *line,
            ": not a proof line\n",
            text,
        ),
        Verdict::BadOmission(line) => add_refused(
            "refused: proof line ",
            *line,
            ": the tree does not refute the combination\n",
            text,
        ),
        Verdict::Uncovered(tuple) => add_uncovered(model, tuple.as_slice(), text),
    }
}

/// Adds that there is no proof, where one might have changed the verdict.
pub(crate) fn add_no_proof(
    is_named: bool,
    accepted: bool,
    text: &mut Vec<u8>,
) -> Result<(), NoMemory>
    ensures { OnOk result (text.new.items ≡ text.old.items ++ words.proof_words is_named accepted) }
{
    if is_named || accepted {
        return Ok(());
    }
    add("No proof was given.\n", text)
}

// Adds a number of tests and the names of parameters, by the texts around them.
fn add_need(
    opening: &str,
    tests: u32,
    middle: &str,
    model: &TestModel,
    params: &[ParamNo],
    ending: &str,
    text: &mut Vec<u8>,
) -> Result<(), NoMemory>
    ensures { OnOk result (text.new.items ≡ text.old.items
        ++ (opening.now ++ (plain.tests tests ++ (middle.now ++ (plain.listed (plain.param_words model.now) params.now ++ ending.now))))) }
{
    add(opening, text)?;
    add_tests(u64::from(tests), text)?;
    add(middle, text)?;
    add_params(model, params, text)?;
    add(ending, text)
}

// Adds how many tests every suite needs, by a set of parameters of which some tests cover so many combinations.
fn add_set(
    model: &TestModel,
    plan: &Plan,
    found: LargestSet,
    text: &mut Vec<u8>,
) -> Result<(), NoMemory>
    requires plan { plan.now ≡ plan_of model.now }
    requires exists { found.set < length plan.now.sets }
    ensures { OnOk result (text.new.items ≡ text.old.items ++ words.set_words model.now (Some (set_seen model.now found))) }
{
    let members = plan.members(found.set);
    add_need(
        "Rows: every suite needs at least ",
        found.covered,
        ", one for each possible combination of ",
        model,
        members,
        ".\n",
        text,
    )
}

// The same by the set of which the most combinations are covered, if there is one.
fn add_least(
    model: &TestModel,
    plan: &Plan,
    largest: Option<LargestSet>,
    text: &mut Vec<u8>,
) -> Result<(), NoMemory>
    requires plan { plan.now ≡ plan_of model.now }
    requires exists { IfSome largest (λ found. found.set < length plan.now.sets) }
    ensures { OnOk result (text.new.items ≡ text.old.items ++ words.set_words model.now (option_map (set_seen model.now) largest)) }
{
    match largest {
        Some(found) => add_set(model, plan, found, text),
        None => Ok(()),
    }
}

// Adds how many combinations the first tests cover.
fn add_point(demanded: u64, point: CurvePoint, text: &mut Vec<u8>) -> Result<(), NoMemory>
    requires { 0 < demanded }
    ensures { OnOk result (text.new.items ≡ text.old.items ++ words.point_words demanded point) }
{
    add("  ", text)?;
    add_tests(u64::from(point.tests), text)?;
    add(": ", text)?;
    add_combinations(u64::from(point.covered), text)?;
    add(", ", text)?;
    add_number(100 * u64::from(point.covered) / demanded, text)?;
    add(" percent\n", text)
}

// Adds these for each of some numbers of tests.
fn add_points(demanded: u64, points: &[CurvePoint], text: &mut Vec<u8>) -> Result<(), NoMemory>
    requires { 0 < demanded }
    ensures { OnOk result (text.new.items ≡ text.old.items ++ flat_map (words.point_words demanded) points.now) }
{
    for point in points {
        add_point(demanded, *point, text)?;
    }
    Ok(())
}

// The same under a heading.
fn add_under(
    heading: &str,
    demanded: u64,
    points: &[CurvePoint],
    text: &mut Vec<u8>,
) -> Result<(), NoMemory>
    requires { 0 < demanded }
    ensures { OnOk result (text.new.items ≡ text.old.items ++ (heading.now ++ flat_map (words.point_words demanded) points.now)) }
{
    add(heading, text)?;
    add_points(demanded, points, text)
}

// The same where there are tests and something is demanded.
fn add_curve(
    numbers: &SuiteNumbers,
    points: &[CurvePoint],
    text: &mut Vec<u8>,
) -> Result<(), NoMemory>
    ensures { OnOk result (text.new.items ≡ text.old.items ++ words.curve_words numbers.now points.now) }
{
    if numbers.tests == 0 || numbers.demanded == 0 {
        return Ok(());
    }
    add_under("Covered after\n", numbers.demanded, points, text)
}

/// Whether a verdict accepts.
pub(crate) fn is_accepted(verdict: &Verdict) -> bool
    ensures { result ≡ words.is_accepted verdict.now }
{
    match verdict {
        Verdict::Accepted(_, _) => true,
        Verdict::BadRow(_)
        | Verdict::BadProof(_)
        | Verdict::BadOmission(_)
        | Verdict::Uncovered(_) => false,
    }
}

/// What is told of a suite.
#[derive(Clone, Copy)]
pub(crate) struct SuiteFacts<'a> {
    /// How large it is, and how much of the demand it covers.
    pub(crate) numbers: &'a SuiteNumbers,
    /// The set of parameters of which it covers the most combinations.
    pub(crate) largest: Option<LargestSet>,
    /// How many combinations the first tests cover.
    pub(crate) points: &'a [CurvePoint],
    /// Whether a proof was named.
    pub(crate) is_proof_named: bool,
    /// The verdict.
    pub(crate) verdict: &'a Verdict,
    /// The omissions of the proof that are explained.
    pub(crate) proof: &'a Omissions,
}

/// Adds how many tests every suite needs, where the suite is accepted.
pub(crate) fn add_least_if(
    accepted: bool,
    model: &TestModel,
    plan: &Plan,
    largest: Option<LargestSet>,
    text: &mut Vec<u8>,
) -> Result<(), NoMemory>
    requires plan { plan.now ≡ plan_of model.now }
    requires exists { IfSome largest (λ found. found.set < length plan.now.sets) }
    ensures { OnOk result (text.new.items ≡ text.old.items ++ words.least_words model.now (option_map (set_seen model.now) largest) accepted) }
{
    if !accepted {
        return Ok(());
    }
    add_least(model, plan, largest, text)
}

/// The text that says in words what a suite covers: how many of the demanded combinations are covered, the verdict, how
/// many tests every suite needs where this one is accepted, why combinations are left out, and how many combinations the
/// first tests cover.
///
/// # Errors
///
/// `NoMemory` where memory was refused.
pub(crate) fn suite_words(
    alloc: Global,
    model: &TestModel,
    plan: &Plan,
    facts: &SuiteFacts<'_>,
) -> Result<Vec<u8>, NoMemory>
    requires plan { plan.now ≡ plan_of model.now }
    requires exists { IfSome facts.now.largest (λ found. found.set < length plan.now.sets) }
    ensures { IfOk result (λ text. text.items ≡ words.words_of model.now facts.now.numbers.now (option_map (set_seen model.now) facts.now.largest)
        facts.now.points.now facts.now.is_proof_named (map omission_meant facts.now.proof.now.omissions) facts.now.verdict.now) }
{
    let accepted = is_accepted(facts.verdict);
    let mut text = Vec::new(alloc);
    add_coverage(facts.numbers, accepted, &mut text)?;
    add_verdict(model, facts.verdict, &mut text)?;
    add_no_proof(facts.is_proof_named, accepted, &mut text)?;
    add_least_if(accepted, model, plan, facts.largest, &mut text)?;
    add_left_out(alloc, model, facts.proof, &mut text)?;
    add_curve(facts.numbers, facts.points, &mut text)?;
    Ok(text)
}
