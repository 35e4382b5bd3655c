//! The combinations that are left out, in the words of the model.
ghost use Rattle.std.specs.Prelude.{◌≡◌, ◌++◌, ◌-◌, IfOk, OnOk, Some, map, slice_get, take};
ghost use Rattle.std.specs.List.{flat_map};
ghost use Rattle.cov_model.specs.Views.{rule_view};
ghost use Rattle.model_page.specs.believed.Omitted.{causes_of, cited_words, combination_words, omitted, reason_of, rule_reason};
ghost use Rattle.model_page.specs.believed.Pages.{most_shown};
ghost use Rattle.model_words.specs.Seen.{explanation_seen};
ghost use Rattle.model_words.specs.believed.Explanations.{explained};
ghost use Rattle.model_words.specs.believed.Words.{listed, pair_words};
ghost use Rattle.refutation.specs.Proofs.{omission_meant};
ghost use Rattle.suite_page.specs.Seen.{omission_seen};

use crate::tests::MOST_SHOWN;
use cov_model::{Rule, TestModel, Tuple};
use model_words::{Explanation, add, add_number, add_pairs, explain, rule_words};
use refutation::Omission as Listed;
use std::alloc::Global;
use suite_page::Omission;
use value_text::NoMemory;

// Adds a constraint, with its line in the model file.
fn add_rule(
    alloc: Global,
    model: &TestModel,
    rule: &Rule,
    text: &mut Vec<u8>,
) -> Result<(), NoMemory>
    ensures { OnOk result (text.new.items ≡ text.old.items ++ rule_reason model.now (Some (rule_view rule.now))) }
{
    let words = rule_words(alloc, model, rule)?;
    add("line ", text)?;
    add_number(u64::from(rule.line), text)?;
    add(": ", text)?;
    add(words.as_str(), text)
}

// Adds the text of a cause.
fn add_reason(
    alloc: Global,
    model: &TestModel,
    cause: u32,
    text: &mut Vec<u8>,
) -> Result<(), NoMemory>
    ensures { OnOk result (text.new.items ≡ text.old.items ++ reason_of model.now cause) }
{
    if cause == 0 {
        return add("one invalid value at most", text);
    }
    match model.rules().get(cause as usize - 1) {
        Some(rule) => add_rule(alloc, model, rule, text),
        None => Ok(()),
    }
}

// The text of a cause.
fn reason_of(alloc: Global, model: &TestModel, cause: u32) -> Result<Vec<u8>, NoMemory>
    ensures { IfOk result (λ text. text.items ≡ reason_of model.now cause) }
{
    let mut text = Vec::new(alloc);
    add_reason(alloc, model, cause, &mut text)?;
    Ok(text)
}

// The texts of causes.
fn reasons_of(alloc: Global, model: &TestModel, causes: &[u32]) -> Result<Vec<Vec<u8>>, NoMemory>
    ensures { IfOk result (λ texts. map (λ text. text.items) texts.items ≡ map (reason_of model.now) causes.now) }
{
    let mut texts = Vec::new(alloc);
    for cause in causes {
        let text = reason_of(alloc, model, *cause)?;
        texts.push(text)?;
    }
    Ok(texts)
}

// The numbers of what leaves a combination out.
fn causes_of(alloc: Global, explanation: &Explanation) -> Result<Vec<u32>, NoMemory>
    ensures { IfOk result (λ causes. causes.items ≡ causes_of (explanation_seen explanation.now)) }
{
    let mut causes = Vec::new(alloc);
    if explanation.by_invalid {
        causes.push(0)?;
    }
    causes.extend_from_slice(explanation.rules.as_slice())?;
    Ok(causes)
}

// Adds a combination, by the texts around it.
fn add_around(
    opening: &str,
    model: &TestModel,
    tuple: &Tuple,
    ending: &str,
    text: &mut Vec<u8>,
) -> Result<(), NoMemory>
    ensures { OnOk result (text.new.items ≡ text.old.items ++ (opening.now ++ (listed (pair_words model.now) tuple.now ++ ending.now))) }
{
    add(opening, text)?;
    add_pairs(model, tuple.as_slice(), text)?;
    add(ending, text)
}

// Adds the combination of a number that is cited, if there is one.
fn add_cited_at(
    model: &TestModel,
    omissions: &[Listed],
    number: u32,
    text: &mut Vec<u8>,
) -> Result<(), NoMemory>
    ensures { OnOk result (text.new.items ≡ text.old.items ++ cited_words model.now (slice_get (map omission_meant omissions.now) (number - 1))) }
{
    match omissions.get((number as usize).saturating_sub(1)) {
        Some(omission) => add_around(" (also left out: ", model, &omission.tuple, ")", text),
        None => Ok(()),
    }
}

// Adds the combinations of some numbers that are cited.
fn add_cited(
    model: &TestModel,
    omissions: &[Listed],
    numbers: &[u32],
    text: &mut Vec<u8>,
) -> Result<(), NoMemory>
    ensures { OnOk result (text.new.items ≡ text.old.items
        ++ flat_map (λ n. cited_words model.now (slice_get (map omission_meant omissions.now) (n - 1))) numbers.now) }
{
    for number in numbers {
        add_cited_at(model, omissions, *number, text)?;
    }
    Ok(())
}

// A combination in words, with those that it rests on.
fn combination_words(
    alloc: Global,
    model: &TestModel,
    omissions: &[Listed],
    tuple: &Tuple,
    cited: &[u32],
) -> Result<Vec<u8>, NoMemory>
    ensures { IfOk result (λ text. text.items ≡ listed (pair_words model.now) tuple.now
        ++ flat_map (λ n. cited_words model.now (slice_get (map omission_meant omissions.now) (n - 1))) cited.now) }
{
    let mut text = Vec::new(alloc);
    add_pairs(model, tuple.as_slice(), &mut text)?;
    add_cited(model, omissions, cited, &mut text)?;
    Ok(text)
}

// A combination that is left out, as it is shown.
fn omitted_one(
    alloc: Global,
    model: &TestModel,
    omissions: &[Listed],
    omission: &Listed,
) -> Result<Omission, NoMemory>
    ensures { IfOk result (λ shown. omission_seen shown ≡ omitted model.now (map omission_meant omissions.now) (omission_meant omission.now)) }
{
    let explanation = explain(alloc, omission.tree.as_slice())?;
    let combination = combination_words(
        alloc,
        model,
        omissions,
        &omission.tuple,
        explanation.cited.as_slice(),
    )?;
    let causes = causes_of(alloc, &explanation)?;
    let reasons = reasons_of(alloc, model, causes.as_slice())?;
    Ok(Omission {
        combination,
        causes,
        reasons,
    })
}

// Some combinations that are left out, as they are shown.
fn omitted_ones(
    alloc: Global,
    model: &TestModel,
    omissions: &[Listed],
    those: &[Listed],
) -> Result<Vec<Omission>, NoMemory>
    ensures { IfOk result (λ shown. map omission_seen shown.items ≡ map (λ one. omitted model.now (map omission_meant omissions.now) (omission_meant one)) those.now) }
{
    let mut shown = Vec::new(alloc);
    for omission in those {
        let one = omitted_one(alloc, model, omissions, omission)?;
        shown.push(one)?;
    }
    Ok(shown)
}

/// The first 1,000 combinations that are left out, as they are shown.
///
/// # Errors
///
/// `NoMemory` where memory was refused.
pub(crate) fn omitted(
    alloc: Global,
    model: &TestModel,
    omissions: &[Listed],
) -> Result<Vec<Omission>, NoMemory>
    ensures { IfOk result (λ shown. map omission_seen shown.items
        ≡ map (omitted model.now (map omission_meant omissions.now)) (take most_shown (map omission_meant omissions.now))) }
{
    let count = MOST_SHOWN.min(omissions.len());
    let shown = omitted_ones(alloc, model, omissions, &omissions[..count])?;
    Ok(shown)
}
