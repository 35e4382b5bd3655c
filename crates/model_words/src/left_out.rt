ghost use Rattle.std.specs.Prelude.{◌≡◌, ◌++◌, ◌-◌, OnOk, Some, codes, decimal, map, slice_get};
ghost use Rattle.std.specs.List.{flat_map};
ghost use Rattle.cov_model.specs.Views.{rule_view};
ghost use Rattle.refutation.specs.Proofs.{meant, omission_meant};
ghost use Rattle.model_words.specs.Seen.{explanation_seen};
ghost use Rattle.model_words.specs.believed.Words as words;
ghost use Rattle.model_words.specs.believed.Explanations.{cases_line, cited_line, explained, explanation_lines, invalid_line, left_out_words, omission_lines, rule_line};

use crate::explanation::{Explanation, explain};
use crate::spelling::rule_words;
use crate::words::{add, add_number, add_pairs, add_two};
use cov_model::{Rule, TestModel, Tuple};
use refutation::{Omission, Omissions, TreeToken};
use std::alloc::Global;
use value_text::NoMemory;

// Adds the number of a constraint and its line.
fn add_rule_place(rule: &Rule, text: &mut Vec<u8>) -> Result<(), NoMemory>
    ensures { OnOk result (text.new.items ≡ text.old.items
        ++ (codes "    constraint " ++ (decimal rule.now.number ++ (codes ", line " ++ (decimal rule.now.line ++ codes ": "))))) }
{
    add_two(
        "    constraint ",
        rule.number,
        ", line ",
        rule.line,
        ": ",
        text,
    )
}

// Adds a constraint.
fn add_rule(
    alloc: Global,
    model: &TestModel,
    rule: &Rule,
    text: &mut Vec<u8>,
) -> Result<(), NoMemory>
    ensures { OnOk result (text.new.items ≡ text.old.items ++ rule_line model.now (Some (rule_view rule.now))) }
{
    add_rule_place(rule, text)?;
    let words = rule_words(alloc, model, rule)?;
    add(words.as_str(), text)?;
    add("\n", text)
}

// Adds the constraint of a number, if there is one.
fn add_rule_at(
    alloc: Global,
    model: &TestModel,
    number: u32,
    text: &mut Vec<u8>,
) -> Result<(), NoMemory>
    ensures { OnOk result (text.new.items ≡ text.old.items ++ rule_line model.now (slice_get model.now.rules (number - 1))) }
{
    match model.rules().get((number as usize).saturating_sub(1)) {
        Some(rule) => add_rule(alloc, model, rule, text),
        None => Ok(()),
    }
}

// Adds the constraints of some numbers.
fn add_rules(
    alloc: Global,
    model: &TestModel,
    numbers: &[u32],
    text: &mut Vec<u8>,
) -> Result<(), NoMemory>
    ensures { OnOk result (text.new.items ≡ text.old.items ++ flat_map (λ k. rule_line model.now (slice_get model.now.rules (k - 1))) numbers.now) }
{
    for number in numbers {
        add_rule_at(alloc, model, *number, text)?;
    }
    Ok(())
}

// Adds a combination, by the texts around it.
fn add_around(
    opening: &str,
    model: &TestModel,
    tuple: &Tuple,
    text: &mut Vec<u8>,
) -> Result<(), NoMemory>
    ensures { OnOk result (text.new.items ≡ text.old.items ++ (opening.now ++ (words.listed (words.pair_words model.now) tuple.now ++ codes "\n"))) }
{
    add(opening, text)?;
    add_pairs(model, tuple.as_slice(), text)?;
    add("\n", text)
}

// Adds an omission that is cited.
fn add_cited_one(model: &TestModel, omission: &Omission, text: &mut Vec<u8>) -> Result<(), NoMemory>
    ensures { OnOk result (text.new.items ≡ text.old.items ++ cited_line model.now (Some (omission_meant omission.now))) }
{
    add_around("    left out above: ", model, &omission.tuple, text)
}

// Adds the omission of a number that is cited, if there is one.
fn add_cited_at(
    model: &TestModel,
    proof: &Omissions,
    number: u32,
    text: &mut Vec<u8>,
) -> Result<(), NoMemory>
    ensures { OnOk result (text.new.items ≡ text.old.items ++ cited_line model.now (slice_get (map omission_meant proof.now.omissions) (number - 1))) }
{
    match proof.get((number as usize).saturating_sub(1)) {
        Some(omission) => add_cited_one(model, omission, text),
        None => Ok(()),
    }
}

// Adds the omissions of some numbers that are cited.
fn add_cited(
    model: &TestModel,
    proof: &Omissions,
    numbers: &[u32],
    text: &mut Vec<u8>,
) -> Result<(), NoMemory>
    ensures { OnOk result (text.new.items ≡ text.old.items
        ++ flat_map (λ n. cited_line model.now (slice_get (map omission_meant proof.now.omissions) (n - 1))) numbers.now) }
{
    for number in numbers {
        add_cited_at(model, proof, *number, text)?;
    }
    Ok(())
}

// Adds how many cases there are, where there are several.
fn add_cases(cases: usize, text: &mut Vec<u8>) -> Result<(), NoMemory>
    ensures { OnOk result (text.new.items ≡ text.old.items ++ cases_line cases) }
{
    if cases <= 1 {
        return Ok(());
    }
    add("    ", text)?;
    add_number(cases as u64, text)?;
    add(" cases, each by one of these:\n", text)
}

// Adds that a test has one invalid value at most, where a leaf is by that.
fn add_invalid(by_invalid: bool, text: &mut Vec<u8>) -> Result<(), NoMemory>
    ensures { OnOk result (text.new.items ≡ text.old.items ++ invalid_line by_invalid) }
{
    if by_invalid {
        add("    one invalid value at most\n", text)
    } else {
        Ok(())
    }
}

// Adds what the leaves of a tree say.
fn add_explanation(
    alloc: Global,
    model: &TestModel,
    proof: &Omissions,
    explanation: &Explanation,
    text: &mut Vec<u8>,
) -> Result<(), NoMemory>
    ensures { OnOk result (text.new.items ≡ text.old.items
        ++ explanation_lines model.now (map omission_meant proof.now.omissions) (explanation_seen explanation.now)) }
{
    add_cases(explanation.cases, text)?;
    add_rules(alloc, model, explanation.rules.as_slice(), text)?;
    add_invalid(explanation.by_invalid, text)?;
    add_cited(model, proof, explanation.cited.as_slice(), text)
}

// Adds what the leaves of a tree say, given its tokens.
fn add_tree(
    alloc: Global,
    model: &TestModel,
    proof: &Omissions,
    tree: &[TreeToken],
    text: &mut Vec<u8>,
) -> Result<(), NoMemory>
    ensures { OnOk result (text.new.items ≡ text.old.items
        ++ explanation_lines model.now (map omission_meant proof.now.omissions) (explained (map meant tree.now))) }
{
    let explanation = explain(alloc, tree)?;
    add_explanation(alloc, model, proof, &explanation, text)
}

// Adds an omission, and why it is one.
fn add_omission(
    alloc: Global,
    model: &TestModel,
    proof: &Omissions,
    omission: &Omission,
    text: &mut Vec<u8>,
) -> Result<(), NoMemory>
    ensures { OnOk result (text.new.items ≡ text.old.items
        ++ omission_lines model.now (map omission_meant proof.now.omissions) (omission_meant omission.now)) }
{
    add_around("  ", model, &omission.tuple, text)?;
    add_tree(alloc, model, proof, omission.tree.as_slice(), text)
}

// Adds each of some omissions of a proof, and why it is one.
fn add_omissions(
    alloc: Global,
    model: &TestModel,
    proof: &Omissions,
    omissions: &[Omission],
    text: &mut Vec<u8>,
) -> Result<(), NoMemory>
    ensures { OnOk result (text.new.items ≡ text.old.items
        ++ flat_map (λ omission. omission_lines model.now (map omission_meant proof.now.omissions) (omission_meant omission)) omissions.now) }
{
    for omission in omissions {
        add_omission(alloc, model, proof, omission, text)?;
    }
    Ok(())
}

// Adds all omissions of a proof under a heading.
fn add_under(
    heading: &str,
    alloc: Global,
    model: &TestModel,
    proof: &Omissions,
    text: &mut Vec<u8>,
) -> Result<(), NoMemory>
    ensures { OnOk result (text.new.items ≡ text.old.items
        ++ (heading.now ++ flat_map (λ omission. omission_lines model.now (map omission_meant proof.now.omissions) (omission_meant omission)) proof.now.omissions)) }
{
    add(heading, text)?;
    add_omissions(alloc, model, proof, proof.as_slice(), text)
}

/// Adds the omissions of a proof in words, under a heading, each with what its tree says: the constraints by whose numbers
/// leaves stand, with their lines in the model file and their texts; whether a leaf is by an invalid value; and the
/// combinations of the earlier omissions that leaves cite. Adds nothing where there is no omission.
///
/// # Errors
///
/// `NoMemory` where memory was refused.
pub fn add_left_out(
    alloc: Global,
    model: &TestModel,
    proof: &Omissions,
    text: &mut Vec<u8>,
) -> Result<(), NoMemory>
    ensures { OnOk result (text.new.items ≡ text.old.items ++ left_out_words model.now (map omission_meant proof.now.omissions)) }
{
    if proof.is_empty() {
        return Ok(());
    }
    add_under("Left out\n", alloc, model, proof, text)
}
