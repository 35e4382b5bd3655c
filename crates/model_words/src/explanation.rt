ghost use Rattle.std.specs.Prelude.{◌≡◌, [], IfOk, OnOk, filter, length, map};
ghost use Rattle.std.specs.List.{flat_map, list_any};
ghost use Rattle.refutation.specs.Proofs.{meant};
ghost use Rattle.model_words.specs.Seen.{explanation_seen};
ghost use Rattle.model_words.specs.believed.Explanations.{explained, is_by_invalid, is_case, omission_of, rule_of, with_numbers};

use crate::numbers::add_once;
use refutation::TreeToken;
use std::alloc::Global;
use value_text::NoMemory;

/// Why a proof omits a combination: what stands in the leaves of its tree.
#[derive(Drop)]
pub struct Explanation {
    /// How many leaves there are.
    pub cases: usize,
    /// The numbers of the constraints in them, rising.
    pub rules: Vec<u32>,
    /// Whether a leaf is by an invalid value that isn't in the combination.
    pub by_invalid: bool,
    /// The numbers of the earlier omissions in them, counted from 1, rising.
    pub cited: Vec<u32>,
}

// Whether a token is a leaf.
fn is_case(token: TreeToken) -> bool
    ensures { result ≡ is_case (meant token) }
{
    match token {
        TreeToken::Branch(_) => false,
        TreeToken::ByRule(_) | TreeToken::ByNegative | TreeToken::ByOmission(_) => true,
    }
}

// Whether a token is a leaf by an invalid value.
fn is_by_invalid(token: TreeToken) -> bool
    ensures { result ≡ is_by_invalid (meant token) }
{
    match token {
        TreeToken::ByNegative => true,
        TreeToken::Branch(_) | TreeToken::ByRule(_) | TreeToken::ByOmission(_) => false,
    }
}

// How many leaves a tree has.
fn case_count(tree: &[TreeToken]) -> usize
    ensures { result ≡ length (filter (λ token. is_case (meant token)) tree.now) }
{
    tree.iter().filter(|token| is_case(**token)).count()
}

// Whether a leaf is by an invalid value.
fn has_invalid(tree: &[TreeToken]) -> bool
    ensures { result ≡ list_any (λ token. is_by_invalid (meant token)) tree.now }
{
    tree.iter().any(|token| is_by_invalid(*token))
}

// Adds the number of the constraint of a leaf.
fn add_rule_of(token: TreeToken, rising: &mut Vec<u32>) -> Result<(), NoMemory>
    ensures { OnOk result (rising.new.items ≡ with_numbers rising.old.items (rule_of (meant token))) }
{
    match token {
        TreeToken::ByRule(number) => add_once(number, rising),
        TreeToken::Branch(_) | TreeToken::ByNegative | TreeToken::ByOmission(_) => Ok(()),
    }
}

// Adds the number of the omission of a leaf.
fn add_omission_of(token: TreeToken, rising: &mut Vec<u32>) -> Result<(), NoMemory>
    ensures { OnOk result (rising.new.items ≡ with_numbers rising.old.items (omission_of (meant token))) }
{
    match token {
        TreeToken::ByOmission(number) => add_once(number, rising),
        TreeToken::Branch(_) | TreeToken::ByRule(_) | TreeToken::ByNegative => Ok(()),
    }
}

// The numbers of the constraints of the leaves.
fn rules_of(alloc: Global, tree: &[TreeToken]) -> Result<Vec<u32>, NoMemory>
    ensures { IfOk result (λ numbers. numbers.items ≡ with_numbers [] (flat_map rule_of (map meant tree.now))) }
{
    let mut rising = Vec::new(alloc);
    for token in tree {
        add_rule_of(*token, &mut rising)?;
    }
    Ok(rising)
}

// The numbers of the omissions of the leaves.
fn omissions_of(alloc: Global, tree: &[TreeToken]) -> Result<Vec<u32>, NoMemory>
    ensures { IfOk result (λ numbers. numbers.items ≡ with_numbers [] (flat_map omission_of (map meant tree.now))) }
{
    let mut rising = Vec::new(alloc);
    for token in tree {
        add_omission_of(*token, &mut rising)?;
    }
    Ok(rising)
}

/// What the leaves of a tree say.
///
/// # Errors
///
/// `NoMemory` where memory was refused.
pub fn explain(alloc: Global, tree: &[TreeToken]) -> Result<Explanation, NoMemory>
    ensures { IfOk result (λ e. explanation_seen e ≡ explained (map meant tree.now)) }
{
    let rules = rules_of(alloc, tree)?;
    let cited = omissions_of(alloc, tree)?;
    Ok(Explanation {
        cases: case_count(tree),
        rules,
        by_invalid: has_invalid(tree),
        cited,
    })
}
