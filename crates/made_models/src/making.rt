ghost use Rattle.std.specs.Prelude.{◌≡◌, ◌++◌, IfOk, OnOk};
ghost use Rattle.std.specs.String.{string_bytes};
ghost use Rattle.made_models.specs.believed.Words.{after_words, made_generator};
ghost use Rattle.made_models.specs.believed.MadeModel.{constraint_lines, made_text, parameter_lines};
ghost use Rattle.made_models.specs.MadeModel.{value_counts};

use crate::forbidden::Forbidden;
use crate::texts::{push_constraint, push_parameter};
use rand_core::utils::NextWord;
use rand_pcg::Lcg64Xsh32;
use std::alloc::Global;
use value_text::{NoMemory, Text};

/// How many parameters a made model has.
const PARAMETERS: u32 = 60;

/// How many constraints it has.
const CONSTRAINTS: u32 = 30;

// Adds the lines of the parameters of the made model of a number, and tells how many values each has.
fn push_parameters(
    alloc: Global,
    n: u64,
    parameters: u32,
    words: &mut Lcg64Xsh32,
    text: &mut String,
) -> Result<Vec<u32>, NoMemory>
    requires { words.old ≡ made_generator n }
    ensures counts { IfOk result (λ counts. counts.items ≡ value_counts n parameters) }
    ensures text { OnOk result (string_bytes text.new ≡ string_bytes text.old ++ parameter_lines n parameters) }
    ensures words { OnOk result (words.new ≡ after_words parameters (made_generator n)) }
{
    let mut counts = Vec::new(alloc);
    for number in 0..parameters {
        let count = 2 + words.next_word() % 6;
        push_parameter(text, number, count)?;
        counts.push(count)?;
    }
    Ok(counts)
}

// Adds the lines of its constraints.
fn push_constraints(
    n: u64,
    constraints: u32,
    counts: &[u32],
    words: &mut Lcg64Xsh32,
    text: &mut String,
) -> Result<(), NoMemory>
    requires counts { counts.now ≡ value_counts n 60 }
    requires words { words.old ≡ after_words 60 (made_generator n) }
    ensures { OnOk result (string_bytes text.new ≡ string_bytes text.old ++ constraint_lines n constraints) }
{
    for number in 0..constraints {
        let _ = number;
        let pair = Forbidden::draw(words, counts);
        push_constraint(text, &pair)?;
    }
    Ok(())
}

/// The made model of a number, the text of a model file: sixty parameters `P0: v0, v1` and so on with two to seven
/// values each, and thirty constraints `IF [P2] = "v1" THEN [P21] <> "v2";` (this project's rule). Its numbers are
/// drawn by the words of `Lcg64Xsh32::new(n, 1)`, a new word for each. At order 2 exactly the forbidden pairs have
/// no row, since values `v0` are never forbidden.
///
/// # Errors
///
/// `NoMemory` where there is no room for the text.
pub fn made_model(alloc: Global, n: u64) -> Result<Text, NoMemory>
    ensures { IfOk result (λ text. text ≡ made_text n) }
{
    let mut words = Lcg64Xsh32::new(n, 1);
    let mut text = String::new(alloc);
    let counts = push_parameters(alloc, n, PARAMETERS, &mut words, &mut text)?;
    push_constraints(n, CONSTRAINTS, &counts, &mut words, &mut text)?;
    Text::copy(alloc, text.as_str())
}
