//! What the settings ask for, as the crates below take it.
ghost use Rattle.std.specs.Prelude.{◌≡◌, option_map};
ghost use Rattle.jeldroft_generate.specs.believed.Asked.{effort_of, form_of, proof_asked, proof_form};

use definitions::Effort;
use jeldroft_args::{Format, Generate};
use refutation::ProofForm;
use row_forms::RowForm;

/// The form of the table. Words and a page, which the command line refuses, are no forms of a table: tabs part its cells
/// there.
pub(crate) fn form_of(format: Format) -> RowForm
    ensures { result ≡ form_of format }
{
    match format {
        Format::Tsv | Format::Text | Format::Html => RowForm::Tsv,
        Format::Csv => RowForm::Csv,
        Format::Json => RowForm::Json,
        Format::Markdown => RowForm::Markdown,
    }
}

/// What a question of the search may cost: without a budget whatever it takes.
pub(crate) fn effort_of(budget: Option<u64>) -> Effort
    ensures { result ≡ effort_of budget }
{
    match budget {
        Some(budget) => Effort::Within(budget),
        None => Effort::Full,
    }
}

// The form of a proof, by the number that asks for it.
fn proof_form(number: u32) -> ProofForm
    ensures { result ≡ proof_form number }
{
    if number == 2 {
        ProofForm::Two
    } else {
        ProofForm::One
    }
}

/// The form of the proof, where one is asked for.
pub(crate) fn proof_asked(args: &Generate) -> Option<ProofForm>
    ensures { result ≡ proof_asked args.now }
{
    match &args.proof {
        Some(proof) => Some(proof_form(proof.format)),
        None => None,
    }
}

/// The name of the output file, where there is one.
pub(crate) fn output_name(args: &Generate) -> Option<&str>
    ensures { option_map (λ name. name.now) result ≡ args.now.output }
{
    match &args.output {
        Some(name) => Some(name.as_str()),
        None => None,
    }
}
