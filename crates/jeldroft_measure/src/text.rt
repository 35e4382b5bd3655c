ghost use Rattle.std.specs.Prelude.{◌≡◌, ◌++◌, ◌-◌, IfOk, OnOk};
ghost use Rattle.definitions.specs.believed.Statistics.{number_line};
ghost use Rattle.row_text.specs.Told.{figures_seen};
ghost use Rattle.jeldroft_measure.specs.believed.MeasureText.{covered_text, measure_text, sets_text, tests_text, tuples_text};

use itoa::Buffer;
use row_text::Figures;
use std::alloc::Global;
use value_text::NoMemory;

// Adds a line with a label and a number.
fn add_line(label: &str, number: u64, text: &mut Vec<u8>) -> Result<(), NoMemory>
    ensures { OnOk result (text.new.items ≡ text.old.items ++ number_line label.now number) }
{
    let mut digits = Buffer::new();
    text.extend_from_slice(label.as_bytes())?;
    text.extend_from_slice(digits.format(number).as_bytes())?;
    text.push(b'\n')?;
    Ok(())
}

// Adds a line with a label and how many of a number others leave.
fn add_rest(label: &str, number: u64, others: u64, text: &mut Vec<u8>) -> Result<(), NoMemory>
    ensures { OnOk result (text.new.items ≡ text.old.items ++ number_line label.now (number - others)) }
{
    add_line(label, number.saturating_sub(others), text)
}

// Adds the figures of the rows.
fn add_tests(figures: &Figures, text: &mut Vec<u8>) -> Result<(), NoMemory>
    ensures { OnOk result (text.new.items ≡ text.old.items ++ tests_text (figures_seen figures.now)) }
{
    add_line("tests: ", figures.tests, text)?;
    add_line("incomplete tests: ", figures.incomplete, text)?;
    add_line("invalid tests: ", figures.invalid, text)
}

// Adds the figures of the combinations of parameters.
fn add_sets(figures: &Figures, text: &mut Vec<u8>) -> Result<(), NoMemory>
    ensures { OnOk result (text.new.items ≡ text.old.items ++ sets_text (figures_seen figures.now)) }
{
    add_line("combinations of parameters: ", figures.sets, text)?;
    add_line(
        "combinations of parameters covered whole: ",
        figures.complete,
        text,
    )?;
    add_line(
        "combinations of parameters covered to 75 percent: ",
        figures.at75,
        text,
    )?;
    add_line(
        "combinations of parameters covered to 50 percent: ",
        figures.at50,
        text,
    )?;
    add_line(
        "combinations of parameters covered to 25 percent: ",
        figures.at25,
        text,
    )
}

// Adds the figures of the combinations of values.
fn add_tuples(figures: &Figures, text: &mut Vec<u8>) -> Result<(), NoMemory>
    ensures { OnOk result (text.new.items ≡ text.old.items ++ tuples_text (figures_seen figures.now)) }
{
    add_line("combinations of values: ", figures.tuples, text)?;
    add_rest(
        "combinations of values that no test can have: ",
        figures.tuples,
        figures.servable,
        text,
    )?;
    add_line(
        "combinations of values that a test can have: ",
        figures.servable,
        text,
    )
}

// Adds the figures of those that tests cover.
fn add_covered(figures: &Figures, text: &mut Vec<u8>) -> Result<(), NoMemory>
    ensures { OnOk result (text.new.items ≡ text.old.items ++ covered_text (figures_seen figures.now)) }
{
    add_line("combinations of values covered: ", figures.covered, text)?;
    add_rest(
        "combinations of values not covered: ",
        figures.servable,
        figures.covered,
        text,
    )
}

/// The text of the figures of a suite (NIST IR 7878), a line for each.
///
/// # Errors
///
/// `NoMemory` where memory was refused.
pub(crate) fn measure_text(alloc: Global, figures: &Figures) -> Result<Vec<u8>, NoMemory>
    ensures { IfOk result (λ text. text.items ≡ measure_text (figures_seen figures.now)) }
{
    let mut text = Vec::new(alloc);
    add_tests(figures, &mut text)?;
    add_sets(figures, &mut text)?;
    add_tuples(figures, &mut text)?;
    add_covered(figures, &mut text)?;
    Ok(text)
}
