ghost use Rattle.std.specs.Prelude.{◌≡◌, ◌++◌, OnOk};
ghost use Rattle.std.specs.List.{flat_map, range_with_len};
ghost use Rattle.std.specs.String.{string_bytes};
ghost use Rattle.made_models.specs.believed.MadeModel.{constraint_line, parameter_line, value_behind};

use crate::forbidden::Forbidden;
use itoa::Buffer;
use value_text::NoMemory;

// Adds pieces at the end of a text.
fn push_pieces(text: &mut String, pieces: &[&str]) -> Result<(), NoMemory>
    ensures { OnOk result (string_bytes text.new ≡ string_bytes text.old ++ flat_map (λ piece. piece.now) pieces.now) }
{
    for piece in pieces {
        text.push_str(piece)?;
    }
    Ok(())
}

// Adds the name of a value, behind a comma unless it is the first.
fn push_value(text: &mut String, value: u32) -> Result<(), NoMemory>
    ensures { OnOk result (string_bytes text.new ≡ string_bytes text.old ++ value_behind value) }
{
    if value == 0 {
        return push_pieces(text, &["v0"]);
    }
    let mut buffer = Buffer::new();
    push_pieces(text, &[", v", buffer.format(value)])
}

// Adds the names of so many values.
fn push_values(text: &mut String, count: u32) -> Result<(), NoMemory>
    ensures { OnOk result (string_bytes text.new ≡ string_bytes text.old ++ flat_map value_behind (range_with_len 0 count)) }
{
    for value in 0..count {
        push_value(text, value)?;
    }
    Ok(())
}

/// Adds the line of a parameter with so many values.
pub fn push_parameter(text: &mut String, number: u32, count: u32) -> Result<(), NoMemory>
    ensures { OnOk result (string_bytes text.new ≡ string_bytes text.old ++ parameter_line number count) }
{
    let mut buffer = Buffer::new();
    push_pieces(text, &["P", buffer.format(number), ": "])?;
    push_values(text, count)?;
    text.push_str("\n")?;
    Ok(())
}

/// Adds the line of the constraint that forbids a pair of values.
pub fn push_constraint(text: &mut String, pair: &Forbidden) -> Result<(), NoMemory>
    ensures { OnOk result (string_bytes text.new ≡ string_bytes text.old ++ constraint_line pair.now) }
{
    let mut first = Buffer::new();
    let mut first_value = Buffer::new();
    let mut second = Buffer::new();
    let mut second_value = Buffer::new();
    push_pieces(
        text,
        &[
            "IF [P",
            first.format(pair.first),
            "] = \"v",
            first_value.format(pair.first_value),
            "\" THEN [P",
            second.format(pair.second),
            "] <> \"v",
            second_value.format(pair.second_value),
            "\";\n",
        ],
    )
}
