//! What is told as an array of objects.
ghost use Rattle.std.specs.Prelude.{◌≡◌, ◌∷◌, [], IfOk, OnOk, codes, decimal, map};
ghost use Rattle.std.specs.Option.{option_copied};
ghost use Rattle.json.specs.Token.{key, number, string};
ghost use Rattle.jeldroft_lint.specs.believed.Kinds.{kind_name};
ghost use Rattle.jeldroft_lint.specs.believed.Texts.{array_text, array_tokens, known_token, number_tokens, object_tokens, objects_tokens, place_tokens, subject_tokens, text_token};
ghost use Rattle.jeldroft_lint.specs.Texts.{Adds};

use crate::kind::Kind;
use crate::remark::Remark;
use json::Writer;
use model_lint::RuleNumbers;
use std::alloc::{AllocError, Global};
use value_text::{NoMemory, Text};

// A text, if there is one.
fn str_of(text: &Option<Text>) -> Option<&str>
    ensures { option_copied result ≡ text.now }
{
    match text {
        Some(text) => Some(text.as_str()),
        None => None,
    }
}

// Writes a text, or null where there is none.
fn put_text(text: Option<&str>, writer: &mut Writer) -> Result<(), AllocError>
    ensures { OnOk result (Adds writer.old writer.new (text_token (option_copied text.entry) ∷ [])) }
{
    match text {
        Some(text) => writer.string(text),
        None => writer.null(),
    }
}

// Writes a line or a column, or null where there is none.
fn put_known(number: u32, writer: &mut Writer) -> Result<(), AllocError>
    ensures { OnOk result (Adds writer.old writer.new (known_token number ∷ [])) }
{
    if number == 0 {
        writer.null()
    } else {
        writer.u64(u64::from(number))
    }
}

// Writes a member that is a text.
fn put_member(name: &str, text: Option<&str>, writer: &mut Writer) -> Result<(), AllocError>
    ensures { OnOk result (Adds writer.old writer.new (key name.now ∷ text_token (option_copied text.entry) ∷ [])) }
{
    writer.key(name)?;
    put_text(text, writer)
}

// Writes a member that is a line or a column.
fn put_number(name: &str, number: u32, writer: &mut Writer) -> Result<(), AllocError>
    ensures { OnOk result (Adds writer.old writer.new (key name.now ∷ known_token number ∷ [])) }
{
    writer.key(name)?;
    put_known(number, writer)
}

// Writes a member that may have no text.
fn put_optional(name: &str, text: &Option<Text>, writer: &mut Writer) -> Result<(), AllocError>
    ensures { OnOk result (Adds writer.old writer.new (key name.now ∷ text_token text.now ∷ [])) }
{
    put_member(name, str_of(text), writer)
}

// Writes the member of the name.
fn put_name(kind: Kind, writer: &mut Writer) -> Result<(), AllocError>
    ensures { OnOk result (Adds writer.old writer.new (key (codes "name") ∷ string (kind_name kind) ∷ [])) }
{
    put_member("name", Some(kind.name()), writer)
}

// Writes the member of the words.
fn put_words(words: &Text, writer: &mut Writer) -> Result<(), AllocError>
    ensures { OnOk result (Adds writer.old writer.new (key (codes "text") ∷ string words.now ∷ [])) }
{
    put_member("text", Some(words.as_str()), writer)
}

// Writes where a remark stands.
fn put_place(file: &str, remark: &Remark, writer: &mut Writer) -> Result<(), AllocError>
    ensures { OnOk result (Adds writer.old writer.new (place_tokens file.now remark.now)) }
{
    put_member("file", Some(file), writer)?;
    put_number("line", remark.line, writer)?;
    put_number("column", remark.column, writer)
}

// Writes numbers.
fn put_numbers(numbers: &[u32], writer: &mut Writer) -> Result<(), AllocError>
    ensures { OnOk result (Adds writer.old writer.new (map (λ n. number (decimal n)) numbers.now)) }
{
    for number in numbers {
        writer.u64(u64::from(*number))?;
    }
    Ok(())
}

// Writes the member of the constraints.
fn put_constraints(numbers: &RuleNumbers, writer: &mut Writer) -> Result<(), AllocError>
    ensures { OnOk result (Adds writer.old writer.new (number_tokens numbers.now)) }
{
    writer.key("constraints")?;
    writer.begin_array()?;
    put_numbers(numbers.as_slice(), writer)?;
    writer.end_array()
}

// Writes what a remark is about.
fn put_subject(remark: &Remark, writer: &mut Writer) -> Result<(), AllocError>
    ensures { OnOk result (Adds writer.old writer.new (subject_tokens remark.now)) }
{
    put_optional("parameter", &remark.parameter, writer)?;
    put_optional("value", &remark.value, writer)?;
    put_constraints(&remark.constraints, writer)
}

// Writes a remark as an object.
fn put_object(file: &str, remark: &Remark, writer: &mut Writer) -> Result<(), AllocError>
    ensures { OnOk result (Adds writer.old writer.new (object_tokens file.now remark.now)) }
{
    writer.begin_object()?;
    put_name(remark.kind, writer)?;
    put_place(file, remark, writer)?;
    put_subject(remark, writer)?;
    put_words(&remark.words, writer)?;
    writer.end_object()
}

// Writes remarks as objects.
fn put_objects(file: &str, told: &[Remark], writer: &mut Writer) -> Result<(), AllocError>
    ensures { OnOk result (Adds writer.old writer.new (objects_tokens file.now told.now)) }
{
    for remark in told {
        put_object(file, remark, writer)?;
    }
    Ok(())
}

// Writes remarks as an array.
fn put_array(file: &str, told: &[Remark], writer: &mut Writer) -> Result<(), AllocError>
    ensures { OnOk result (Adds writer.old writer.new (array_tokens file.now told.now)) }
{
    writer.begin_array()?;
    put_objects(file, told, writer)?;
    writer.end_array()
}

/// What is told of the model in a file of this name as an array of objects.
pub(crate) fn array_of(alloc: Global, file: &str, told: &[Remark]) -> Result<Vec<u8>, NoMemory>
    ensures { IfOk result (λ text. text.items ≡ array_text file.now told.now) }
{
    let mut writer = Writer::new(Vec::new(alloc));
    put_array(file, told, &mut writer)?;
    let mut text = writer.into_inner();
    text.push(b'\n')?;
    Ok(text)
}
