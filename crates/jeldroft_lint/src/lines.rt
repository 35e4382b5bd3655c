//! What is told as lines.
ghost use Rattle.std.specs.Prelude.{◌≡◌, ◌++◌, IfOk, OnOk, codes, decimal, map};
ghost use Rattle.jeldroft_lint.specs.believed.Kinds.{kind_name};
ghost use Rattle.jeldroft_lint.specs.believed.Texts.{known_text, line_text, lines_text, place_text, shown_byte};

use crate::remark::Remark;
use std::alloc::Global;
use value_text::NoMemory;

// Adds text.
fn add(text: &str, into: &mut Vec<u8>) -> Result<(), NoMemory>
    ensures { OnOk result (into.new.items ≡ into.old.items ++ text.now) }
{
    into.extend_from_slice(text.as_bytes())?;
    Ok(())
}

// Adds a number.
fn add_number(number: u32, into: &mut Vec<u8>) -> Result<(), NoMemory>
    ensures { OnOk result (into.new.items ≡ into.old.items ++ decimal number) }
{
    let mut digits = itoa::Buffer::new();
    add(digits.format(number), into)
}

// A byte as it is shown: a question mark in place of a control character, which a terminal might obey.
fn shown_byte(byte: u8) -> u8
    ensures { result ≡ shown_byte byte }
{
    if byte < b' ' || byte == 0x7f {
        b'?'
    } else {
        byte
    }
}

// Adds words.
fn add_words(words: &[u8], into: &mut Vec<u8>) -> Result<(), NoMemory>
    ensures { OnOk result (into.new.items ≡ into.old.items ++ map shown_byte words.now) }
{
    for byte in words {
        into.push(shown_byte(*byte))?;
    }
    Ok(())
}

// Adds a line or a column behind a colon, where there is one.
fn add_known(number: u32, into: &mut Vec<u8>) -> Result<(), NoMemory>
    ensures { OnOk result (into.new.items ≡ into.old.items ++ known_text number) }
{
    if number == 0 {
        return Ok(());
    }
    add(":", into)?;
    add_number(number, into)
}

// Adds where a remark stands: the file, the line where it is about one, and the column where one is known.
fn add_place(file: &str, remark: &Remark, into: &mut Vec<u8>) -> Result<(), NoMemory>
    ensures { OnOk result (into.new.items ≡ into.old.items ++ place_text file.now remark.now) }
{
    add(file, into)?;
    if remark.line == 0 {
        return Ok(());
    }
    add_known(remark.line, into)?;
    add_known(remark.column, into)
}

// Adds the name of a remark, and ends its line.
fn add_name(remark: &Remark, into: &mut Vec<u8>) -> Result<(), NoMemory>
    ensures { OnOk result (into.new.items ≡ into.old.items ++ (codes " [" ++ kind_name remark.now.kind ++ codes "]\n")) }
{
    add(" [", into)?;
    add(remark.kind.name(), into)?;
    add("]\n", into)
}

// Adds the line of a remark.
fn add_line(file: &str, remark: &Remark, into: &mut Vec<u8>) -> Result<(), NoMemory>
    ensures { OnOk result (into.new.items ≡ into.old.items ++ line_text file.now remark.now) }
{
    add_place(file, remark, into)?;
    add(": warning: ", into)?;
    add_words(remark.words.as_str().as_bytes(), into)?;
    add_name(remark, into)
}

// Adds the lines of remarks.
fn add_lines(file: &str, told: &[Remark], into: &mut Vec<u8>) -> Result<(), NoMemory>
    ensures { OnOk result (into.new.items ≡ into.old.items ++ lines_text file.now told.now) }
{
    for remark in told {
        add_line(file, remark, into)?;
    }
    Ok(())
}

/// What is told of the model in a file of this name, one line each.
pub(crate) fn lines_of(alloc: Global, file: &str, told: &[Remark]) -> Result<Vec<u8>, NoMemory>
    ensures { IfOk result (λ text. text.items ≡ lines_text file.now told.now) }
{
    let mut text = Vec::new(alloc);
    add_lines(file, told, &mut text)?;
    Ok(text)
}
