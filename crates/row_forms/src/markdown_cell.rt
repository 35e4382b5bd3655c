//! A cell of a table of GitHub's form.
ghost use Rattle.std.specs.Prelude.{◌≡◌, ◌++◌, ◌∷◌, [], OnOk};
ghost use Rattle.row_forms.specs.believed.Markdown.{escaped, is_punctuation};

use crate::adding::{add, add_byte};
use value_text::NoMemory;

// Whether a byte is a punctuation character of ASCII.
fn is_punctuation(byte: u8) -> bool
    ensures { result ≡ is_punctuation byte }
{
    matches!(byte, b'!'..=b'/' | b':'..=b'@' | b'['..=b'`' | b'{'..=b'~')
}

// Adds a cell with a backslash before each punctuation character.
fn add_escaped(cell: &[u8], into: &mut Vec<u8>) -> Result<(), NoMemory>
    ensures { OnOk result (into.new.items ≡ into.old.items ++ escaped cell.now) }
{
    for byte in cell {
        if is_punctuation(*byte) {
            add_byte(b'\\', into)?;
        }
        add_byte(*byte, into)?;
    }
    Ok(())
}

/// Adds a cell behind its pipe.
pub(crate) fn add_markdown_cell(cell: &[u8], into: &mut Vec<u8>) -> Result<(), NoMemory>
    ensures { OnOk result (into.new.items ≡ into.old.items ++ 124 ∷ 32 ∷ (escaped cell.now ++ 32 ∷ [])) }
{
    add(b"| ", into)?;
    add_escaped(cell, into)?;
    add_byte(b' ', into)
}
