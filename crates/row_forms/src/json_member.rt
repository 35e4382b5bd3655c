//! A member of an object of JSON (RFC 8259).
ghost use Rattle.std.specs.Prelude.{◌≡◌, ◌++◌, IfOk, OnOk};
ghost use Rattle.std.specs.Option.{option_copied};
ghost use Rattle.json.specs.Written.{Writes};
ghost use Rattle.row_forms.specs.believed.Json.{member_text, cell_token};

use crate::adding::add;
use json::Writer;
use std::alloc::{AllocError, Global};
use value_text::NoMemory;

// Writes the value of a cell.
fn add_value(cell: Option<&str>, writer: &mut Writer) -> Result<(), AllocError>
    ensures { Writes result writer.old writer.new (cell_token (option_copied cell.entry)) }
{
    match cell {
        Some(text) => writer.string(text),
        None => writer.null(),
    }
}

// The text of a member of this name.
fn member(alloc: Global, name: &str, cell: Option<&str>) -> Result<Vec<u8>, NoMemory>
    ensures { IfOk result (λ text. text.items ≡ member_text name.now (option_copied cell.entry)) }
{
    let mut writer = Writer::new(Vec::new(alloc));
    writer.key(name)?;
    add_value(cell, &mut writer)?;
    Ok(writer.into_inner())
}

/// Adds the member of a cell in a column of this name.
pub(crate) fn add_member(name: &str, cell: Option<&str>, into: &mut Vec<u8>) -> Result<(), NoMemory>
    ensures { OnOk result (into.new.items ≡ into.old.items ++ member_text name.now (option_copied cell.entry)) }
{
    let text = member(*into.allocator(), name, cell)?;
    add(text.as_slice(), into)
}
