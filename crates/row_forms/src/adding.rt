//! Text behind what a vector has.
ghost use Rattle.std.specs.Prelude.{◌≡◌, ◌++◌, ◌∷◌, [], OnOk};
ghost use Rattle.row_forms.specs.believed.Forms.{parting};

use value_text::NoMemory;

/// Adds bytes.
pub(crate) fn add(bytes: &[u8], into: &mut Vec<u8>) -> Result<(), NoMemory>
    ensures { OnOk result (into.new.items ≡ into.old.items ++ bytes.now) }
{
    into.extend_from_slice(bytes)?;
    Ok(())
}

/// Adds one byte.
pub(crate) fn add_byte(byte: u8, into: &mut Vec<u8>) -> Result<(), NoMemory>
    ensures { OnOk result (into.new.items ≡ into.old.items ++ byte ∷ []) }
{
    into.push(byte)?;
    Ok(())
}

/// Adds what parts a cell from the one before it.
pub(crate) fn add_parting(first: bool, byte: u8, into: &mut Vec<u8>) -> Result<(), NoMemory>
    ensures { OnOk result (into.new.items ≡ into.old.items ++ parting first byte) }
{
    if first { Ok(()) } else { add_byte(byte, into) }
}
