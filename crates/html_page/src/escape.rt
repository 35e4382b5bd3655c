ghost use Rattle.std.specs.Prelude.{◌≡◌, ◌++◌, OnOk, MatchOption, ◌∷◌, []};
ghost use Rattle.html_page.specs.believed.Pieces.{escape, escaped};

use value_text::NoMemory;

// What is written in place of a byte, if it isn't written as it is.
fn reference(byte: u8) -> Option<&'static str>
    ensures { MatchOption result (escaped byte ≡ byte ∷ []) (λ text. escaped byte ≡ text.now) }
{
    match byte {
        b'&' => Some("&amp;"),
        b'<' => Some("&lt;"),
        b'>' => Some("&gt;"),
        b'"' => Some("&quot;"),
        b'\r' => Some("&#13;"),
        0 => Some("\u{fffd}"),
        _ => None,
    }
}

// Adds a byte.
fn put_byte(out: &mut Vec<u8>, byte: u8) -> Result<(), NoMemory>
    ensures { OnOk result (out.new.items ≡ out.old.items ++ escaped byte) }
{
    match reference(byte) {
        Some(text) => out.extend_from_slice(text.as_bytes())?,
        None => out.push(byte)?,
    }
    Ok(())
}

/// Adds a text, escaped.
#[tactic(auto, unfolding(crate::specs::believed::Pieces::escape))]
pub(crate) fn put_escaped(out: &mut Vec<u8>, text: &[u8]) -> Result<(), NoMemory>
    ensures { OnOk result (out.new.items ≡ out.old.items ++ escape text.now) }
{
    for byte in text {
        put_byte(out, *byte)?;
    }
    Ok(())
}
