ghost use Rattle.std.specs.Prelude.{◌≡◌, ◌<◌, IfOk, drop, length};
ghost use Rattle.model_lex.specs.believed.Tokens.{is_quotable, unquoted};
ghost use Rattle.model_lex.specs.Tokens.{quotes_next};

use std::alloc::Global;
use value_text::{NoMemory, Text};

/// Whether a byte is one that a backslash before it quotes.
pub fn is_quotable(byte: u8) -> bool
    ensures { result ≡ is_quotable byte }
{
    byte == b'"' || byte == b']' || byte == b'\\'
}

// Whether a backslash at a place of a text quotes the byte behind it.
fn quotes(text: &[u8], at: usize) -> bool
    requires { at < length text.now }
    ensures { result ≡ quotes_next (drop at text.now) }
{
    text[at] == b'\\' && at + 1 < text.len() && is_quotable(text[at + 1])
}

/// A text without the backslashes that quote (this project's rule).
///
/// # Errors
///
/// `NoMemory` where the copy could not be made.
pub fn unquoted(alloc: Global, text: &str) -> Result<Text, NoMemory>
    ensures { IfOk result (λ plain. plain ≡ unquoted text.now) }
{
    let mut plain = String::new(alloc);
    let mut start = 0;
    let mut at = 0;
    while at < text.len() {
        if quotes(text.as_bytes(), at) {
            plain.push_str(&text[start..at])?;
            start = at + 1;
            at += 2;
        } else {
            at += 1;
        }
    }
    plain.push_str(&text[start..])?;
    Text::copy(alloc, plain.as_str())
}
