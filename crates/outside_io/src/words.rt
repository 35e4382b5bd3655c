ghost use Rattle.std.specs.Prelude.{◌≡◌, ◌≤◌, [], if◌then◌else◌, vec_len, IfOk, IfSome};
ghost use Rattle.std.specs.Str.{is_utf8};

use std::alloc::Global;
use std::env::FillError;
use std::rt::Env;
use std::str;
use value_text::NoMemory;

/// The bytes of the word of this number, which `buffer` begins with; `None` behind the last word.
fn word_bytes<R: Env>(
    rt: &R,
    number: usize,
    buffer: &mut Vec<u8>,
) -> Result<Option<usize>, NoMemory>
    ensures { IfOk result (λ found. IfSome found (λ len. len ≤ vec_len buffer.new)) }
{
    for _ in 0..usize::BITS {
        match rt.arg(number, buffer.as_mut_slice()) {
            Ok(len) => return Ok(Some(len)),
            Err(FillError::NotPresent) => return Ok(None),
            Err(FillError::TooLong) => {
                let doubled = buffer.len().saturating_mul(2);
                buffer.resize(doubled, 0)?;
            }
        }
    }
    Err(NoMemory)
}

// The text of a word; no character where it isn't UTF-8.
fn text_of(word: &[u8]) -> &str
    ensures { result.now ≡ (if is_utf8 word.now then word.now else []) }
{
    match str::from_utf8(word) {
        Ok(text) => text,
        Err(_) => "",
    }
}

/// The words of the command line behind the program's name.
///
/// A word that isn't UTF-8 stands as the empty word, which has no reading in any place: so the
/// command line is refused at that word.
///
/// # Errors
///
/// `NoMemory` where memory was refused.
pub fn command_words<R: Env>(rt: &R, alloc: Global) -> Result<Vec<String>, NoMemory> {
    let mut buffer = vec![in alloc; 0u8; 256]?;
    let mut words = Vec::new(alloc);
    for number in 1..usize::MAX {
        let Some(len) = word_bytes(rt, number, &mut buffer)? else {
            break;
        };
        words.push(String::from_str(alloc, text_of(&buffer[..len]))?)?;
    }
    Ok(words)
}
