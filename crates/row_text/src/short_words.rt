//! Short texts as numbers, so that one comparison tells two of them apart.
ghost use Rattle.std.specs.Prelude.{◌≡◌, if◌then◌else◌, IfSome};
ghost use Rattle.std.specs.Char.{to_ascii_lowercase};
ghost use Rattle.value_text.specs.believed.Texts.{folded};
ghost use Rattle.row_text.specs.Lookups.{AreBytes, word_of};

/// The most bytes of a short text: the word has a bit above them.
const MOST_BYTES: usize = 7;

/// A byte as the case rule compares it.
fn folded_byte(byte: u8, fold: bool) -> u8
    ensures { result ≡ (if fold then to_ascii_lowercase byte else byte) }
{
    if fold {
        byte.to_ascii_lowercase()
    } else {
        byte
    }
}

/// The word of a text as the case rule compares it, where it is short: its bytes from the lowest eight bits on, and 1
/// above the last one. No two texts have the same word.
pub(crate) fn short_word(text: &[u8], fold: bool) -> Option<u64>
    ensures word { IfSome result (λ word. word ≡ word_of (folded fold text.now)) }
    ensures bytes { IfSome result (λ _. AreBytes text.now) }
{
    if text.len() > MOST_BYTES {
        return None;
    }
    let mut word = 1u64;
    for i in (0..text.len()).rev() {
        word = word * 256 + folded_byte(text[i], fold) as u64;
    }
    Some(word)
}
