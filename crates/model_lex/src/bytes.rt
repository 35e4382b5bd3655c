ghost use Rattle.std.specs.Prelude.{◌≡◌, ◌≤◌, length, take, drop};
ghost use Rattle.std.specs.List.{prefix_len};
ghost use Rattle.std.specs.Str.{str_eq_ignore_ascii_case};
ghost use Rattle.model_lex.specs.believed.Blanks.{without_first_blanks};
ghost use Rattle.value_text.specs.believed.Texts.{is_blank};
ghost use Rattle.model_lex.specs.believed.Sections.{is_word_byte, first_word};

/// Whether a byte is a space or a tab.
pub fn is_blank(byte: u8) -> bool
    ensures { result ≡ is_blank byte }
{
    byte == b' ' || byte == b'\t'
}

/// How many blanks stand at the start of a text.
#[tactic(auto, using(crate::proofs::Runs::run_len, crate::proofs::Runs::run_within))]
pub fn blank_len(text: &[u8]) -> usize
    ensures value { result ≡ prefix_len is_blank text.now }
    ensures within { result ≤ length text.now }
{
    text.iter().take_while(|byte| is_blank(**byte)).count()
}

/// A text without the blanks at its start.
pub fn without_first_blanks(text: &[u8]) -> &[u8]
    ensures { result.now ≡ without_first_blanks text.now }
{
    &text[blank_len(text)..]
}

// Whether a byte may stand in a word.
fn is_word_byte(byte: u8) -> bool
    ensures { result ≡ is_word_byte byte }
{
    byte.is_ascii_alphanumeric() || byte == b'_'
}

/// How long the word at the start of a text is.
#[tactic(auto, using(crate::proofs::Runs::run_len, crate::proofs::Runs::run_within))]
pub fn word_len(text: &[u8]) -> usize
    ensures value { result ≡ prefix_len is_word_byte text.now }
    ensures within { result ≤ length text.now }
{
    text.iter().take_while(|byte| is_word_byte(**byte)).count()
}

/// The word at the start of a text.
pub fn first_word(text: &[u8]) -> &[u8]
    ensures { result.now ≡ first_word text.now }
{
    &text[..word_len(text)]
}

/// Whether a word is a known one, in any case.
pub fn is_word(known: &[u8], word: &[u8]) -> bool
    ensures { result ≡ str_eq_ignore_ascii_case known.now word.now }
{
    known.eq_ignore_ascii_case(word)
}
