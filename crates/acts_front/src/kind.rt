ghost use Rattle.std.specs.Prelude.{◌≡◌, ◌||◌, map, IfOk};
ghost use Rattle.std.specs.List.{list_all};
ghost use Rattle.std.specs.Char.{is_ascii_digit};
ghost use Rattle.model_lex.specs.believed.Sections.{is_word_byte};
ghost use Rattle.acts_front.specs.believed.ParameterLines.{are_few_digits, folds, is_false, is_name, is_symbol, is_true, is_value, is_whole, named_kind, without_minus};
ghost use Rattle.value_text.specs.believed.Numbers.{is_point};
ghost use Rattle.acts_front.specs.believed.Translation.{value_text};

use crate::write::truth_text;
use std::alloc::Global;
use value_text::NoMemory;

/// The type of a parameter (ACTS guide).
#[derive(Drop, Clone, Copy, PartialEq, Eq)]
pub(crate) enum Kind {
    /// Whole numbers.
    Int,
    /// Symbols.
    Enum,
    /// TRUE and FALSE.
    Boolean,
}

/// Whether a byte may stand in a name.
pub(crate) fn is_word_byte(byte: u8) -> bool
    ensures { result ≡ is_word_byte byte }
{
    byte.is_ascii_alphanumeric() || byte == b'_'
}

// Whether each byte may stand in a name.
fn are_word_bytes(text: &[u8]) -> bool
    ensures { result ≡ list_all is_word_byte text.now }
{
    text.iter().all(|byte| is_word_byte(*byte))
}

/// Whether a text is a name.
pub(crate) fn is_name(text: &[u8]) -> bool
    ensures { result ≡ is_name text.now }
{
    !text.is_empty() && !text[0].is_ascii_digit() && are_word_bytes(text)
}

// Whether each byte is a digit.
fn are_digits(text: &[u8]) -> bool
    ensures { result ≡ list_all is_ascii_digit text.now }
{
    text.iter().all(|byte| byte.is_ascii_digit())
}

/// Whether a text is 1 to 9 digits.
pub(crate) fn are_few_digits(text: &[u8]) -> bool
    ensures { result ≡ are_few_digits text.now }
{
    1 <= text.len() && text.len() <= 9 && are_digits(text)
}

// A text without a minus at its start.
fn without_minus(text: &[u8]) -> &[u8]
    ensures { result.now ≡ without_minus text.now }
{
    match text {
        [b'-', rest @ ..] => rest,
        _ => text,
    }
}

/// Whether a text is an int value.
pub(crate) fn is_whole(text: &[u8]) -> bool
    ensures { result ≡ is_whole text.now }
{
    are_few_digits(without_minus(text))
}

// Whether each byte may stand in an enum value.
fn are_symbol_bytes(text: &[u8]) -> bool
    ensures { result ≡ list_all (λ byte. is_word_byte byte || is_point byte) text.now }
{
    text.iter().all(|byte| is_word_byte(*byte) || *byte == b'.')
}

// Whether a text is an enum value.
fn is_symbol(text: &[u8]) -> bool
    ensures { result ≡ is_symbol text.now }
{
    !text.is_empty() && !(text[0].is_ascii_digit() || text[0] == b'.') && are_symbol_bytes(text)
}

/// Whether a text is TRUE, in any case.
pub(crate) fn is_true(text: &[u8]) -> bool
    ensures { result ≡ is_true text.now }
{
    text.eq_ignore_ascii_case(b"TRUE")
}

/// Whether a text is FALSE, in any case.
pub(crate) fn is_false(text: &[u8]) -> bool
    ensures { result ≡ is_false text.now }
{
    text.eq_ignore_ascii_case(b"FALSE")
}

impl Kind {
    /// The type of a word.
    pub(crate) fn of(word: &[u8]) -> Option<Kind>
        ensures { result ≡ named_kind word.now }
    {
        if word.eq_ignore_ascii_case(b"int") {
            Some(Kind::Int)
        } else if word.eq_ignore_ascii_case(b"enum") {
            Some(Kind::Enum)
        } else if word.eq_ignore_ascii_case(b"boolean") {
            Some(Kind::Boolean)
        } else {
            None
        }
    }

    // Whether a text is a value of the type.
    fn has_value(self, text: &[u8]) -> bool
        ensures { result ≡ is_value self text.now }
    {
        match self {
            Kind::Int => is_whole(text),
            Kind::Enum => is_symbol(text),
            Kind::Boolean => is_true(text) || is_false(text),
        }
    }

    /// Whether texts are values of the type.
    pub(crate) fn has_values(self, texts: &[&[u8]]) -> bool
        ensures { result ≡ list_all (λ text. is_value self text.now) texts.now }
    {
        texts.iter().all(|text| self.has_value(text))
    }

    // A value of the type as it is written.
    fn written<'v>(self, value: &'v [u8]) -> &'v [u8]
        ensures { result.now ≡ value_text self value.now }
    {
        match self {
            Kind::Boolean => truth_text(is_true(value)),
            Kind::Int | Kind::Enum => value,
        }
    }

    /// Values of the type as they are written.
    pub(crate) fn printed<'v>(
        self,
        alloc: Global,
        values: &[&'v [u8]],
    ) -> Result<Vec<&'v [u8]>, NoMemory>
        ensures { IfOk result (λ texts. map (λ text. text.now) texts.items ≡ map (λ value. value_text self value.now) values.now) }
    {
        let texts = values
            .iter()
            .map(|value| self.written(value))
            .collect(alloc)?;
        Ok(texts)
    }

    /// Whether values of the type are compared in any case.
    pub(crate) fn folds(self, fold: bool) -> bool
        ensures { result ≡ folds fold self }
    {
        fold || self == Kind::Boolean
    }
}
