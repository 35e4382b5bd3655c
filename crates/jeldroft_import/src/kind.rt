//! Names, types and values, as a file in the form of ACTS spells them.

/// The type of a parameter.
#[derive(Drop, Clone, Copy, PartialEq, Eq)]
pub(crate) enum Kind {
    /// Whole numbers.
    Int,
    /// Symbols.
    Enum,
    /// TRUE and FALSE.
    Boolean,
}

/// Whether a byte may stand in a name.
pub(crate) fn is_word_byte(byte: u8) -> bool {
    byte.is_ascii_alphanumeric() || byte == b'_'
}

/// Whether a text is a name.
pub(crate) fn is_name(text: &[u8]) -> bool {
    match text {
        [first, ..] => !first.is_ascii_digit() && text.iter().all(|byte| is_word_byte(*byte)),
        [] => false,
    }
}

/// Whether a text is 1 to 9 digits.
pub(crate) fn are_few_digits(text: &[u8]) -> bool {
    !text.is_empty() && text.len() <= 9 && text.iter().all(|byte| byte.is_ascii_digit())
}

/// Whether a text is TRUE or FALSE.
pub(crate) fn is_truth(text: &[u8]) -> bool {
    text.eq_ignore_ascii_case(b"TRUE") || text.eq_ignore_ascii_case(b"FALSE")
}

// Whether a text is a symbol.
fn is_symbol(text: &[u8]) -> bool {
    match text {
        [first, ..] => {
            !first.is_ascii_digit()
                && *first != b'.'
                && text.iter().all(|byte| is_word_byte(*byte) || *byte == b'.')
        }
        [] => false,
    }
}

impl Kind {
    /// The type of a word.
    pub(crate) fn of(word: &[u8]) -> Option<Kind> {
        if word.eq_ignore_ascii_case(b"int") {
            Some(Kind::Int)
        } else if word.eq_ignore_ascii_case(b"enum") {
            Some(Kind::Enum)
        } else if word.eq_ignore_ascii_case(b"boolean") {
            Some(Kind::Boolean)
        } else {
            None
        }
    }

    /// Whether a text is a value of the type.
    pub(crate) fn has_value(self, text: &[u8]) -> bool {
        match (self, text) {
            (Kind::Int, [b'-', digits @ ..]) => are_few_digits(digits),
            (Kind::Int, _) => are_few_digits(text),
            (Kind::Enum, _) => is_symbol(text),
            (Kind::Boolean, _) => is_truth(text),
        }
    }

    /// What a value of the type is.
    pub(crate) fn value(self) -> &'static str {
        match self {
            Kind::Int => "a whole number of 1 to 9 digits",
            Kind::Enum =>
                "a value of letters, digits, \"_\" and \".\", which begins with a letter or \"_\"",
            Kind::Boolean => "true or false",
        }
    }
}

/// Whether two names are one, where letters of either case are one or not.
pub(crate) fn is_same(one: &[u8], other: &[u8], fold: bool) -> bool {
    if fold {
        one.eq_ignore_ascii_case(other)
    } else {
        one == other
    }
}
