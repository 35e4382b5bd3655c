//! Words, and every command.

use jeldroft_args::CommandName;
use std::alloc::{AllocError, Global};

pub(crate) const COMMANDS: &[CommandName] = &[
    CommandName::Generate,
    CommandName::Check,
    CommandName::Shrink,
    CommandName::Show,
    CommandName::Lint,
    CommandName::Measure,
    CommandName::Suspect,
    CommandName::Sequence,
    CommandName::Import,
];

// The words of a text, parted by spaces; a text without a byte has none.
pub(crate) fn words_of(alloc: Global, text: &str) -> Result<Vec<String>, AllocError> {
    let mut words = Vec::new(alloc);
    if text.is_empty() {
        return Ok(words);
    }
    for word in text.split(' ') {
        words.push(String::from_str(alloc, word)?)?;
    }
    Ok(words)
}
