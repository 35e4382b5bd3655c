ghost use Rattle.std.specs.Prelude.{◌≡◌, ℕ, List, [], Some, None, if◌then◌else◌, IfSome, OnOk};
ghost use Rattle.std.specs.Option.{option_or};
ghost use Rattle.std.specs.Str.{bytes_eq};
ghost use Rattle.value_text.specs.believed.Texts.{folded};
ghost use Rattle.row_text.specs.Lookups.{number_of};

use crate::short_words::short_word;
use indexmap::IndexMap;
use std::alloc::Global;
use std::marker::Model;
use value_text::NoMemory;

/// Texts with their numbers, to be looked up; short ones also by their words, which is faster. Contracts see the list
/// of the texts.
#[derive(Drop)]
pub(crate) struct TextNumbers {
    numbers: IndexMap<Vec<u8>, u16>,
    words: IndexMap<u64, u16>,
}

impl Model for TextNumbers {
    ghost use Rattle.std.specs.Prelude.{List, ℕ, map};
    ghost use Rattle.row_text.specs.Lookups.{AreWordsOf};

    ghost Value = { List (List ℕ × ℕ) };

    ghost view = { λ texts. map (λ entry. (entry.0.items, entry.1)) texts.numbers.entries };

    ghost invariant = { λ texts. AreWordsOf (map (λ entry. (entry.0.items, entry.1)) texts.numbers.entries) texts.words.entries };
}

impl TextNumbers {
    /// No texts.
    pub(crate) fn new(alloc: Global) -> TextNumbers
        ensures { result ≡ [] }
    {
        TextNumbers {
            numbers: IndexMap::new(alloc),
            words: IndexMap::new(alloc),
        }
    }

    /// The number of a text under the case rule, where the text is short and has one.
    pub(crate) fn short_number(&self, text: &[u8], fold: bool) -> Option<u16>
        ensures { IfSome result (λ number. number_of self.now (folded fold text.now) ≡ Some number) }
    {
        let word = short_word(text, fold)?;
        self.words.get(&word).copied()
    }

    /// The number of a text.
    pub(crate) fn number(&self, text: &[u8]) -> Option<u16>
        ensures { result ≡ number_of self.now text.now }
    {
        self.numbers.get(text).copied()
    }

    /// Adds a text with its number, unless it has one.
    pub(crate) fn add(&mut self, text: Vec<u8>, number: u16) -> Result<(), NoMemory>
        ensures { OnOk result ((key : List ℕ) → number_of self.new key
            ≡ option_or (number_of self.old key) (if bytes_eq text.items key then Some number else None)) }
    {
        if self.numbers.contains_key(&text) {
            return Ok(());
        }
        let short = short_word(text.as_slice(), false);
        self.numbers.insert(text, number)?;
        match short {
            Some(word) => {
                self.words.insert(word, number)?;
                Ok(())
            }
            None => Ok(()),
        }
    }
}
