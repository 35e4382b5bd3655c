ghost use Rattle.std.specs.Prelude.{◌≡◌, ◌==◌, ◌&&◌, ◌||◌, ◌+◌, ◌-◌, ◌^◌, ◌<◌, [], not, length, drop, min, option_map, slice_index_or};
ghost use Rattle.std.specs.List.{list_any};
ghost use Rattle.std.specs.String.{string_bytes};
ghost use Rattle.definitions.specs.believed.Settings.{defaults};
ghost use Rattle.definitions.specs.believed.Words as reading;
ghost use Rattle.command_line.specs.believed.Words.{opts_of, texts};

use crate::setting::is_named;
use model_lex::{Marks, ModelOpts, OrderWord};

/// How a model file is read where no word says otherwise: order 2, the marks `,`, `|` and `~`, and letters of either
/// case are one (PICT's guide).
pub fn default_opts() -> ModelOpts
    ensures { result ≡ opts_of defaults }
{
    ModelOpts {
        order: OrderWord::Number(2),
        marks: Marks {
            separator: b',',
            alias: b'|',
            prefix: b'~',
        },
        fold: true,
    }
}

/// Whether two of the three marks are equal.
pub fn has_equal_marks(marks: Marks) -> bool
    ensures { result ≡ ((marks.separator == marks.alias) || (marks.separator == marks.prefix) || (marks.alias == marks.prefix)) }
{
    marks.separator == marks.alias || marks.separator == marks.prefix || marks.alias == marks.prefix
}

// Whether a word sets a mark, even if its value is no mark.
fn is_mark_word(word: &str) -> bool
    ensures { result ≡ reading.is_mark_word word.now }
{
    is_named(word, "/d") || is_named(word, "/a") || is_named(word, "/n")
}

// Whether one of the words sets a mark.
fn has_mark_word(words: &[String]) -> bool
    ensures { result ≡ list_any (λ word. reading.is_mark_word (string_bytes word)) words.now }
{
    words.iter().any(|word| is_mark_word(word.as_str()))
}

/// Whether the word of this number from 0 sets a mark, even if its value is no mark, and none behind it does.
pub fn is_last_mark(words: &[String], place: usize) -> bool
    requires { place < length words.now }
    ensures { result ≡ (reading.is_mark_word (slice_index_or (texts words.now) place [])
        && not (list_any reading.is_mark_word (drop (place + 1) (texts words.now)))) }
{
    is_mark_word(words[place].as_str()) && !has_mark_word(&words[place + 1..])
}

/// The number from 1 of the word of this number from 0; 2^32 - 1 stands for a greater one too.
pub fn word_number(place: usize) -> u32
    ensures { result ≡ min (place + 1) (2 ^ 32 - 1) }
{
    u32::try_from(place.saturating_add(1)).unwrap_or(u32::MAX)
}

// Whether the argument of this number from 0 is missing or empty.
fn is_missing(words: &[String], place: usize) -> bool
    ensures { result ≡ (length (slice_index_or (texts words.now) place []) == 0) }
{
    match words.get(place) {
        Some(word) => word.is_empty(),
        None => true,
    }
}

/// The number from 0 of the first of so many names that is missing or empty.
pub fn missing_name(words: &[String], count: usize) -> Option<usize>
    ensures { option_map (λ place. place + 1) result ≡ reading.missing_name count (texts words.now) }
{
    for place in 0..count {
        if is_missing(words, place) {
            return Some(place);
        }
    }
    None
}
