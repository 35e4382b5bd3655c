ghost use Rattle.std.specs.Prelude.{◌≡◌, ◌==◌, ◌<◌, ◌^◌, [], ◌∷◌, Some, true, MatchOption, IfSome, length, option_copied, position};
ghost use Rattle.std.specs.List.{after_first, before_first};
ghost use Rattle.refutation.specs.Reading.{pieces, pieces_left};

use memchr::memchr;
use std::marker::Model;

// The place of the first byte that is a mark, where it is the second, third or fourth one, as behind most words of a
// proof.
fn near_place(text: &[u8], mark: u8) -> Option<usize>
    ensures { IfSome result (λ place. position (λ b. b == mark) text.now ≡ Some place) }
{
    let [first, second, third, rest @ ..] = text else {
        return None;
    };
    if *first == mark {
        return None;
    }
    if *second == mark {
        return Some(1);
    }
    if *third == mark {
        return Some(2);
    }
    match rest {
        [fourth, ..] if *fourth == mark => Some(3),
        _ => None,
    }
}

// The place of the first byte that is a mark.
fn place_of(text: &[u8], mark: u8) -> Option<usize>
    ensures { result ≡ position (λ b. b == mark) text.now }
{
    match near_place(text, mark) {
        Some(place) => Some(place),
        None => memchr(mark, text),
    }
}

// What stands before the first mark and what stands behind it, where there is one.
pub(crate) fn split_once(text: &[u8], mark: u8) -> Option<(&[u8], &[u8])>
    ensures pieces { MatchOption result (pieces mark text.now ≡ text.now ∷ []) (λ parts. pieces mark text.now ≡ parts.0.now ∷ pieces mark parts.1.now) }
    ensures front { MatchOption result (before_first (λ b. b == mark) text.now ≡ text.now) (λ parts. before_first (λ b. b == mark) text.now ≡ parts.0.now) }
    ensures behind { MatchOption result (after_first (λ b. b == mark) text.now ≡ []) (λ parts. after_first (λ b. b == mark) text.now ≡ parts.1.now) }
    ensures shorter { IfSome result (λ parts. length parts.1.now < length text.now) }
{
    match place_of(text, mark) {
        Some(end) => Some((&text[..end], &text[end + 1..])),
        None => None,
    }
}

// No fewer than there are pieces of a text between marks, where each has so many bytes or more.
pub(crate) fn most_pieces(text: &[u8], mark: u8, least: usize) -> usize
    requires { least < 2 ^ 32 }
{
    let mut marks: usize = 0;
    let mut rest = text;
    while let Some((_, behind)) = split_once(rest, mark) {
        marks = marks.saturating_add(1);
        rest = behind;
    }
    marks.min(text.len() / (least + 1)) + 1
}

/// The words of a line that are still to be read, which single spaces part. Contracts see their list.
#[derive(Drop)]
pub(crate) struct Words<'a> {
    rest: Option<&'a [u8]>,
}

impl<'a> Model for Words<'a> {
    ghost use Rattle.std.specs.Prelude.{List, ℕ, option_copied};
    ghost use Rattle.refutation.specs.Reading.{pieces_left};

    ghost Value = { List (List ℕ) };

    ghost view = { λ words. pieces_left 32 (option_copied words.rest) };
}

impl<'a> Words<'a> {
    // The words of a line.
    pub(crate) fn of(line: &'a [u8]) -> Words<'a>
        ensures { result ≡ pieces 32 line.now }
    {
        Words { rest: Some(line) }
    }

    // Takes the next word.
    pub(crate) fn next(&mut self) -> Option<&'a [u8]>
        ensures { MatchOption result ((self.old ≡ []) × (self.new ≡ [])) (λ word. self.old ≡ word.now ∷ self.new) }
    {
        let text = self.rest?;
        match split_once(text, b' ') {
            Some((word, behind)) => {
                self.rest = Some(behind);
                Some(word)
            }
            None => {
                self.rest = None;
                Some(text)
            }
        }
    }

    // The text that is left, where something is.
    pub(crate) fn left(&self) -> Option<&'a [u8]>
        ensures { pieces_left 32 (option_copied result) ≡ self.now }
    {
        self.rest
    }

    // Whether the words are those of a text, as far as that is told by the bytes alone.
    pub(crate) fn are_of(&self, text: &[u8]) -> bool
        ensures { result ≡ true → self.now ≡ pieces 32 text.now }
    {
        match self.rest {
            Some(rest) => rest == text,
            None => false,
        }
    }

    // No fewer than there are words with a byte.
    pub(crate) fn most(&self) -> usize {
        match self.rest {
            Some(text) => most_pieces(text, b' ', 1),
            None => 0,
        }
    }
}
