ghost use Rattle.std.specs.Prelude.{◌≡◌, ◌+◌, ◌<◌, ◌≤◌, ◌^◌, [], ◌∷◌, length, MatchOption, IfSome};
ghost use Rattle.definitions.specs.believed.RowFile.{filled_lines};
ghost use Rattle.row_text.specs.RowLines.{filled_from, line_seen};

use model_lex::{cut_line, without_mark};
use std::marker::Model;

/// A line of a row file that has a byte.
#[derive(Debug, Drop, Clone, Copy)]
pub struct FilledLine<'a> {
    /// The number of the line, counted from 1.
    pub number: u32,
    /// Its bytes without the line end.
    pub text: &'a [u8],
}

/// The lines of a row file that are still to be read, without those that have no byte.
#[derive(Drop)]
pub struct FilledLines<'a> {
    rest: &'a [u8],
    taken: u32,
}

impl<'a> Model for FilledLines<'a> {
    ghost use Rattle.std.specs.Prelude.{◌≤◌, ◌+◌, ◌^◌, List, ℕ, length};
    ghost use Rattle.row_text.specs.RowLines.{filled_from};

    ghost Value = { List (ℕ × List ℕ) };

    ghost view = { λ lines. filled_from (lines.taken + 1) lines.rest.now };

    ghost invariant = { λ lines. lines.taken + length lines.rest.now ≤ 2 ^ 28 };
}

/// The first of the lines behind so many others that has a byte, and what stands behind it.
fn cut_filled(taken: u32, bytes: &[u8]) -> Option<(FilledLine<'_>, &[u8])>
    requires { taken + length bytes.now ≤ 2 ^ 28 }
    ensures cut { MatchOption result (filled_from (taken + 1) bytes.now ≡ [])
        (λ cut. filled_from (taken + 1) bytes.now ≡ line_seen cut.0 ∷ filled_from (cut.0.number + 1) cut.1.now) }
    ensures few { IfSome result (λ cut. cut.0.number + length cut.1.now ≤ 2 ^ 28) }
{
    let mut number = taken;
    let mut rest = bytes;
    while !rest.is_empty() {
        let (text, behind) = cut_line(rest);
        rest = behind;
        number += 1;
        if !text.is_empty() {
            return Some((FilledLine { number, text }, rest));
        }
    }
    None
}

impl<'a> FilledLines<'a> {
    /// The lines of a row file, of at most 2^28 bytes.
    pub fn new(bytes: &'a [u8]) -> FilledLines<'a>
        requires { length bytes.now ≤ 2 ^ 28 }
        ensures { result ≡ filled_lines bytes.now }
    {
        FilledLines {
            rest: without_mark(bytes),
            taken: 0,
        }
    }

    /// The same lines, to be read once more.
    pub fn again(&self) -> FilledLines<'a>
        ensures { result ≡ self.now }
    {
        FilledLines {
            rest: self.rest,
            taken: self.taken,
        }
    }

    /// Says again what the lines keep: there are few. Does nothing when it runs.
    pub fn assert_invariant(&self)
        ensures { length self.now < 2 ^ 32 }
    {
        // a use of a field brings into a proof what the type keeps
        let _ = &self.rest;
    }

    /// Takes the next line; `None` exactly where there is none. Takes no memory.
    pub fn take_line(&mut self) -> Option<FilledLine<'a>>
        ensures { MatchOption result (self.old ≡ []) (λ line. self.old ≡ line_seen line ∷ self.new) }
    {
        let (line, rest) = cut_filled(self.taken, self.rest)?;
        self.rest = rest;
        self.taken = line.number;
        Some(line)
    }
}
