//! The words of a command line.

use outside_io::command_words;
use std::env::FillError;
use std::rt::Env;
use std::test::Fail;

// A command line in memory, the program's name before its words.
struct Line<'a> {
    words: &'a [&'a [u8]],
}

impl Env for Line<'_> {
    fn arg(&self, i: usize, buf: &mut [u8]) -> Result<usize, FillError> {
        let Some(word) = self.words.get(i) else {
            return Err(FillError::NotPresent);
        };
        match buf.get_mut(..word.len()) {
            Some(part) => {
                part.copy_from_slice(word);
                Ok(word.len())
            }
            None => Err(FillError::TooLong),
        }
    }

    fn var(&self, _name: &str, _buf: &mut [u8]) -> Result<usize, FillError> {
        Err(FillError::NotPresent)
    }

    fn var_at(&self, _i: usize, _buf: &mut [u8]) -> Result<usize, FillError> {
        Err(FillError::NotPresent)
    }
}

// One byte more than the words have room for at first.
const LONG: &[u8] = &[b'x'; 257];

// More words than a program has names, one of them empty, and one that isn't UTF-8.
const WORDS: &[&[u8]] = &[
    b"pict",
    b"m",
    b"/o:3",
    b"",
    b"/c",
    b"\xff/c",
    b"/s",
    b"/r:7",
    b"/d:;",
    b"\xc3\xa9",
    b"/a:/",
    LONG,
];

#[test]
fn words_stand_in_their_order(rt: HostRuntime) -> Result<(), Fail> {
    let words = command_words(&Line { words: WORDS }, rt.alloc())?;
    assert!(rt; words.len() + 1 == WORDS.len());
    for (word, given) in words.as_slice().iter().zip(&WORDS[1..]) {
        let expected = if *given == b"\xff/c".as_slice() {
            b"".as_slice()
        } else {
            *given
        };
        assert!(rt; word.as_str().as_bytes() == expected, "{}", word.as_str());
    }
    Ok(())
}

#[test]
fn a_line_may_have_no_word(rt: HostRuntime) -> Result<(), Fail> {
    let words = command_words(&Line { words: &[b"pict"] }, rt.alloc())?;
    assert!(rt; words.is_empty());
    Ok(())
}
