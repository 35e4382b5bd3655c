//! The words of a command: which have a reading, and what they ask for.

use definitions::Effort;
use model_lex::OrderWord;
use pict_cli::{Opts, Shuffle, read_words};
use refutation::ProofForm;
use std::alloc::{AllocError, Global};

fn push_words(alloc: Global, text: &str, words: &mut Vec<String>) -> Result<(), AllocError> {
    for word in text.split(' ') {
        words.push(String::from_str(alloc, word)?)?;
    }
    Ok(())
}

// The words of a text, parted by spaces.
fn words_of(alloc: Global, text: &str) -> Result<Vec<String>, AllocError> {
    let mut words = Vec::new(alloc);
    push_words(alloc, text, &mut words)?;
    Ok(words)
}

// The number of the first word without a reading; 0 where each has one.
fn fault_in(words: &[String]) -> u32 {
    match read_words(words) {
        Ok(_) => 0,
        Err(fault) => fault.index,
    }
}

// Words, and the number of the first without a reading; 0 where each has one.
const FAULTS: &[(&str, u32)] = &[
    ("m", 0),
    ("/s", 0),
    ("", 1),
    (" /q", 1),
    ("m /q", 2),
    ("m n", 2),
    ("m ", 2),
    ("m /s /q", 3),
    ("m /o:1 /o:256 /O:Max", 0),
    ("m /o:0", 2),
    ("m /o:257", 2),
    ("m /o:", 2),
    ("m /o", 2),
    ("m /e:a:b", 0),
    ("m /e:", 2),
    ("m /r:18446744073709551615 /R", 0),
    ("m /r:18446744073709551616", 2),
    ("m /r:", 2),
    ("m /c /C /S", 0),
    ("m /s:", 2),
    ("m /workers:64", 0),
    ("m /workers:65", 2),
    ("m /budget:1099511627776", 0),
    ("m /budget:1099511627777", 2),
    ("m /budget:max", 0),
    ("m /BUDGET:MAX", 0),
    ("m /budget:max /budget:5", 0),
    ("m /budget:", 2),
    ("m /budget:maximum", 2),
    ("m /proof:p /proofformat:2", 0),
    ("m /proofformat:3", 2),
    ("m /make:0 /r:7 /s /proof:p", 0),
    ("m /measure:t /o:256 /d:;", 0),
    ("m -s", 2),
    // Words that exclude each other.
    ("m /measure:t /s", 3),
    ("m /s /measure:t", 3),
    ("m /measure:t /e:s", 3),
    ("m /r /measure:t", 3),
    ("m /measure:t /proof:p", 3),
    ("m /make:1 /measure:t", 3),
    ("m /suspect:t /c /measure:t", 4),
    ("m /measure:t /suspect:t", 3),
    ("m /proofformat:1 /suspect:t", 3),
    ("m /suspect:t /make:1", 3),
    ("m /e:s /make:1", 3),
    ("m /make:1 /e:s", 3),
    ("m /make:1 /d:;", 3),
    ("m /n:! /make:1", 3),
    ("m /suspect:t /d:;", 0),
    // Marks that are equal, or none.
    ("m /d:~", 2),
    ("m /n:! /d:!", 3),
    ("m /a:,", 2),
    ("m /d:~ /n:!", 0),
    ("m /d:~ /n:zz", 3),
    ("m /d:~ /q /n:!", 3),
    ("m /d:~ /n", 2),
    ("m /d:~ /N:! /s", 0),
    ("m /d:x", 2),
    ("m /d:7", 2),
    ("m /d::", 2),
    ("m /d:;;", 2),
];

// The same for the words of a text; nothing where memory was refused.
fn fault_of(alloc: Global, text: &str) -> Option<u32> {
    match words_of(alloc, text) {
        Ok(words) => Some(fault_in(words.as_slice())),
        Err(AllocError) => None,
    }
}

#[test]
fn tells_the_first_word_without_a_reading(rt: HostRuntime) {
    for (text, index) in FAULTS {
        assert!(rt; fault_of(rt.alloc(), text) == Some(*index), "{text}");
    }
    assert!(rt; fault_in(&[]) == 1);
}

// Whether the options are those of the words below.
fn are_all(opts: &Opts<'_>) -> bool {
    let marks = opts.opts.marks;
    opts.model == "m"
        && opts.opts.order == OrderWord::Max
        && (marks.separator, marks.alias, marks.prefix) == (b';', b'!', b'-')
        && !opts.opts.fold
        && opts.stats
        && opts.seeds == Some("a:b")
        && opts.shuffle == Shuffle::Number(u64::MAX)
        && (opts.workers, opts.effort) == (64, Effort::Within(9))
        && opts.proof == Some("p")
        && opts.form == ProofForm::Two
}

// Whether the words have a reading, and ask for that.
fn ask_for_all(words: &[String]) -> bool {
    match read_words(words) {
        Ok(opts) => are_all(&opts),
        Err(_) => false,
    }
}

// The same for the words of a text.
fn asks_for_all(alloc: Global, text: &str) -> bool {
    match words_of(alloc, text) {
        Ok(words) => ask_for_all(words.as_slice()),
        Err(AllocError) => false,
    }
}

#[test]
fn gives_what_is_asked_for(rt: HostRuntime) {
    let text =
        "m /O:MAX /d:; /a:! /N:- /c /e:a:b /R:7 /r:18446744073709551615 /s /workers:64 /budget:9 /Proof:p /proofFormat:2";
    assert!(rt; asks_for_all(rt.alloc(), text));
}

// Words, and what one question may cost: the last of several counts.
const EFFORTS: &[(&str, Effort)] = &[
    ("m", Effort::Within(1_000_000)),
    ("m /budget:max", Effort::Full),
    ("m /BUDGET:MAX", Effort::Full),
    ("m /budget:max /budget:5", Effort::Within(5)),
    ("m /budget:5 /Budget:Max", Effort::Full),
];

// Whether the words have a reading, and a question may cost so much.
fn allow(words: &[String], effort: Effort) -> bool {
    match read_words(words) {
        Ok(opts) => opts.effort == effort,
        Err(_) => false,
    }
}

// The same for the words of a text.
fn allows(alloc: Global, text: &str, effort: Effort) -> bool {
    match words_of(alloc, text) {
        Ok(words) => allow(words.as_slice(), effort),
        Err(AllocError) => false,
    }
}

#[test]
fn gives_what_a_question_may_cost(rt: HostRuntime) {
    for (text, effort) in EFFORTS {
        assert!(rt; allows(rt.alloc(), text, *effort), "{text}");
    }
}
