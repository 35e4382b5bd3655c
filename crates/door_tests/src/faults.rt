//! Words that give no command: the exit status, and what the text has.

use crate::words::{COMMANDS, words_of};
use jeldroft_args::{ArgsFault, CommandName, read_args};
use std::alloc::{AllocError, Global};

// How words end: a text on standard output with status 0, or one on standard error with status 2.
#[derive(Drop, Clone, Copy, PartialEq, Eq)]
enum End {
    Asked,
    Shown,
    Refused,
}

// How words end with these commands, and whether the text begins and goes on so.
fn ends(
    alloc: Global,
    commands: &[CommandName],
    words: &[String],
    start: &str,
    part: &str,
) -> Result<(End, bool), AllocError> {
    match read_args(alloc, commands, words) {
        Ok(_) => Ok((End::Asked, true)),
        Err(ArgsFault::Shown(text)) => {
            Ok((
                End::Shown,
                text.as_str().starts_with(start) && text.as_str().contains(part),
            ))
        }
        Err(ArgsFault::Refused(text)) => {
            Ok((
                End::Refused,
                text.as_str().starts_with(start) && text.as_str().contains(part),
            ))
        }
        Err(ArgsFault::OutOfMemory) => Err(AllocError),
    }
}

// Words, how they end, and the start and a part of the text.
const ENDS: &[(&str, End, &str, &str)] = &[
    ("generate m", End::Asked, "", ""),
    // Help and version.
    (
        "--help",
        End::Shown,
        "Combinatorial testing",
        "generate  Make a table of tests",
    ),
    (
        "-h",
        End::Shown,
        "Combinatorial testing",
        "Usage: jeldroft <COMMAND>",
    ),
    ("--version", End::Shown, "jeldroft 1.0.0\n", ""),
    ("-V", End::Shown, "jeldroft 1.0.0\n", ""),
    (
        "generate --help",
        End::Shown,
        "Make a table of tests",
        "-t, --strength <N|max>",
    ),
    (
        "check -h",
        End::Shown,
        "Say whether",
        "Usage: jeldroft check [OPTIONS] <MODEL> <TABLE> [PROOF]",
    ),
    ("lint m --help", End::Shown, "Say what is wrong", "--all"),
    // No words, and no command.
    (
        "",
        End::Refused,
        "Combinatorial testing",
        "Usage: jeldroft <COMMAND>",
    ),
    (
        "generat m",
        End::Refused,
        "jeldroft: error: unrecognized subcommand 'generat'\n",
        "a similar subcommand exists: 'generate'",
    ),
    (
        "help",
        End::Refused,
        "jeldroft: error: unrecognized subcommand 'help'\n",
        "",
    ),
    (
        "--strength 3 generate m",
        End::Refused,
        "jeldroft: error: unexpected argument '--strength' found\n",
        "",
    ),
    // Files that are missing or too many.
    (
        "generate",
        End::Refused,
        "jeldroft: error: the following required arguments were not provided",
        "<MODEL>",
    ),
    (
        "check m",
        End::Refused,
        "jeldroft: error: the following required arguments were not provided",
        "<TABLE>",
    ),
    (
        "measure m t u",
        End::Refused,
        "jeldroft: error: unexpected argument 'u' found\n",
        "",
    ),
    ("generate ", End::Refused, "jeldroft: error: ", "<MODEL>"),
    // Options that aren't there, or not of this command.
    (
        "generate m --strenght 3",
        End::Refused,
        "jeldroft: error: unexpected argument '--strenght' found\n",
        "a similar argument exists: '--strength'",
    ),
    (
        "generate m -x",
        End::Refused,
        "jeldroft: error: unexpected argument '-x' found\n",
        "",
    ),
    (
        "generate m -qx",
        End::Refused,
        "jeldroft: error: unexpected argument '-x' found\n",
        "",
    ),
    (
        "check m t --shrink",
        End::Refused,
        "jeldroft: error: unexpected argument '--shrink' found\n",
        "",
    ),
    (
        "lint m --strength 2",
        End::Refused,
        "jeldroft: error: unexpected argument '--strength' found\n",
        "",
    ),
    // Options that are used twice, without a value, or with one too many.
    (
        "generate m -t 3 -t 4",
        End::Refused,
        "jeldroft: error: the argument '--strength <N|max>' cannot be used multiple times\n",
        "",
    ),
    (
        "generate m -q --quiet",
        End::Refused,
        "jeldroft: error: the argument '--quiet' cannot be used multiple times\n",
        "",
    ),
    (
        "generate m -t",
        End::Refused,
        "jeldroft: error: a value is required for '--strength <N|max>'",
        "",
    ),
    (
        "generate m --quiet=yes",
        End::Refused,
        "jeldroft: error: unexpected value 'yes' for '--quiet' found",
        "",
    ),
    // Values without a reading.
    (
        "generate m -t 0",
        End::Refused,
        "jeldroft: error: invalid value '0' for '--strength <N|max>': a number from 1 to 256, or max\n",
        "",
    ),
    (
        "generate m -t 257",
        End::Refused,
        "jeldroft: error: invalid value '257' for '--strength",
        "",
    ),
    (
        "generate m -t Max",
        End::Refused,
        "jeldroft: error: invalid value 'Max' for '--strength",
        "",
    ),
    (
        "generate m --strength=",
        End::Refused,
        "jeldroft: error: invalid value '' for '--strength",
        "",
    ),
    (
        "sequence e -t 4",
        End::Refused,
        "jeldroft: error: invalid value '4' for '--strength <2|3>': 2 or 3\n",
        "",
    ),
    (
        "sequence e -t max",
        End::Refused,
        "jeldroft: error: invalid value 'max' for '--strength",
        "",
    ),
    (
        "generate m -p p --proof-format 3",
        End::Refused,
        "jeldroft: error: invalid value '3' for '--proof-format <1|2>': 1 or 2\n",
        "",
    ),
    (
        "generate m -f xml",
        End::Refused,
        "jeldroft: error: invalid value 'xml' for '--format",
        "tsv, csv, json or markdown\n",
    ),
    (
        "show m t -f xml",
        End::Refused,
        "jeldroft: error: invalid value 'xml' for '--format",
        "tsv, csv, json, markdown, text or html\n",
    ),
    // A table is no text and no page.
    (
        "generate m -f text",
        End::Refused,
        "jeldroft: error: invalid value 'text' for '--format <tsv|csv|json|markdown>': tsv, csv, json or markdown\n",
        "",
    ),
    (
        "shrink m t -f html",
        End::Refused,
        "jeldroft: error: invalid value 'html' for '--format <tsv|csv|json|markdown>': tsv, csv, json or markdown\n",
        "",
    ),
    (
        "lint m -f csv",
        End::Refused,
        "jeldroft: error: invalid value 'csv' for '--format <text|json>': text or json\n",
        "",
    ),
    (
        "generate m --shuffle 18446744073709551616",
        End::Refused,
        "jeldroft: error: invalid value '18446744073709551616'",
        "",
    ),
    (
        "shrink m t --rounds 1099511627777",
        End::Refused,
        "jeldroft: error: invalid value '1099511627777'",
        "",
    ),
    (
        "shrink m t --random -1",
        End::Refused,
        "jeldroft: error: unexpected argument '-1' found\n",
        "",
    ),
    (
        "generate m --budget 0",
        End::Refused,
        "jeldroft: error: invalid value '0' for '--budget <N>'",
        "",
    ),
    (
        "generate m --budget max",
        End::Refused,
        "jeldroft: error: invalid value 'max' for '--budget <N>'",
        "",
    ),
    (
        "check m t --threads 65",
        End::Refused,
        "jeldroft: error: invalid value '65' for '--threads <N>': a number from 1 to 64\n",
        "",
    ),
    (
        "suspect m r --result=",
        End::Refused,
        "jeldroft: error: invalid value '' for '--result <NAME>': the name of a column\n",
        "",
    ),
    (
        "suspect m r --result",
        End::Refused,
        "jeldroft: error: a value is required for '--result <NAME>'",
        "",
    ),
    (
        "measure m t --result Status",
        End::Refused,
        "jeldroft: error: unexpected argument '--result' found\n",
        "",
    ),
    (
        "check m t --delimiter ;",
        End::Refused,
        "jeldroft: error: invalid value ';' for '--delimiter <tab|comma>': tab or comma\n",
        "",
    ),
    (
        "check m t --separator ab",
        End::Refused,
        "jeldroft: error: invalid value 'ab' for '--separator <C>'",
        "",
    ),
    (
        "check m t --separator a",
        End::Refused,
        "jeldroft: error: invalid value 'a' for '--separator <C>'",
        "",
    ),
    (
        "check m t --invalid-mark :",
        End::Refused,
        "jeldroft: error: invalid value ':' for '--invalid-mark <C>'",
        "",
    ),
    // Options that don't go together.
    (
        "generate m --spread",
        End::Refused,
        "jeldroft: error: '--spread' can only be used with '--shrink'\n",
        "",
    ),
    (
        "generate m --rounds 5",
        End::Refused,
        "jeldroft: error: '--rounds' can only be used with '--shrink'\n",
        "",
    ),
    (
        "generate m --random 5",
        End::Refused,
        "jeldroft: error: '--random' can only be used with '--shrink'\n",
        "",
    ),
    (
        "generate m --proof-format 2",
        End::Refused,
        "jeldroft: error: '--proof-format' can only be used with '--proof'\n",
        "",
    ),
    (
        "sequence e --check r -o o",
        End::Refused,
        "jeldroft: error: '--check' cannot be used with '--output'\n",
        "",
    ),
    (
        "lint m --separator |",
        End::Refused,
        "jeldroft: error: the delimiters and the prefix of invalid values have to differ\n",
        "",
    ),
    // Standard input.
    (
        "check - -",
        End::Refused,
        "jeldroft: error: standard input ('-') can be read only once\n",
        "",
    ),
    (
        "suspect - -",
        End::Refused,
        "jeldroft: error: standard input ('-') can be read only once\n",
        "",
    ),
    (
        "generate m --seeds -",
        End::Refused,
        "jeldroft: error: invalid value '-' for '--seeds <FILE>': a file name other than '-'\n",
        "",
    ),
    (
        "check m t -",
        End::Refused,
        "jeldroft: error: invalid value '-' for '<PROOF>'",
        "",
    ),
    (
        "sequence -",
        End::Refused,
        "jeldroft: error: invalid value '-' for '<EVENTS>'",
        "",
    ),
    (
        "import a.acts -o -",
        End::Refused,
        "jeldroft: error: invalid value '-' for '--output <FILE>'",
        "",
    ),
    // Files that would be overwritten.
    (
        "generate m -o m",
        End::Refused,
        "jeldroft: error: 'm' is written, and is read too or written twice\n",
        "",
    ),
    (
        "generate m -p ./m",
        End::Refused,
        "jeldroft: error: './m' is written",
        "",
    ),
    (
        "generate m --seeds s -o ./s",
        End::Refused,
        "jeldroft: error: './s' is written",
        "",
    ),
    (
        "generate m -o p -p p",
        End::Refused,
        "jeldroft: error: 'p' is written",
        "",
    ),
    (
        "shrink m t -o t",
        End::Refused,
        "jeldroft: error: 't' is written",
        "",
    ),
    (
        "show m t p -o p",
        End::Refused,
        "jeldroft: error: 'p' is written",
        "",
    ),
    (
        "suspect m r -o r",
        End::Refused,
        "jeldroft: error: 'r' is written",
        "",
    ),
    (
        "sequence e -o e",
        End::Refused,
        "jeldroft: error: 'e' is written",
        "",
    ),
    (
        "import a.acts -o a.acts",
        End::Refused,
        "jeldroft: error: 'a.acts' is written",
        "",
    ),
];

fn ends_so(alloc: Global, words: &str, end: End, start: &str, part: &str) -> bool {
    match words_of(alloc, words) {
        Ok(words) => ends(alloc, COMMANDS, words.as_slice(), start, part) == Ok((end, true)),
        Err(_) => false,
    }
}

#[test]
fn words_without_a_command(rt: HostRuntime) {
    for (words, end, start, part) in ENDS {
        assert!(rt; ends_so(rt.alloc(), words, *end, start, part));
    }
}

// A command that the program doesn't have is none.
#[test]
fn commands_that_there_are(rt: HostRuntime) {
    let words = words_of(rt.alloc(), "lint m").expect(&rt, "words");
    let one = [CommandName::Check];
    let end = ends(
        rt.alloc(),
        &one,
        words.as_slice(),
        "jeldroft: error: unrecognized",
        "",
    );
    assert!(rt; end == Ok((End::Refused, true)));
    let two = [CommandName::Check, CommandName::Lint];
    let end = ends(rt.alloc(), &two, words.as_slice(), "", "");
    assert!(rt; end == Ok((End::Asked, true)));
}
