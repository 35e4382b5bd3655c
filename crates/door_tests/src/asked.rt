//! What words ask for.

use crate::words::{COMMANDS, words_of};
use jeldroft_args::{
    Check, Command, Generate, Import, Lint, Measure, ModelFile, Sequence, Show, Shrink, Suspect,
    read_args,
};
use std::alloc::{AllocError, Global};
use value_text::Text;

// The name of a file, or a dot where there is none.
fn name(file: &Option<Text>) -> &str {
    match file {
        Some(text) => text.as_str(),
        None => ".",
    }
}

// A model file with how it is read.
fn model(alloc: Global, model: &ModelFile) -> Result<String, AllocError> {
    let name = model.name.as_str();
    let case = model.case_sensitive;
    let (separator, alias, invalid) = (
        char::from(model.marks.separator),
        char::from(model.marks.alias),
        char::from(model.marks.invalid),
    );
    format!(in alloc; "{name} {separator}{alias}{invalid} {case}")
}

fn generate(alloc: Global, asked: &Generate) -> Result<String, AllocError> {
    let model = model(alloc, &asked.model)?;
    let (strength, seeds, delimiter) = (asked.strength, name(&asked.seeds), asked.delimiter);
    let (proof, form) = match &asked.proof {
        Some(proof) => (proof.name.as_str(), proof.format),
        None => (".", 0),
    };
    let (format, output, shrinking) = (asked.format, name(&asked.output), asked.shrinking);
    let (shuffle, budget, threads) = (asked.shuffle, asked.budget, asked.threads);
    let (no_warnings, quiet) = (asked.no_warnings, asked.quiet);
    format!(in alloc;
        "generate {model} {strength:?} {seeds} {delimiter:?} {proof} {form} {format:?} {output} {shrinking:?} {shuffle:?} {budget:?} {threads} {no_warnings} {quiet}"
    )
}

fn check(alloc: Global, asked: &Check) -> Result<String, AllocError> {
    let model = model(alloc, &asked.model)?;
    let (table, proof) = (asked.table.as_str(), name(&asked.proof));
    let (strength, delimiter, threads) = (asked.strength, asked.delimiter, asked.threads);
    format!(in alloc; "check {model} {table} {proof} {strength:?} {delimiter:?} {threads}")
}

fn shrink(alloc: Global, asked: &Shrink) -> Result<String, AllocError> {
    let model = model(alloc, &asked.model)?;
    let (table, strength, seeds) = (asked.table.as_str(), asked.strength, name(&asked.seeds));
    let (delimiter, format, output) = (asked.delimiter, asked.format, name(&asked.output));
    let (shrinking, budget) = (asked.shrinking, asked.budget);
    let (no_warnings, quiet) = (asked.no_warnings, asked.quiet);
    format!(in alloc;
        "shrink {model} {table} {strength:?} {seeds} {delimiter:?} {format:?} {output} {shrinking:?} {budget:?} {no_warnings} {quiet}"
    )
}

fn show(alloc: Global, asked: &Show) -> Result<String, AllocError> {
    let model = model(alloc, &asked.model)?;
    let (table, proof, strength) = (asked.table.as_str(), name(&asked.proof), asked.strength);
    let (delimiter, format, output) = (asked.delimiter, asked.format, name(&asked.output));
    let (threads, no_warnings) = (asked.threads, asked.no_warnings);
    format!(in alloc;
        "show {model} {table} {proof} {strength:?} {delimiter:?} {format:?} {output} {threads} {no_warnings}"
    )
}

fn lint(alloc: Global, asked: &Lint) -> Result<String, AllocError> {
    let model = model(alloc, &asked.model)?;
    let (all, format) = (asked.all, asked.format);
    format!(in alloc; "lint {model} {all} {format:?}")
}

fn measure(alloc: Global, asked: &Measure) -> Result<String, AllocError> {
    let model = model(alloc, &asked.model)?;
    let (table, strength, delimiter) = (asked.table.as_str(), asked.strength, asked.delimiter);
    let (output, budget, threads) = (name(&asked.output), asked.budget, asked.threads);
    format!(in alloc;
        "measure {model} {table} {strength:?} {delimiter:?} {output} {budget:?} {threads}"
    )
}

fn suspect(alloc: Global, asked: &Suspect) -> Result<String, AllocError> {
    let model = model(alloc, &asked.model)?;
    let (results, strength) = (asked.results.as_str(), asked.strength);
    let (result, delimiter, output) = (name(&asked.result), asked.delimiter, name(&asked.output));
    format!(in alloc; "suspect {model} {results} {strength:?} {result} {delimiter:?} {output}")
}

fn sequence(alloc: Global, asked: &Sequence) -> Result<String, AllocError> {
    let (events, length) = (asked.events.as_str(), asked.length);
    let (report, output) = (name(&asked.report), name(&asked.output));
    format!(in alloc; "sequence {events} {length} {report} {output}")
}

fn import(alloc: Global, asked: &Import) -> Result<String, AllocError> {
    let (file, case, output) = (
        asked.file.as_str(),
        asked.case_sensitive,
        name(&asked.output),
    );
    format!(in alloc; "import {file} {case} {output}")
}

fn told(alloc: Global, command: &Command) -> Result<String, AllocError> {
    match command {
        Command::Generate(asked) => generate(alloc, asked),
        Command::Check(asked) => check(alloc, asked),
        Command::Shrink(asked) => shrink(alloc, asked),
        Command::Show(asked) => show(alloc, asked),
        Command::Lint(asked) => lint(alloc, asked),
        Command::Measure(asked) => measure(alloc, asked),
        Command::Suspect(asked) => suspect(alloc, asked),
        Command::Sequence(asked) => sequence(alloc, asked),
        Command::Import(asked) => import(alloc, asked),
    }
}

// Words, and what they ask for.
const ASKED: &[(&str, &str)] = &[
    // The defaults of each command.
    (
        "generate m.txt",
        "generate m.txt ,|~ false Number(2) . None . 0 Tsv . None None None 1 false false",
    ),
    (
        "check m.txt t.tsv",
        "check m.txt ,|~ false t.tsv . Number(2) None 1",
    ),
    (
        "check m.txt t.tsv p",
        "check m.txt ,|~ false t.tsv p Number(2) None 1",
    ),
    (
        "shrink m t",
        "shrink m ,|~ false t Number(2) . None Tsv . Shrinking { spread: false, rounds: 10000, random: 0 } None false false",
    ),
    (
        "show m t",
        "show m ,|~ false t . Number(2) None Text . 1 false",
    ),
    ("lint m", "lint m ,|~ false false Text"),
    (
        "measure m t",
        "measure m ,|~ false t Number(2) None . None 1",
    ),
    ("suspect m r", "suspect m ,|~ false r Number(2) . None ."),
    ("sequence e", "sequence e 2 . ."),
    ("import a.acts", "import a.acts false ."),
    // Every option of each command.
    (
        "generate m -t max --seeds s.csv -p p --proof-format 2 -f json -o o --shrink --spread --rounds 7 --random 8 --shuffle 9 --budget 10 --threads 64 --case-sensitive --separator ; --alias-separator / --invalid-mark ! --delimiter comma --no-warnings -q",
        "generate m ;/! true Max s.csv Some(Comma) p 2 Json o Some(Shrinking { spread: true, rounds: 7, random: 8 }) Some(9) Some(10) 64 true true",
    ),
    (
        "check m t p --strength 3 --threads 4 --case-sensitive --separator ; --alias-separator / --invalid-mark ! --delimiter tab",
        "check m ;/! true t p Number(3) Some(Tab) 4",
    ),
    (
        "shrink m t -t 256 --seeds s -f markdown -o o --spread --rounds 0 --random 18446744073709551615 --budget 1099511627776 --case-sensitive --separator ; --alias-separator / --invalid-mark ! --delimiter comma --no-warnings --quiet",
        "shrink m ;/! true t Number(256) s Some(Comma) Markdown o Shrinking { spread: true, rounds: 0, random: 18446744073709551615 } Some(1099511627776) true true",
    ),
    (
        "show m t p -t 1 -f html -o o --threads 2 --case-sensitive --separator ; --alias-separator / --invalid-mark ! --delimiter comma --no-warnings",
        "show m ;/! true t p Number(1) Some(Comma) Html o 2 true",
    ),
    (
        "lint m --all -f json --case-sensitive --separator ;",
        "lint m ;|~ true true Json",
    ),
    (
        "measure m t -t 3 -o o --budget 5 --threads 6 --delimiter tab",
        "measure m ,|~ false t Number(3) Some(Tab) o Some(5) 6",
    ),
    (
        "suspect m r -t 3 --result Status -o o --delimiter tab",
        "suspect m ,|~ false r Number(3) Status Some(Tab) o",
    ),
    ("sequence e --strength 3 --check r", "sequence e 3 r ."),
    ("sequence e -o o", "sequence e 2 . o"),
    (
        "import a.acts -o m --case-sensitive",
        "import a.acts true m",
    ),
    // Options in any place, with `=`, without a space, in bundles, and their end.
    (
        "check --strength 3 m t",
        "check m ,|~ false t . Number(3) None 1",
    ),
    (
        "check m --strength=3 t p",
        "check m ,|~ false t p Number(3) None 1",
    ),
    ("check m t -t3", "check m ,|~ false t . Number(3) None 1"),
    ("check m t -t=3", "check m ,|~ false t . Number(3) None 1"),
    (
        "generate -qt3 m",
        "generate m ,|~ false Number(3) . None . 0 Tsv . None None None 1 false true",
    ),
    (
        "generate -qfcsv m -oo",
        "generate m ,|~ false Number(2) . None . 0 Csv o None None None 1 false true",
    ),
    (
        "generate -q -- -m",
        "generate -m ,|~ false Number(2) . None . 0 Tsv . None None None 1 false true",
    ),
    (
        "check -- -m --threads",
        "check -m ,|~ false --threads . Number(2) None 1",
    ),
    (
        "generate m --proof=false",
        "generate m ,|~ false Number(2) . None false 1 Tsv . None None None 1 false false",
    ),
    (
        "generate m -t 007",
        "generate m ,|~ false Number(7) . None . 0 Tsv . None None None 1 false false",
    ),
    // Standard input.
    (
        "generate -",
        "generate - ,|~ false Number(2) . None . 0 Tsv . None None None 1 false false",
    ),
    ("check m -", "check m ,|~ false - . Number(2) None 1"),
    ("suspect - r", "suspect - ,|~ false r Number(2) . None ."),
    // The column of results is named as the table has it.
    (
        "suspect m r --result=:RESULT",
        "suspect m ,|~ false r Number(2) :RESULT None .",
    ),
    (
        "suspect --result - m r",
        "suspect m ,|~ false r Number(2) - None .",
    ),
    // Marks may change places.
    (
        "lint m --separator | --alias-separator ,",
        "lint m |,~ false false Text",
    ),
];

fn ask_so(alloc: Global, words: &str, wanted: &str) -> bool {
    let Ok(words) = words_of(alloc, words) else {
        return false;
    };
    let Ok(command) = read_args(alloc, COMMANDS, words.as_slice()) else {
        return false;
    };
    match told(alloc, &command) {
        Ok(text) => text.as_str() == wanted,
        Err(_) => false,
    }
}

#[test]
fn words_of_each_command(rt: HostRuntime) {
    for (words, wanted) in ASKED {
        assert!(rt; ask_so(rt.alloc(), words, wanted));
    }
}
