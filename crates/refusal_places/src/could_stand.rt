//! What of the grammar could have stood where a constraint is refused.
ghost use Rattle.model_parse.specs.RawModels.{AreOpts};

use crate::span::Span;
use crate::trial::refusal_behind;
use model_lex::{DiagCode, ModelOpts};
use std::alloc::Global;
use value_text::NoMemory;

// What may stand at a place of a constraint: an example, and words for it.
#[derive(Clone, Copy)]
struct Choice {
    example: &'static str,
    words: &'static str,
}

const PARAMETER: &str = "a parameter in brackets";

// What may stand where a code is told.
fn choices(code: DiagCode) -> &'static [Choice] {
    match code {
        DiagCode::PredicateExpected => &[
            Choice {
                example: "[x]",
                words: PARAMETER,
            },
            Choice {
                example: "IF",
                words: "IF",
            },
            Choice {
                example: "NOT",
                words: "NOT",
            },
            Choice {
                example: "ISNEGATIVE",
                words: "ISNEGATIVE",
            },
            Choice {
                example: "ISPOSITIVE",
                words: "ISPOSITIVE",
            },
            Choice {
                example: "(",
                words: "\"(\"",
            },
        ],
        DiagCode::RelationExpected => &[
            Choice {
                example: "=",
                words: "a comparison (=, <>, <, <=, >, >=)",
            },
            Choice {
                example: "IN",
                words: "IN",
            },
            Choice {
                example: "LIKE",
                words: "LIKE",
            },
            Choice {
                example: "NOT",
                words: "NOT",
            },
        ],
        DiagCode::OperandExpected => &[
            Choice {
                example: "\"x\"",
                words: "a text in quotes",
            },
            Choice {
                example: "1",
                words: "a number",
            },
            Choice {
                example: "[x]",
                words: PARAMETER,
            },
        ],
        DiagCode::MarkExpected => &[
            Choice {
                example: "THEN",
                words: "THEN",
            },
            Choice {
                example: "ELSE",
                words: "ELSE",
            },
            Choice {
                example: "AND",
                words: "AND",
            },
            Choice {
                example: "OR",
                words: "OR",
            },
            Choice {
                example: "(",
                words: "\"(\"",
            },
            Choice {
                example: ")",
                words: "\")\"",
            },
            Choice {
                example: "{",
                words: "\"{\"",
            },
            Choice {
                example: ",",
                words: "\",\"",
            },
            Choice {
                example: "}",
                words: "\"}\"",
            },
            Choice {
                example: ";",
                words: "\";\"",
            },
        ],
        _ => &[],
    }
}

// Whether a text could stand behind a token: what is refused then stands in the line behind it.
fn could_stand(
    alloc: Global,
    file: &[u8],
    opts: &ModelOpts,
    before: Span,
    example: &str,
) -> Result<bool, NoMemory>
    requires { AreOpts opts.now }
{
    let behind = format!(in alloc; " {example}\n{{")?;
    match refusal_behind(alloc, file, before, behind.as_bytes(), opts)? {
        Some(diag) => Ok(diag.line > before.line),
        None => Ok(false),
    }
}

// The words of what could stand behind a token.
fn words_of(
    alloc: Global,
    file: &[u8],
    opts: &ModelOpts,
    before: Span,
    code: DiagCode,
) -> Result<Vec<&'static str>, NoMemory>
    requires { AreOpts opts.now }
{
    let mut words = Vec::new(alloc);
    for choice in choices(code) {
        if could_stand(alloc, file, opts, before, choice.example)? {
            words.push(choice.words)?;
        }
    }
    Ok(words)
}

// Words one behind another, with commas, and with "or" before the last.
fn joined(alloc: Global, words: &[&str]) -> Result<String, NoMemory> {
    let mut text = String::new(alloc);
    for (i, word) in words.iter().enumerate() {
        if i > 0 {
            text.push_str(if i == words.len() - 1 { " or " } else { ", " })?;
        }
        text.push_str(word)?;
    }
    Ok(text)
}

/// What could stand behind a token in place of one that is refused by a code, in words; `None` where
/// nothing is known.
pub(crate) fn choices_behind(
    alloc: Global,
    file: &[u8],
    opts: &ModelOpts,
    before: Span,
    code: DiagCode,
) -> Result<Option<String>, NoMemory>
    requires { AreOpts opts.now }
{
    let words = words_of(alloc, file, opts, before, code)?;
    if words.is_empty() {
        return Ok(None);
    }
    Ok(Some(joined(alloc, words.as_slice())?))
}
