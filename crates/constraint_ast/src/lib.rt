//! The constraints of a model file as trees: their grammar and their reading.
//!
//! - `RawRule` is a constraint as it is written, with parameter names in place of parameters.
//! - `parse_rules` reads the constraints of a model file.
//! - `rule_text` writes the line of a constraint. Of a constraint that a model file spells,
//!   `rule_text_is_one_line` states that this is one line, `rule_text_reads_back` that it spells the
//!   same constraint, and `rule_text_opens` that it stands as the first of a file.
//! - `grammar_has_one_reading` and `lines_have_one_reading` state that tokens and lines either spell
//!   one list of constraints, or are refused at one place with one code.
#![tactic(auto)]

mod laws;
mod lexer;
mod parser;
mod quoting;
mod token;
mod tree;
mod writer;

pub use laws::{
    grammar_has_one_reading, lines_have_one_reading, rule_text_is_one_line, rule_text_opens,
    rule_text_reads_back,
};
pub use parser::parse_rules;
pub use tree::{
    RawBody, RawLiteral, RawLiteralList, RawPred, RawPredList, RawRel, RawRule, RawRuleList,
    RawTerm,
};
pub use writer::rule_text;
