//! `jeldroft show`: a suite in the forms that other tools read, in words, or as a page.
//!
//! - `run_show` reads a model, a table of tests and its proof, if one is named. It writes the table's rows as a table with
//!   tabs, as comma-separated values, as json or as Markdown, or says in words or on a page what the rows cover, whether the
//!   checker accepts them, and why combinations are left out. Its clause `shows` cites specs/Shows, specs/Due, specs/Words
//!   and specs/Pages: which text the bytes of the files call for, and for which causes they call for none; in words and with
//!   a page the status is 0 exactly where the checker accepts.
//!
//! All memory is taken before the first byte is written. The verdict is that of `proof_check`, and nothing here stands on
//! the search.
#![tactic(auto)]

mod answer;
mod gaps;
mod judged;
mod omissions;
mod page_words;
mod rows;
mod run;
mod suite_words;
mod tell;

pub use run::run_show;
