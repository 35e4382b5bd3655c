//! A model and the omissions of its proof in words.
//!
//! - `add_pairs` and `add_params` write a combination and a set of parameters by the names that the model has for them;
//!   `add`, `add_number` and `add_counted` write the texts and numbers between.
//! - `rule_words` is the text of a constraint. `texts_are_of_the_file` states that it is that of the tree that the model
//!   file spells, with the names as they are declared.
//! - `explain` says of the tree of an omission how many leaves it has and which constraints and earlier omissions stand in
//!   them; `add_left_out` writes this for all omissions of a proof.
//!
//! Whether the trees refute their combinations isn't asked here. Each call takes memory for the text and for what it is
//! made of, and answers `NoMemory` where it is refused.
#![tactic(auto)]

mod explanation;
mod laws;
mod left_out;
mod numbers;
mod spelling;
mod words;

pub use explanation::{Explanation, explain};
pub use laws::texts_are_of_the_file;
pub use left_out::add_left_out;
pub use spelling::rule_words;
pub use words::{
    add, add_combinations, add_counted, add_number, add_pairs, add_params, add_tests, add_two,
};
