//! Where the parts of a model stand in its file, and where exactly a file is refused that spells none, with what stands
//! there and what could stand there, in words.
//!
//! - `ModelPlaces` gives the columns of the parameters, values, constraints and terms of a model.
//! - `refusal_place` gives the place of a refusal, of which the reader tells a line and a code alone.
//! - `put_refusal` writes a line for people: the place, what was found, and what could have stood there.
//! - `expected` is what could have stood there for a code, in words.
//! - `nearest` gives the name that may be meant by a word.
//!
//! The place of a refusal is found with the reader itself, by reading parts of the file. It takes memory for these
//! parts; where it is refused `put_refusal` tells the line and the code.
#![tactic(auto)]

mod column;
mod could_stand;
mod expectations;
mod file_lines;
mod found;
mod message;
mod model_places;
mod name_words;
mod near_name;
mod pieces;
mod place;
mod put;
mod refused_term;
mod refused_token;
mod shown;
mod span;
mod term_words;
mod terms;
mod token;
mod token_words;
mod tokens;
mod trial;
mod value_places;

pub use expectations::expected;
pub use model_places::ModelPlaces;
pub use near_name::nearest;
pub use place::{Place, refusal_place};
pub use put::put_refusal;
