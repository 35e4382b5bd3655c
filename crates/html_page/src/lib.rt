//! Pages: the text of a tree of HTML elements, written piece by piece into memory.
//!
//! - `PageText` is the text of a page so far. `put` adds pieces: start tags with their attributes, texts, end tags.
//!   Contracts see its bytes, and say that they grow by exactly the text of the pieces.
//! - `Tag` and `AttributeName` are closed, so that only texts and values of attributes have to be escaped. They are:
//!   no text is ever markup.
//! - `pages_read_back` is the law: HTML's tokenisation, read on the text of a tree of elements, gives the tags,
//!   attributes and texts of the tree.
//!
//! Only `PageText::put` takes memory, and answers `NoMemory` where it is refused.
#![tactic(auto)]

mod attribute;
mod escape;
mod laws;
mod page_text;
mod piece;
mod style;
mod tag;

pub use attribute::{Attribute, AttributeName};
pub use laws::pages_read_back;
pub use page_text::PageText;
pub use piece::Piece;
pub use style::STYLE;
pub use tag::Tag;
