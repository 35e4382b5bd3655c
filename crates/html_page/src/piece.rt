use crate::attribute::Attribute;
use crate::tag::Tag;

/// A piece of the text of a page.
#[derive(Clone, Copy)]
pub enum Piece<'a, 't> {
    /// `<!doctype html>`, with which a page begins.
    Doctype,
    /// The start tag of an element without attributes.
    Start(Tag),
    /// The start tag of an element with attributes.
    StartWith(Tag, &'a [Attribute<'t>]),
    /// A `meta` element, which has attributes alone.
    Meta(&'a [Attribute<'t>]),
    /// The `title` element of the page, with a text.
    Title(&'t str),
    /// The `title` element of a picture, with its `id` and a text.
    TitleWithId(&'t str, &'t str),
    /// The `style` element with `STYLE`.
    Style,
    /// A text.
    Text(&'t str),
    /// A text as its bytes (UTF-8).
    Bytes(&'t [u8]),
    /// The end tag of an element.
    End(Tag),
}
