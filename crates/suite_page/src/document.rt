ghost use Rattle.std.specs.Prelude.{◌≡◌, ◌++◌, OnOk, IfOk, codes};
ghost use Rattle.std.specs.String.{string_bytes};
ghost use Rattle.html_page.specs.believed.Pieces.{pieces_text};
ghost use Rattle.suite_page.specs.Document.{closing, opening};
ghost use Rattle.suite_page.specs.believed.Document.{title_of};

use html_page::{Attribute, AttributeName, PageText, Piece, Tag};
use std::alloc::Global;
use value_text::NoMemory;

// The title of the page of a model file.
fn title_of(alloc: Global, name: &str) -> Result<String, NoMemory>
    ensures { IfOk result (λ title. string_bytes title ≡ title_of name.now) }
{
    let mut title = String::new(alloc);
    title.push_str("Test suite of ")?;
    title.push_str(name)?;
    Ok(title)
}

/// Begins a page: what stands before its parts. `name` is the model file's name.
///
/// # Errors
///
/// `NoMemory` where the text could not grow.
pub fn put_opening(alloc: Global, page: &mut PageText, name: &str) -> Result<(), NoMemory>
    ensures { OnOk result (page.new ≡ page.old ++ pieces_text (opening name.now)) }
{
    let title = title_of(alloc, name)?;
    page.put(&[
        Piece::Doctype,
        Piece::StartWith(
            Tag::Html,
            &[Attribute {
                name: AttributeName::Lang,
                value: "en",
            }],
        ),
        Piece::Start(Tag::Head),
        Piece::Meta(&[Attribute {
            name: AttributeName::Charset,
            value: "utf-8",
        }]),
        Piece::Meta(&[
            Attribute {
                name: AttributeName::Name,
                value: "viewport",
            },
            Attribute {
                name: AttributeName::Content,
                value: "width=device-width, initial-scale=1",
            },
        ]),
        Piece::Title(title.as_str()),
        Piece::Style,
        Piece::End(Tag::Head),
        Piece::Start(Tag::Body),
        Piece::Start(Tag::Main),
    ])
}

/// Ends a page.
///
/// # Errors
///
/// `NoMemory` where the text could not grow.
pub fn put_closing(page: &mut PageText) -> Result<(), NoMemory>
    ensures { OnOk result (page.new ≡ page.old ++ pieces_text closing) }
{
    page.put(&[
        Piece::End(Tag::Main),
        Piece::End(Tag::Body),
        Piece::End(Tag::Html),
    ])
}
