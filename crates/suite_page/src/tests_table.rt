ghost use Rattle.std.specs.Prelude.{◌≡◌, ◌++◌, OnOk, map};
ghost use Rattle.html_page.specs.believed.Pieces.{pieces_text};
ghost use Rattle.html_page.specs.believed.Trees.{all_of};
ghost use Rattle.html_page.specs.Trees.{content_text};
ghost use Rattle.suite_page.specs.Seen.{cell_seen};
ghost use Rattle.suite_page.specs.believed.TestsTable.{cell_tree, name_tree};
ghost use Rattle.suite_page.specs.TestsTable.{test_closing, test_opening, tests_closing, tests_opening};

use crate::section::{put_more, put_number, put_section};
use html_page::{Attribute, AttributeName, PageText, Piece, Tag};
use value_text::NoMemory;

/// A cell of the table of tests: the value's name, and whether the value is invalid. A cell without a value has the
/// empty text.
#[derive(Clone, Copy)]
pub struct Cell<'a> {
    pub text: &'a str,
    pub is_invalid: bool,
}

// Adds a head for each name.
fn put_names(page: &mut PageText, names: &[&str]) -> Result<(), NoMemory>
    ensures { OnOk result (page.new ≡ page.old ++ content_text (all_of name_tree (map (λ name. name.now) names.now))) }
{
    for name in names {
        page.put(&[
            Piece::StartWith(
                Tag::Th,
                &[Attribute {
                    name: AttributeName::Scope,
                    value: "col",
                }],
            ),
            Piece::Text(name),
            Piece::End(Tag::Th),
        ])?;
    }
    Ok(())
}

/// Begins the section of the tests: a table with a head that stays in view. `names` are the names of the parameters.
///
/// # Errors
///
/// `NoMemory` where the text could not grow.
pub fn put_tests_opening(page: &mut PageText, names: &[&str]) -> Result<(), NoMemory>
    ensures { OnOk result (page.new ≡ page.old ++ pieces_text (tests_opening (map (λ name. name.now) names.now))) }
{
    put_section(page, "Tests")?;
    page.put(&[
        Piece::StartWith(
            Tag::Div,
            &[
                Attribute {
                    name: AttributeName::Class,
                    value: "scroll",
                },
                Attribute {
                    name: AttributeName::TabIndex,
                    value: "0",
                },
                Attribute {
                    name: AttributeName::Role,
                    value: "region",
                },
                Attribute {
                    name: AttributeName::AriaLabel,
                    value: "Tests",
                },
            ],
        ),
        Piece::Start(Tag::Table),
        Piece::Start(Tag::Caption),
        Piece::Text("The tests, one in each row"),
        Piece::End(Tag::Caption),
        Piece::Start(Tag::Thead),
        Piece::Start(Tag::Tr),
        Piece::StartWith(
            Tag::Th,
            &[Attribute {
                name: AttributeName::Scope,
                value: "col",
            }],
        ),
        Piece::Text("Test"),
        Piece::End(Tag::Th),
    ])?;
    put_names(page, names)?;
    page.put(&[
        Piece::End(Tag::Tr),
        Piece::End(Tag::Thead),
        Piece::Start(Tag::Tbody),
    ])?;
    Ok(())
}

/// A cell of a test.
///
/// # Errors
///
/// `NoMemory` where the text could not grow.
pub fn put_cell(page: &mut PageText, cell: &Cell<'_>) -> Result<(), NoMemory>
    ensures { OnOk result (page.new ≡ page.old ++ content_text (cell_tree (cell_seen cell.now))) }
{
    if !cell.is_invalid {
        return page.put(&[
            Piece::Start(Tag::Td),
            Piece::Text(cell.text),
            Piece::End(Tag::Td),
        ]);
    }
    page.put(&[
        Piece::StartWith(
            Tag::Td,
            &[Attribute {
                name: AttributeName::Class,
                value: "invalid",
            }],
        ),
        Piece::StartWith(
            Tag::Span,
            &[Attribute {
                name: AttributeName::Class,
                value: "mark",
            }],
        ),
        Piece::Text("invalid"),
        Piece::End(Tag::Span),
        Piece::Text(" "),
        Piece::Text(cell.text),
        Piece::End(Tag::Td),
    ])
}

/// Begins a test: a row with its number, in which its cells follow in the order of the parameters.
///
/// # Errors
///
/// `NoMemory` where the text could not grow.
pub fn put_test_opening(page: &mut PageText, number: u64) -> Result<(), NoMemory>
    ensures { OnOk result (page.new ≡ page.old ++ pieces_text (test_opening number)) }
{
    page.put(&[
        Piece::Start(Tag::Tr),
        Piece::StartWith(
            Tag::Th,
            &[Attribute {
                name: AttributeName::Scope,
                value: "row",
            }],
        ),
    ])?;
    put_number(page, number)?;
    page.put(&[Piece::End(Tag::Th)])?;
    Ok(())
}

/// Ends a test.
///
/// # Errors
///
/// `NoMemory` where the text could not grow.
pub fn put_test_closing(page: &mut PageText) -> Result<(), NoMemory>
    ensures { OnOk result (page.new ≡ page.old ++ pieces_text test_closing) }
{
    page.put(&[Piece::End(Tag::Tr)])
}

/// Ends the section of the tests, and says how many more there are.
///
/// # Errors
///
/// `NoMemory` where the text could not grow.
pub fn put_tests_closing(page: &mut PageText, more: u64) -> Result<(), NoMemory>
    ensures { OnOk result (page.new ≡ page.old ++ pieces_text (tests_closing more)) }
{
    page.put(&[
        Piece::End(Tag::Tbody),
        Piece::End(Tag::Table),
        Piece::End(Tag::Div),
    ])?;
    put_more(page, more, " more test.", " more tests.")?;
    page.put(&[Piece::End(Tag::Section)])?;
    Ok(())
}
