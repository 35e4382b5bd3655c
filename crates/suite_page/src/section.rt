ghost use Rattle.std.specs.Prelude.{◌≡◌, ◌++◌, [], ◌∷◌, OnOk, decimal};
ghost use Rattle.html_page.specs.believed.Pieces.{pieces_text};
ghost use Rattle.html_page.specs.believed.Pieces as pieces;
ghost use Rattle.html_page.specs.Trees.{content_text};
ghost use Rattle.suite_page.specs.believed.Sections.{more_tree, words_for};
ghost use Rattle.suite_page.specs.Sections.{section_opening};

use html_page::{PageText, Piece, Tag};
use itoa::Buffer;
use value_text::NoMemory;

/// Begins a section with its heading.
pub(crate) fn put_section(page: &mut PageText, title: &str) -> Result<(), NoMemory>
    ensures { OnOk result (page.new ≡ page.old ++ pieces_text (section_opening title.now)) }
{
    page.put(&[
        Piece::Start(Tag::Section),
        Piece::Start(Tag::H2),
        Piece::Text(title),
        Piece::End(Tag::H2),
    ])
}

/// Adds a number.
pub(crate) fn put_number(page: &mut PageText, number: u64) -> Result<(), NoMemory>
    ensures { OnOk result (page.new ≡ page.old ++ pieces_text (pieces.Text (decimal number) ∷ [])) }
{
    let mut digits = Buffer::new();
    page.put(&[Piece::Text(digits.format(number))])
}

/// Adds a number, and words behind it.
pub(crate) fn put_counted(page: &mut PageText, number: u64, words: &str) -> Result<(), NoMemory>
    ensures { OnOk result (page.new ≡ page.old ++ pieces_text (pieces.Text (decimal number) ∷ pieces.Text words.now ∷ [])) }
{
    put_number(page, number)?;
    page.put(&[Piece::Text(words)])?;
    Ok(())
}

/// The words that stand behind a number: for one, or for none and several.
pub(crate) fn words_for<'a>(count: u64, one: &'a str, several: &'a str) -> &'a str
    ensures { result.now ≡ words_for count one.now several.now }
{
    if count == 1 { one } else { several }
}

/// Says how many follow what is shown, if some do.
pub(crate) fn put_more<'a>(
    page: &mut PageText,
    count: u64,
    one: &'a str,
    several: &'a str,
) -> Result<(), NoMemory>
    ensures { OnOk result (page.new ≡ page.old ++ content_text (more_tree count one.now several.now)) }
{
    if count == 0 {
        return Ok(());
    }
    page.put(&[Piece::Start(Tag::P), Piece::Text("And ")])?;
    put_counted(page, count, words_for(count, one, several))?;
    page.put(&[Piece::End(Tag::P)])?;
    Ok(())
}
