ghost use Rattle.std.specs.Prelude.{◌≡◌, ◌++◌, OnOk, map};
ghost use Rattle.html_page.specs.believed.Pieces.{pieces_text};
ghost use Rattle.html_page.specs.believed.Trees.{all_of};
ghost use Rattle.html_page.specs.Trees.{content_text};
ghost use Rattle.suite_page.specs.believed.Verdicts.{heading_tree, numbers_tree, reason_tree, sentence_tree, verdict_class, verdict_tree};

use crate::section::put_section;
use html_page::{Attribute, AttributeName, PageText, Piece, Tag};
use value_text::NoMemory;

// The classes of the verdict.
fn class_of(accepted: bool) -> &'static str
    ensures { result.now ≡ verdict_class accepted }
{
    if accepted {
        "verdict accepted"
    } else {
        "verdict refused"
    }
}

// Adds the heading.
fn put_heading(page: &mut PageText, name: &str) -> Result<(), NoMemory>
    ensures { OnOk result (page.new ≡ page.old ++ content_text (heading_tree name.now)) }
{
    page.put(&[
        Piece::Start(Tag::H1),
        Piece::Text(name),
        Piece::End(Tag::H1),
    ])
}

// Adds the paragraph of the verdict.
fn put_reason<'a>(
    page: &mut PageText,
    accepted: bool,
    verdict: &'a [u8],
    remark: &'a [u8],
) -> Result<(), NoMemory>
    ensures { OnOk result (page.new ≡ page.old ++ content_text (reason_tree accepted verdict.now remark.now)) }
{
    page.put(&[
        Piece::StartWith(
            Tag::P,
            &[Attribute {
                name: AttributeName::Class,
                value: class_of(accepted),
            }],
        ),
        Piece::Start(Tag::Strong),
        Piece::Bytes(verdict),
        Piece::End(Tag::Strong),
        Piece::Text(" "),
        Piece::Bytes(remark),
        Piece::End(Tag::P),
    ])
}

/// The heading with the model file's name, and the verdict with a remark on it.
///
/// # Errors
///
/// `NoMemory` where the text could not grow.
pub fn put_verdict<'a>(
    page: &mut PageText,
    name: &str,
    accepted: bool,
    verdict: &'a [u8],
    remark: &'a [u8],
) -> Result<(), NoMemory>
    ensures { OnOk result (page.new ≡ page.old ++ content_text (verdict_tree name.now accepted verdict.now remark.now)) }
{
    page.put(&[Piece::Start(Tag::Header)])?;
    put_heading(page, name)?;
    put_reason(page, accepted, verdict, remark)?;
    page.put(&[Piece::End(Tag::Header)])?;
    Ok(())
}

// Adds a paragraph, where there is something to say.
fn put_sentence(page: &mut PageText, sentence: &[u8]) -> Result<(), NoMemory>
    ensures { OnOk result (page.new ≡ page.old ++ content_text (sentence_tree sentence.now)) }
{
    if sentence.is_empty() {
        return Ok(());
    }
    page.put(&[
        Piece::Start(Tag::P),
        Piece::Bytes(sentence),
        Piece::End(Tag::P),
    ])
}

// Adds a paragraph for each sentence.
fn put_sentences(page: &mut PageText, sentences: &[&[u8]]) -> Result<(), NoMemory>
    ensures { OnOk result (page.new ≡ page.old ++ content_text (all_of sentence_tree (map (λ sentence. sentence.now) sentences.now))) }
{
    for sentence in sentences {
        put_sentence(page, sentence)?;
    }
    Ok(())
}

/// The numbers of the suite: a paragraph for each sentence that isn't empty.
///
/// # Errors
///
/// `NoMemory` where the text could not grow.
pub fn put_numbers(page: &mut PageText, sentences: &[&[u8]]) -> Result<(), NoMemory>
    ensures { OnOk result (page.new ≡ page.old ++ content_text (numbers_tree (map (λ sentence. sentence.now) sentences.now))) }
{
    put_section(page, "Numbers")?;
    put_sentences(page, sentences)?;
    page.put(&[Piece::End(Tag::Section)])?;
    Ok(())
}
