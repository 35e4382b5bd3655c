ghost use Rattle.std.specs.Prelude.{◌≡◌, ◌<◌, ◌++◌, ◌∷◌, [], OnOk, length, map};
ghost use Rattle.std.specs.List.{filter, flat_map, list_any};
ghost use Rattle.html_page.specs.believed.Pieces.{pieces_text};
ghost use Rattle.html_page.specs.believed.Trees.{all_of};
ghost use Rattle.html_page.specs.Trees.{content_text};
ghost use Rattle.suite_page.specs.believed.Document.{left_out};
ghost use Rattle.suite_page.specs.Laws.{group_parts};
ghost use Rattle.suite_page.specs.believed.LeftOut.{group_at, group_of, groups_of, is_by, item_tree};
ghost use Rattle.suite_page.specs.LeftOut.{group_closing, group_opening, left_out_closing, left_out_opening};
ghost use Rattle.suite_page.specs.Seen.{combination_text, omission_seen};

use crate::section::{put_more, put_number, put_section};
use html_page::{Attribute, AttributeName, PageText, Piece, Tag};
use value_text::NoMemory;

/// A combination that is left out, in words; the numbers of what leaves it out, and the texts of these.
#[derive(Drop)]
pub struct Omission {
    pub combination: Vec<u8>,
    pub causes: Vec<u32>,
    pub reasons: Vec<Vec<u8>>,
}

// Begins the section of the combinations that are left out.
fn put_left_out_opening(page: &mut PageText) -> Result<(), NoMemory>
    ensures { OnOk result (page.new ≡ page.old ++ pieces_text left_out_opening) }
{
    put_section(page, "Left out")
}

// Adds an item of a list.
fn put_item(page: &mut PageText, text: &[u8]) -> Result<(), NoMemory>
    ensures { OnOk result (page.new ≡ page.old ++ content_text (item_tree text.now)) }
{
    page.put(&[
        Piece::Start(Tag::Li),
        Piece::Bytes(text),
        Piece::End(Tag::Li),
    ])
}

// Adds items of a list.
fn put_items(page: &mut PageText, texts: &[Vec<u8>]) -> Result<(), NoMemory>
    ensures { OnOk result (page.new ≡ page.old ++ content_text (all_of item_tree (map (λ text. text.items) texts.now))) }
{
    for text in texts {
        put_item(page, text.as_slice())?;
    }
    Ok(())
}

// Begins a group: so many combinations that the same constraints leave out, with the texts of these.
fn put_group_opening(
    page: &mut PageText,
    constraints: &[Vec<u8>],
    count: u64,
) -> Result<(), NoMemory>
    ensures { OnOk result (page.new ≡ page.old ++ pieces_text (group_opening (map (λ text. text.items) constraints.now) count)) }
{
    page.put(&[
        Piece::StartWith(
            Tag::Details,
            &[Attribute {
                name: AttributeName::Open,
                value: "",
            }],
        ),
        Piece::Start(Tag::Summary),
        Piece::Text("Combinations left out: "),
    ])?;
    put_number(page, count)?;
    page.put(&[
        Piece::End(Tag::Summary),
        Piece::StartWith(
            Tag::Ul,
            &[Attribute {
                name: AttributeName::Class,
                value: "constraints",
            }],
        ),
    ])?;
    put_items(page, constraints)?;
    page.put(&[Piece::End(Tag::Ul), Piece::Start(Tag::Ul)])?;
    Ok(())
}

// Ends a group.
fn put_group_closing(page: &mut PageText) -> Result<(), NoMemory>
    ensures { OnOk result (page.new ≡ page.old ++ pieces_text group_closing) }
{
    page.put(&[Piece::End(Tag::Ul), Piece::End(Tag::Details)])
}

// Ends the section of the combinations that are left out, and says how many more there are.
fn put_left_out_closing(page: &mut PageText, more: u64) -> Result<(), NoMemory>
    ensures { OnOk result (page.new ≡ page.old ++ pieces_text (left_out_closing more)) }
{
    put_more(page, more, " more combination.", " more combinations.")?;
    page.put(&[Piece::End(Tag::Section)])?;
    Ok(())
}

// Whether just these leave a combination out.
fn is_by(omission: &Omission, causes: &[u32]) -> bool
    ensures { result ≡ is_by causes.now (omission_seen omission.now) }
{
    omission.causes.as_slice() == causes
}

// Whether these leave a combination of a list out.
fn are_among(omissions: &[Omission], causes: &[u32]) -> bool
    ensures { result ≡ list_any (λ one. is_by causes.now (omission_seen one)) omissions.now }
{
    for omission in omissions {
        if is_by(omission, causes) {
            return true;
        }
    }
    false
}

// How many combinations of a list these leave out.
fn count_alike(omissions: &[Omission], causes: &[u32]) -> u64
    ensures { result ≡ length (filter (λ one. is_by causes.now (omission_seen one)) omissions.now) }
{
    let mut count = 0;
    for omission in omissions {
        if is_by(omission, causes) {
            count += 1;
        }
    }
    count
}

// Adds a combination, in words, if these leave it out.
fn put_if_alike(page: &mut PageText, omission: &Omission, causes: &[u32]) -> Result<(), NoMemory>
    ensures { OnOk result (page.new ≡ page.old
        ++ flat_map combination_text (filter (λ one. is_by causes.now (omission_seen one)) (omission.now ∷ []))) }
{
    if !is_by(omission, causes) {
        return Ok(());
    }
    put_item(page, omission.combination.as_slice())
}

// Adds the combinations of a list that these leave out.
fn put_alike(page: &mut PageText, omissions: &[Omission], causes: &[u32]) -> Result<(), NoMemory>
    ensures { OnOk result (page.new ≡ page.old
        ++ flat_map combination_text (filter (λ one. is_by causes.now (omission_seen one)) omissions.now)) }
{
    for omission in omissions {
        put_if_alike(page, omission, causes)?;
    }
    Ok(())
}

// Adds the group of these causes, which have these texts.
fn put_group(
    page: &mut PageText,
    omissions: &[Omission],
    causes: &[u32],
    reasons: &[Vec<u8>],
) -> Result<(), NoMemory>
    ensures { OnOk result (page.new ≡ page.old ++ group_parts (group_of (map omission_seen omissions.now) causes.now (map (λ text. text.items) reasons.now))) }
{
    put_group_opening(page, reasons, count_alike(omissions, causes))?;
    put_alike(page, omissions, causes)?;
    put_group_closing(page)?;
    Ok(())
}

// Adds the group of which a combination is the first, if it is.
fn put_group_at(page: &mut PageText, omissions: &[Omission], at: usize) -> Result<(), NoMemory>
    requires { at < length omissions.now }
    ensures { OnOk result (page.new ≡ page.old ++ flat_map group_parts (group_at (map omission_seen omissions.now) at)) }
{
    let first = &omissions[at];
    let causes = first.causes.as_slice();
    if are_among(&omissions[..at], causes) {
        return Ok(());
    }
    put_group(page, omissions, causes, first.reasons.as_slice())
}

// Adds the groups of combinations.
fn put_groups(page: &mut PageText, omissions: &[Omission]) -> Result<(), NoMemory>
    ensures { OnOk result (page.new ≡ page.old ++ flat_map group_parts (groups_of (map omission_seen omissions.now))) }
{
    for at in 0..omissions.len() {
        put_group_at(page, omissions, at)?;
    }
    Ok(())
}

/// The section of the combinations that are left out, in groups that the same causes leave out; nothing where there is
/// none. Above each group stand the reasons of its first combination. `more` combinations aren't shown.
///
/// # Errors
///
/// `NoMemory` where the text could not grow.
pub fn put_left_out(page: &mut PageText, omissions: &[Omission], more: u64) -> Result<(), NoMemory>
    ensures { OnOk result (page.new ≡ page.old ++ content_text (left_out (groups_of (map omission_seen omissions.now)) more)) }
{
    if omissions.is_empty() {
        return Ok(());
    }
    put_left_out_opening(page)?;
    put_groups(page, omissions)?;
    put_left_out_closing(page, more)?;
    Ok(())
}
