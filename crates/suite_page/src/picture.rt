ghost use Rattle.std.specs.Prelude.{◌≡◌, ◌++◌, ◌≤◌, OnOk, IfOk};
ghost use Rattle.std.specs.String.{string_bytes};
ghost use Rattle.html_page.specs.Trees.{content_text};
ghost use Rattle.suite_page.specs.believed.Pictures.{across, axes, caption, curve_tree, description, down, drawing, label_tree, labels, picture_tree, place_text, points_text, share, tests_label, total_label, total_words};
ghost use Rattle.suite_page.specs.Seen.{picture_seen};

use crate::section::{put_counted, put_section, words_for};
use html_page::{Attribute, AttributeName, PageText, Piece, Tag};
use itoa::Buffer;
use std::alloc::Global;
use value_text::NoMemory;

/// A point of the curve: how many combinations the first so many tests cover.
#[derive(Debug, Clone, Copy, PartialEq, Eq)]
pub struct Point {
    pub tests: u64,
    pub covered: u64,
}

/// What the picture shows: a curve through points, with rising numbers of tests; how many tests there are, how many
/// combinations they cover, and how many can be covered. Where that isn't known, it is how many are demanded.
#[derive(Clone, Copy)]
pub struct Picture<'a> {
    pub points: &'a [Point],
    pub tests: u64,
    pub covered: u64,
    pub total: u64,
    pub is_known: bool,
}

// How much of 1600 a part is of a whole, rounded down.
fn share(part: u64, whole: u64) -> u64
    ensures value { result ≡ share part whole 1600 }
    ensures within { result ≤ 1600 }
{
    if whole == 0 {
        return 0;
    }
    let part = part.min(whole);
    (u128::from(part) * 1600 / u128::from(whole)) as u64
}

// How far to the right a number of tests stands.
fn across(tests: u64, all: u64) -> u64
    ensures { result ≡ across tests all }
{
    50 + 2 * share(tests, all)
}

// How far down a number of combinations stands.
fn down(covered: u64, total: u64) -> u64
    ensures { result ≡ down covered total }
{
    1900 - share(covered, total)
}

// Adds the place of a point.
fn push_place(text: &mut String, across: u64, down: u64) -> Result<(), NoMemory>
    ensures { OnOk result (string_bytes text.new ≡ string_bytes text.old ++ place_text across down) }
{
    let mut first = Buffer::new();
    let mut second = Buffer::new();
    text.push_str(" ")?;
    text.push_str(first.format(across))?;
    text.push_str(",")?;
    text.push_str(second.format(down))?;
    Ok(())
}

// The places of the points of a curve.
fn points_text(alloc: Global, picture: &Picture<'_>) -> Result<String, NoMemory>
    ensures { IfOk result (λ text. string_bytes text ≡ points_text (picture_seen picture.now)) }
{
    let mut text = String::new(alloc);
    for point in picture.points {
        push_place(
            &mut text,
            across(point.tests, picture.tests),
            down(point.covered, picture.total),
        )?;
    }
    Ok(text)
}

// The words for what the total counts.
fn total_words(is_known: bool, total: u64) -> &'static str
    ensures { result.now ≡ total_words is_known total }
{
    if is_known {
        words_for(
            total,
            " combination that can be covered.",
            " combinations that can be covered.",
        )
    } else {
        words_for(total, " demanded combination.", " demanded combinations.")
    }
}

// The caption.
fn caption(is_known: bool) -> &'static str
    ensures { result.now ≡ caption is_known }
{
    if is_known {
        "The curve shows what the first tests cover, the dashed line all that can be covered."
    } else {
        "The curve shows what the first tests cover, the dashed line all that is demanded."
    }
}

// Adds the title and the description.
fn put_description(page: &mut PageText, picture: &Picture<'_>) -> Result<(), NoMemory>
    ensures { OnOk result (page.new ≡ page.old ++ content_text (description (picture_seen picture.now))) }
{
    let covered = words_for(picture.tests, " test covers ", " tests cover ");
    let all = total_words(picture.is_known, picture.total);
    page.put(&[Piece::TitleWithId("picture-title", "Covered combinations by number of tests")])?;
    page.put(&[Piece::StartWith(
        Tag::Desc,
        &[Attribute {
            name: AttributeName::Id,
            value: "picture-text",
        }],
    )])?;
    put_counted(page, picture.tests, covered)?;
    put_counted(page, picture.covered, " of ")?;
    put_counted(page, picture.total, all)?;
    page.put(&[Piece::End(Tag::Desc)])?;
    Ok(())
}

// Adds the axes, and the line of the total.
fn put_axes(page: &mut PageText) -> Result<(), NoMemory>
    ensures { OnOk result (page.new ≡ page.old ++ content_text axes) }
{
    page.put(&[
        Piece::StartWith(
            Tag::Path,
            &[
                Attribute {
                    name: AttributeName::Class,
                    value: "axis",
                },
                Attribute {
                    name: AttributeName::D,
                    value: "M50 300V1900H3250",
                },
            ],
        ),
        Piece::End(Tag::Path),
        Piece::StartWith(
            Tag::Path,
            &[
                Attribute {
                    name: AttributeName::Class,
                    value: "total",
                },
                Attribute {
                    name: AttributeName::D,
                    value: "M50 300H3250",
                },
            ],
        ),
        Piece::End(Tag::Path),
    ])
}

// Adds the curve.
fn put_curve(page: &mut PageText, points: &str) -> Result<(), NoMemory>
    ensures { OnOk result (page.new ≡ page.old ++ content_text (curve_tree points.now)) }
{
    page.put(&[
        Piece::StartWith(
            Tag::Polyline,
            &[Attribute {
                name: AttributeName::Points,
                value: points,
            }],
        ),
        Piece::End(Tag::Polyline),
    ])
}

// Adds a label: two texts at a place.
fn put_label<'a>(
    page: &mut PageText,
    x: &'a str,
    y: &'a str,
    anchor: &'a str,
    one: &'a str,
    two: &'a str,
) -> Result<(), NoMemory>
    ensures { OnOk result (page.new ≡ page.old ++ content_text (label_tree x.now y.now anchor.now one.now two.now)) }
{
    page.put(&[
        Piece::StartWith(
            Tag::Text,
            &[
                Attribute {
                    name: AttributeName::X,
                    value: x,
                },
                Attribute {
                    name: AttributeName::Y,
                    value: y,
                },
                Attribute {
                    name: AttributeName::TextAnchor,
                    value: anchor,
                },
            ],
        ),
        Piece::Text(one),
        Piece::Text(two),
        Piece::End(Tag::Text),
    ])
}

// Adds the label of the line of the total.
fn put_total(page: &mut PageText, total: u64) -> Result<(), NoMemory>
    ensures { OnOk result (page.new ≡ page.old ++ content_text (total_label total)) }
{
    let mut digits = Buffer::new();
    put_label(page, "3250", "200", "end", "all: ", digits.format(total))
}

// Adds the label of all tests.
fn put_tests(page: &mut PageText, tests: u64) -> Result<(), NoMemory>
    ensures { OnOk result (page.new ≡ page.old ++ content_text (tests_label tests)) }
{
    let mut digits = Buffer::new();
    let words = words_for(tests, " test", " tests");
    put_label(page, "3250", "2100", "end", digits.format(tests), words)
}

// Adds the labels of the axes and of the line of the total.
fn put_labels(page: &mut PageText, picture: &Picture<'_>) -> Result<(), NoMemory>
    ensures { OnOk result (page.new ≡ page.old ++ content_text (labels (picture_seen picture.now))) }
{
    put_label(page, "50", "200", "start", "covered combinations", "")?;
    put_total(page, picture.total)?;
    put_label(page, "50", "2100", "start", "0", "")?;
    put_tests(page, picture.tests)?;
    Ok(())
}

// Adds what the image has in it.
fn put_drawing(page: &mut PageText, picture: &Picture<'_>, points: &str) -> Result<(), NoMemory>
    requires { points.now ≡ points_text (picture_seen picture.now) }
    ensures { OnOk result (page.new ≡ page.old ++ content_text (drawing (picture_seen picture.now))) }
{
    put_description(page, picture)?;
    put_axes(page)?;
    put_curve(page, points)?;
    put_labels(page, picture)?;
    Ok(())
}

/// The picture: covered combinations by number of tests, with a title and a description for those who don't see it.
///
/// # Errors
///
/// `NoMemory` where the text could not grow.
pub fn put_picture(
    alloc: Global,
    page: &mut PageText,
    picture: &Picture<'_>,
) -> Result<(), NoMemory>
    ensures { OnOk result (page.new ≡ page.old ++ content_text (picture_tree (picture_seen picture.now))) }
{
    let points = points_text(alloc, picture)?;
    put_section(page, "Coverage")?;
    page.put(&[
        Piece::Start(Tag::Figure),
        Piece::StartWith(
            Tag::Svg,
            &[
                Attribute {
                    name: AttributeName::ViewBox,
                    value: "0 0 3300 2150",
                },
                Attribute {
                    name: AttributeName::Role,
                    value: "img",
                },
                Attribute {
                    name: AttributeName::AriaLabelledBy,
                    value: "picture-title picture-text",
                },
            ],
        ),
    ])?;
    put_drawing(page, picture, points.as_str())?;
    page.put(&[
        Piece::End(Tag::Svg),
        Piece::Start(Tag::Figcaption),
        Piece::Text(caption(picture.is_known)),
        Piece::End(Tag::Figcaption),
        Piece::End(Tag::Figure),
        Piece::End(Tag::Section),
    ])?;
    Ok(())
}
