//! Texts and values of attributes that look like markup.

use html_page::{Attribute, AttributeName, PageText, Piece, Tag};
use std::test::Fail;
use value_text::NoMemory;

// A text, and how it stands in a page, as a text and as the value of an attribute.
const TEXTS: &[(&str, &str)] = &[
    ("", ""),
    (
        "</table><script>alert(1)</script>",
        "&lt;/table&gt;&lt;script&gt;alert(1)&lt;/script&gt;",
    ),
    ("\"&<>'", "&quot;&amp;&lt;&gt;'"),
    ("&amp;", "&amp;amp;"),
    (
        " !\"#$%&'()*+,-./0123456789:;<=>?@ABCDEFGHIJKLMNOPQRSTUVWXYZ[\\]^_`abcdefghijklmnopqrstuvwxyz{|}~",
        " !&quot;#$%&amp;'()*+,-./0123456789:;&lt;=&gt;?@ABCDEFGHIJKLMNOPQRSTUVWXYZ[\\]^_`abcdefghijklmnopqrstuvwxyz{|}~",
    ),
    ("Größe 中 😀", "Größe 中 😀"),
    ("a\rb\0c\nd\te", "a&#13;b\u{fffd}c\nd\te"),
];

// Begins a paragraph with a class of that name.
fn put_start(page: &mut PageText, text: &str) -> Result<(), NoMemory> {
    page.put(&[Piece::StartWith(
        Tag::P,
        &[Attribute {
            name: AttributeName::Class,
            value: text,
        }],
    )])
}

// Adds its text, and ends it.
fn put_rest(page: &mut PageText, text: &str) -> Result<(), NoMemory> {
    page.put(&[Piece::Text(text), Piece::End(Tag::P)])
}

// The bytes that stand behind a beginning.
fn behind<'a>(bytes: &'a [u8], beginning: &str) -> Option<&'a [u8]> {
    bytes.strip_prefix(beginning.as_bytes())
}

// Whether bytes are this text twice within tags of a paragraph.
fn is_paragraph(bytes: &[u8], text: &str) -> bool {
    let Some(rest) = behind(bytes, "<p class=\"") else {
        return false;
    };
    let Some(rest) = behind(rest, text) else {
        return false;
    };
    let Some(rest) = behind(rest, "\">") else {
        return false;
    };
    let Some(rest) = behind(rest, text) else {
        return false;
    };
    rest == "</p>".as_bytes()
}

#[test]
fn no_text_is_markup(rt: HostRuntime) -> Result<(), Fail> {
    let mut page = PageText::new(rt.alloc());
    for (text, escaped) in TEXTS {
        page.clear();
        put_start(&mut page, text)?;
        put_rest(&mut page, text)?;
        assert!(rt; is_paragraph(page.as_bytes(), escaped), "{text}");
    }
    Ok(())
}

#[test]
fn elements_without_a_text_are_written(rt: HostRuntime) -> Result<(), Fail> {
    let mut page = PageText::new(rt.alloc());
    page.put(&[Piece::Doctype])?;
    page.put(&[Piece::Title("a < b")])?;
    page.put(&[Piece::TitleWithId("t", "c")])?;
    page.put(&[Piece::Meta(&[Attribute {
        name: AttributeName::Charset,
        value: "utf-8",
    }])])?;
    let expected =
        "<!doctype html><title>a &lt; b</title><title id=\"t\">c</title><meta charset=\"utf-8\">";
    assert!(rt; page.as_bytes() == expected.as_bytes());
    Ok(())
}
