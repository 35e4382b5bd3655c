//! Whole pages of suites.

use html_page::{PageText, STYLE};
use std::alloc::Global;
use std::test::Fail;
use suite_page::{
    Cell, Omission, Picture, Point, put_cell, put_closing, put_left_out, put_numbers, put_opening,
    put_picture, put_test_closing, put_test_opening, put_tests_closing, put_tests_opening,
    put_verdict,
};
use value_text::NoMemory;

const HEAD: &str =
    "<!doctype html><html lang=\"en\"><head><meta charset=\"utf-8\"><meta name=\"viewport\" \
content=\"width=device-width, initial-scale=1\"><title>Test suite of a&amp;b.txt</title><style>";

const BODY: &str =
    "</style></head><body><main><header><h1>a&amp;b.txt</h1><p class=\"verdict refused\">\
<strong>refused</strong> No test is given.</p></header><section><h2>Numbers</h2><p>0 tests.</p></section>\
<section><h2>Coverage</h2><figure><svg viewbox=\"0 0 3300 2150\" role=\"img\" \
aria-labelledby=\"picture-title picture-text\"><title id=\"picture-title\">Covered combinations by number of tests</title>\
<desc id=\"picture-text\">0 tests cover 0 of 1 demanded combination.</desc>\
<path class=\"axis\" d=\"M50 300V1900H3250\"></path><path class=\"total\" d=\"M50 300H3250\"></path>\
<polyline points=\"\"></polyline>\
<text x=\"50\" y=\"200\" text-anchor=\"start\">covered combinations</text>\
<text x=\"3250\" y=\"200\" text-anchor=\"end\">all: 1</text>\
<text x=\"50\" y=\"2100\" text-anchor=\"start\">0</text>\
<text x=\"3250\" y=\"2100\" text-anchor=\"end\">0 tests</text></svg>\
<figcaption>The curve shows what the first tests cover, the dashed line all that is demanded.</figcaption></figure></section>\
<section><h2>Tests</h2><div class=\"scroll\" tabindex=\"0\" role=\"region\" aria-label=\"Tests\"><table>\
<caption>The tests, one in each row</caption><thead><tr><th scope=\"col\">Test</th><th scope=\"col\">Colour</th>\
</tr></thead><tbody></tbody></table></div></section></main></body></html>";

// The page of a suite without tests.
fn put_empty(alloc: Global, page: &mut PageText) -> Result<(), NoMemory> {
    put_opening(alloc, page, "a&b.txt")?;
    put_verdict(page, "a&b.txt", false, b"refused", b"No test is given.")?;
    put_numbers(page, &[b"0 tests.", b""])?;
    let picture = Picture {
        points: &[],
        tests: 0,
        covered: 0,
        total: 1,
        is_known: false,
    };
    put_picture(alloc, page, &picture)?;
    put_tests_opening(page, &["Colour"])?;
    put_tests_closing(page, 0)?;
    put_closing(page)
}

// Whether bytes are these texts in a row.
fn are_texts(bytes: &[u8], texts: &[&str]) -> bool {
    let mut rest = bytes;
    for text in texts {
        match rest.strip_prefix(text.as_bytes()) {
            Some(behind) => rest = behind,
            None => return false,
        }
    }
    rest.is_empty()
}

#[test]
fn a_suite_without_tests_has_a_page(rt: HostRuntime) -> Result<(), Fail> {
    let mut page = PageText::new(rt.alloc());
    put_empty(rt.alloc(), &mut page)?;
    assert!(rt; are_texts(page.as_bytes(), &[HEAD, STYLE, BODY]));
    Ok(())
}

const ROW: &str =
    "<tr><th scope=\"row\">12</th><td>&lt;b&gt;</td><td class=\"invalid\"><span class=\"mark\">invalid</span> 99</td>\
<td></td></tr>";

// A test with an invalid value, and without one of its values.
fn put_row(page: &mut PageText) -> Result<(), NoMemory> {
    put_test_opening(page, 12)?;
    for (text, is_invalid) in [("<b>", false), ("99", true), ("", false)] {
        put_cell(page, &Cell { text, is_invalid })?;
    }
    put_test_closing(page)
}

#[test]
fn an_invalid_value_is_marked_by_a_word(rt: HostRuntime) -> Result<(), Fail> {
    let mut page = PageText::new(rt.alloc());
    put_row(&mut page)?;
    assert!(rt; are_texts(page.as_bytes(), &[ROW]));
    Ok(())
}

const CURVE: &str = "<section><h2>Coverage</h2><figure><svg viewbox=\"0 0 3300 2150\" role=\"img\" \
aria-labelledby=\"picture-title picture-text\"><title id=\"picture-title\">Covered combinations by number of tests</title>\
<desc id=\"picture-text\">4 tests cover 12 of 12 combinations that can be covered.</desc>\
<path class=\"axis\" d=\"M50 300V1900H3250\"></path><path class=\"total\" d=\"M50 300H3250\"></path>\
<polyline points=\" 50,1900 850,1234 3250,300\"></polyline>\
<text x=\"50\" y=\"200\" text-anchor=\"start\">covered combinations</text>\
<text x=\"3250\" y=\"200\" text-anchor=\"end\">all: 12</text>\
<text x=\"50\" y=\"2100\" text-anchor=\"start\">0</text>\
<text x=\"3250\" y=\"2100\" text-anchor=\"end\">4 tests</text></svg>\
<figcaption>The curve shows what the first tests cover, the dashed line all that can be covered.</figcaption></figure></section>";

// A picture of four tests: the first covers 5 of 12 combinations, and all four cover all.
fn put_curve(alloc: Global, page: &mut PageText) -> Result<(), NoMemory> {
    let points = [
        Point {
            tests: 0,
            covered: 0,
        },
        Point {
            tests: 1,
            covered: 5,
        },
        Point {
            tests: 4,
            covered: 12,
        },
    ];
    let picture = Picture {
        points: &points,
        tests: 4,
        covered: 12,
        total: 12,
        is_known: true,
    };
    put_picture(alloc, page, &picture)
}

#[test]
fn the_curve_goes_through_its_points(rt: HostRuntime) -> Result<(), Fail> {
    let mut page = PageText::new(rt.alloc());
    put_curve(rt.alloc(), &mut page)?;
    assert!(rt; are_texts(page.as_bytes(), &[CURVE]));
    Ok(())
}

// What leaves combinations out: the combination, the numbers of the causes, and their texts.
const OMITTED: &[(&str, &[u32], &[&str])] = &[
    ("A = 1, B = 2", &[3], &["line 7: IF [A] = 1 THEN [B] <> 2;"]),
    ("C = ~1, D = ~2", &[0], &["one invalid value at most"]),
    (
        "A = 1, B = 2, E = 5",
        &[3],
        &["line 7: IF [A] = 1 THEN [B] <> 2;"],
    ),
    (
        "C = ~1, B = 2",
        &[0, 3],
        &[
            "one invalid value at most",
            "line 7: IF [A] = 1 THEN [B] <> 2;",
        ],
    ),
];

const GROUPS: &str =
    "<section><h2>Left out</h2><details open=\"\"><summary>Combinations left out: 2</summary>\
<ul class=\"constraints\"><li>line 7: IF [A] = 1 THEN [B] &lt;&gt; 2;</li></ul>\
<ul><li>A = 1, B = 2</li><li>A = 1, B = 2, E = 5</li></ul></details>\
<details open=\"\"><summary>Combinations left out: 1</summary>\
<ul class=\"constraints\"><li>one invalid value at most</li></ul><ul><li>C = ~1, D = ~2</li></ul></details>\
<details open=\"\"><summary>Combinations left out: 1</summary>\
<ul class=\"constraints\"><li>one invalid value at most</li><li>line 7: IF [A] = 1 THEN [B] &lt;&gt; 2;</li></ul>\
<ul><li>C = ~1, B = 2</li></ul></details><p>And 1 more combination.</p></section>";

// The bytes of a text.
fn bytes_of(alloc: Global, text: &str) -> Result<Vec<u8>, NoMemory> {
    let mut bytes = Vec::new(alloc);
    bytes.extend_from_slice(text.as_bytes())?;
    Ok(bytes)
}

// A combination that is left out.
fn omission(
    alloc: Global,
    combination: &str,
    causes: &[u32],
    reasons: &[&str],
) -> Result<Omission, NoMemory> {
    let mut numbers = Vec::new(alloc);
    numbers.extend_from_slice(causes)?;
    let mut texts = Vec::new(alloc);
    for reason in reasons {
        texts.push(bytes_of(alloc, reason)?)?;
    }
    Ok(Omission {
        combination: bytes_of(alloc, combination)?,
        causes: numbers,
        reasons: texts,
    })
}

// The section of these, and of one more that isn't shown.
fn put_omitted(alloc: Global, page: &mut PageText) -> Result<(), NoMemory> {
    let mut omissions = Vec::new(alloc);
    for (combination, causes, reasons) in OMITTED {
        omissions.push(omission(alloc, combination, causes, reasons)?)?;
    }
    put_left_out(page, omissions.as_slice(), 1)
}

#[test]
fn combinations_stand_in_groups_by_what_leaves_them_out(rt: HostRuntime) -> Result<(), Fail> {
    let mut page = PageText::new(rt.alloc());
    put_omitted(rt.alloc(), &mut page)?;
    assert!(rt; are_texts(page.as_bytes(), &[GROUPS]));
    Ok(())
}
