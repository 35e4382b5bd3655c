//! Suites as pages: whole runs of `show -f html`.

use crate::case::{Case, MODEL, PROOF, TABLE, ends_with};
use html_page::STYLE;
use memory_io::MemSink;
use std::alloc::Global;
use std::thread::Threads;
use value_text::NoMemory;

// A run that writes a page: the page's title, and what stands in its main part.
#[derive(Clone, Copy)]
struct Page<'a> {
    words: &'a [&'a str],
    files: &'a [(&'a str, &'a str)],
    status: u8,
    title: &'a str,
    main: &'a str,
}

const HEAD: &str =
    "<!doctype html><html lang=\"en\"><head><meta charset=\"utf-8\"><meta name=\"viewport\" \
content=\"width=device-width, initial-scale=1\"><title>Test suite of ";

// An accepted suite, in which a constraint leaves a combination out.
const ACCEPTED: Page<'static> = Page {
    words: &["show", "m", "t", "p", "-f", "html"],
    files: &[("m", MODEL), ("t", TABLE), ("p", PROOF)],
    status: 0,
    title: "m",
    main: "<header><h1>m</h1><p class=\"verdict accepted\"><strong>accepted: 3 rows, 1 omissions\n</strong> </p></header>\
<section><h2>Numbers</h2>\
<p>3 tests of 2 parameters. 3 of 4 combinations of 1 set are covered; 1 are left out with a proof.\n</p>\
<p>Rows: every suite needs at least 3 tests, one for each possible combination of A, B.\n</p></section>\
<section><h2>Coverage</h2><figure><svg viewbox=\"0 0 3300 2150\" role=\"img\" \
aria-labelledby=\"picture-title picture-text\"><title id=\"picture-title\">Covered combinations by number of tests</title>\
<desc id=\"picture-text\">3 tests cover 3 of 3 combinations that can be covered.</desc>\
<path class=\"axis\" d=\"M50 300V1900H3250\"></path><path class=\"total\" d=\"M50 300H3250\"></path>\
<polyline points=\" 50,1900 1116,1367 2182,834 3250,300\"></polyline>\
<text x=\"50\" y=\"200\" text-anchor=\"start\">covered combinations</text>\
<text x=\"3250\" y=\"200\" text-anchor=\"end\">all: 3</text>\
<text x=\"50\" y=\"2100\" text-anchor=\"start\">0</text>\
<text x=\"3250\" y=\"2100\" text-anchor=\"end\">3 tests</text></svg>\
<figcaption>The curve shows what the first tests cover, the dashed line all that can be covered.</figcaption></figure></section>\
<section><h2>Tests</h2><div class=\"scroll\" tabindex=\"0\" role=\"region\" aria-label=\"Tests\"><table>\
<caption>The tests, one in each row</caption><thead><tr><th scope=\"col\">Test</th><th scope=\"col\">A</th>\
<th scope=\"col\">B</th></tr></thead><tbody>\
<tr><th scope=\"row\">1</th><td>1</td><td>x</td></tr>\
<tr><th scope=\"row\">2</th><td>2</td><td>x</td></tr>\
<tr><th scope=\"row\">3</th><td>2</td><td>y</td></tr></tbody></table></div></section>\
<section><h2>Left out</h2><details open=\"\"><summary>Combinations left out: 1</summary>\
<ul class=\"constraints\"><li>line 3: IF [A] = 1 THEN [B] = &quot;x&quot;;</li></ul>\
<ul><li>A = 1, B = y</li></ul></details></section>",
};

// The same tests without a proof: what no test covers counts as not covered.
const UNPROVED: Page<'static> = Page {
    words: &["show", "m", "t", "--format", "html"],
    files: &[("m", MODEL), ("t", TABLE)],
    status: 1,
    title: "m",
    main: "<header><h1>m</h1><p class=\"verdict refused\"><strong>refused: no test covers A = 1, B = y\n</strong> \
No proof was given.\n</p></header>\
<section><h2>Numbers</h2>\
<p>3 tests of 2 parameters. 3 of 4 combinations of 1 set are covered; 1 are not covered.\n</p></section>\
<section><h2>Coverage</h2><figure><svg viewbox=\"0 0 3300 2150\" role=\"img\" \
aria-labelledby=\"picture-title picture-text\"><title id=\"picture-title\">Covered combinations by number of tests</title>\
<desc id=\"picture-text\">3 tests cover 3 of 4 demanded combinations.</desc>\
<path class=\"axis\" d=\"M50 300V1900H3250\"></path><path class=\"total\" d=\"M50 300H3250\"></path>\
<polyline points=\" 50,1900 1116,1500 2182,1100 3250,700\"></polyline>\
<text x=\"50\" y=\"200\" text-anchor=\"start\">covered combinations</text>\
<text x=\"3250\" y=\"200\" text-anchor=\"end\">all: 4</text>\
<text x=\"50\" y=\"2100\" text-anchor=\"start\">0</text>\
<text x=\"3250\" y=\"2100\" text-anchor=\"end\">3 tests</text></svg>\
<figcaption>The curve shows what the first tests cover, the dashed line all that is demanded.</figcaption></figure></section>\
<section><h2>Tests</h2><div class=\"scroll\" tabindex=\"0\" role=\"region\" aria-label=\"Tests\"><table>\
<caption>The tests, one in each row</caption><thead><tr><th scope=\"col\">Test</th><th scope=\"col\">A</th>\
<th scope=\"col\">B</th></tr></thead><tbody>\
<tr><th scope=\"row\">1</th><td>1</td><td>x</td></tr>\
<tr><th scope=\"row\">2</th><td>2</td><td>x</td></tr>\
<tr><th scope=\"row\">3</th><td>2</td><td>y</td></tr></tbody></table></div></section>",
};

// A test that isn't valid: it covers nothing, and nothing is said to be left out.
const INVALID: Page<'static> = Page {
    words: &["show", "m", "t", "p", "-f", "html"],
    files: &[("m", MODEL), ("t", "A\tB\n2\tx\n1\ty\n"), ("p", PROOF)],
    status: 1,
    title: "m",
    main: "<header><h1>m</h1><p class=\"verdict refused\"><strong>refused: table line 3: not a valid row\n</strong> </p></header>\
<section><h2>Numbers</h2>\
<p>2 tests of 2 parameters. 1 of 4 combinations of 1 set are covered; 3 are not covered.\n</p></section>\
<section><h2>Coverage</h2><figure><svg viewbox=\"0 0 3300 2150\" role=\"img\" \
aria-labelledby=\"picture-title picture-text\"><title id=\"picture-title\">Covered combinations by number of tests</title>\
<desc id=\"picture-text\">2 tests cover 1 of 4 demanded combinations.</desc>\
<path class=\"axis\" d=\"M50 300V1900H3250\"></path><path class=\"total\" d=\"M50 300H3250\"></path>\
<polyline points=\" 50,1900 1650,1500 3250,1500\"></polyline>\
<text x=\"50\" y=\"200\" text-anchor=\"start\">covered combinations</text>\
<text x=\"3250\" y=\"200\" text-anchor=\"end\">all: 4</text>\
<text x=\"50\" y=\"2100\" text-anchor=\"start\">0</text>\
<text x=\"3250\" y=\"2100\" text-anchor=\"end\">2 tests</text></svg>\
<figcaption>The curve shows what the first tests cover, the dashed line all that is demanded.</figcaption></figure></section>\
<section><h2>Tests</h2><div class=\"scroll\" tabindex=\"0\" role=\"region\" aria-label=\"Tests\"><table>\
<caption>The tests, one in each row</caption><thead><tr><th scope=\"col\">Test</th><th scope=\"col\">A</th>\
<th scope=\"col\">B</th></tr></thead><tbody>\
<tr><th scope=\"row\">1</th><td>2</td><td>x</td></tr>\
<tr><th scope=\"row\">2</th><td>1</td><td>y</td></tr></tbody></table></div></section>",
};

// No tests.
const EMPTY: Page<'static> = Page {
    words: &["show", "m", "t", "-f", "html"],
    files: &[("m", "A: 1, 2\nB: x, y\n"), ("t", "A\tB\n")],
    status: 1,
    title: "m",
    main: "<header><h1>m</h1><p class=\"verdict refused\"><strong>refused: no test covers A = 1, B = x\n</strong> \
No proof was given.\n</p></header>\
<section><h2>Numbers</h2>\
<p>0 tests of 2 parameters. 0 of 4 combinations of 1 set are covered; 4 are not covered.\n</p></section>\
<section><h2>Coverage</h2><figure><svg viewbox=\"0 0 3300 2150\" role=\"img\" \
aria-labelledby=\"picture-title picture-text\"><title id=\"picture-title\">Covered combinations by number of tests</title>\
<desc id=\"picture-text\">0 tests cover 0 of 4 demanded combinations.</desc>\
<path class=\"axis\" d=\"M50 300V1900H3250\"></path><path class=\"total\" d=\"M50 300H3250\"></path>\
<polyline points=\" 50,1900\"></polyline>\
<text x=\"50\" y=\"200\" text-anchor=\"start\">covered combinations</text>\
<text x=\"3250\" y=\"200\" text-anchor=\"end\">all: 4</text>\
<text x=\"50\" y=\"2100\" text-anchor=\"start\">0</text>\
<text x=\"3250\" y=\"2100\" text-anchor=\"end\">0 tests</text></svg>\
<figcaption>The curve shows what the first tests cover, the dashed line all that is demanded.</figcaption></figure></section>\
<section><h2>Tests</h2><div class=\"scroll\" tabindex=\"0\" role=\"region\" aria-label=\"Tests\"><table>\
<caption>The tests, one in each row</caption><thead><tr><th scope=\"col\">Test</th><th scope=\"col\">A</th>\
<th scope=\"col\">B</th></tr></thead><tbody></tbody></table></div></section>",
};

// Names that would be markup: of the model file, of a parameter and of a value.
const MARKUP: Page<'static> = Page {
    words: &["show", "</title>\"&", "t", "-f", "html"],
    files: &[
        (
            "</title>\"&",
            "</table><script>: </table><script>0, b\nB: x\n",
        ),
        ("t", "</table><script>\tB\n</table><script>0\tx\nb\tx\n"),
    ],
    status: 0,
    title: "&lt;/title&gt;&quot;&amp;",
    main: "<header><h1>&lt;/title&gt;&quot;&amp;</h1>\
<p class=\"verdict accepted\"><strong>accepted: 2 rows, 0 omissions\n</strong> </p></header>\
<section><h2>Numbers</h2>\
<p>2 tests of 2 parameters. 2 of 2 combinations of 1 set are covered; 0 are left out with a proof.\n</p>\
<p>Rows: every suite needs at least 2 tests, one for each possible combination of &lt;/table&gt;&lt;script&gt;, B.\n</p></section>\
<section><h2>Coverage</h2><figure><svg viewbox=\"0 0 3300 2150\" role=\"img\" \
aria-labelledby=\"picture-title picture-text\"><title id=\"picture-title\">Covered combinations by number of tests</title>\
<desc id=\"picture-text\">2 tests cover 2 of 2 combinations that can be covered.</desc>\
<path class=\"axis\" d=\"M50 300V1900H3250\"></path><path class=\"total\" d=\"M50 300H3250\"></path>\
<polyline points=\" 50,1900 1650,1100 3250,300\"></polyline>\
<text x=\"50\" y=\"200\" text-anchor=\"start\">covered combinations</text>\
<text x=\"3250\" y=\"200\" text-anchor=\"end\">all: 2</text>\
<text x=\"50\" y=\"2100\" text-anchor=\"start\">0</text>\
<text x=\"3250\" y=\"2100\" text-anchor=\"end\">2 tests</text></svg>\
<figcaption>The curve shows what the first tests cover, the dashed line all that can be covered.</figcaption></figure></section>\
<section><h2>Tests</h2><div class=\"scroll\" tabindex=\"0\" role=\"region\" aria-label=\"Tests\"><table>\
<caption>The tests, one in each row</caption><thead><tr><th scope=\"col\">Test</th>\
<th scope=\"col\">&lt;/table&gt;&lt;script&gt;</th><th scope=\"col\">B</th></tr></thead><tbody>\
<tr><th scope=\"row\">1</th><td>&lt;/table&gt;&lt;script&gt;0</td><td>x</td></tr>\
<tr><th scope=\"row\">2</th><td>b</td><td>x</td></tr></tbody></table></div></section>",
};

// Whether bytes are these texts in a row.
fn are_texts(bytes: &[u8], texts: &[&str]) -> bool {
    let mut rest = bytes;
    for text in texts {
        match rest.strip_prefix(text.as_bytes()) {
            Some(behind) => rest = behind,
            None => return false,
        }
    }
    rest.is_empty()
}

// Whether a run writes its page, tells nothing and ends with its status.
fn writes<R: Threads + Sync>(rt: &R, alloc: Global, page: &Page<'_>) -> Result<bool, NoMemory> {
    let case = Case {
        words: page.words,
        files: page.files,
        status: page.status,
        out: "",
        told: "",
        left: page.files,
    };
    let mut out = MemSink::up_to(alloc, 1 << 14)?;
    let ended = ends_with(rt, alloc, &case, &mut out)?;
    let texts = [
        HEAD,
        page.title,
        "</title><style>",
        STYLE,
        "</style></head><body><main>",
        page.main,
        "</main></body></html>",
    ];
    Ok(ended && are_texts(out.bytes(), &texts))
}

#[test]
fn shows_a_page(rt: HostRuntime) {
    let pages = [ACCEPTED, UNPROVED, INVALID, EMPTY, MARKUP];
    for (number, page) in pages.iter().enumerate() {
        assert!(rt; writes(&rt, rt.alloc(), page) == Ok(true), "page {number}");
    }
}
