ghost use Rattle.std.specs.Prelude.{◌≡◌};
ghost use Rattle.html_page.specs.believed.Names.{tag_name};

/// The elements that a page may have and that are written with an end tag (HTML; the last ones, from `Svg` on, SVG).
#[derive(Debug, Clone, Copy, PartialEq, Eq)]
pub enum Tag {
    Html,
    Head,
    Body,
    Header,
    Main,
    Section,
    Div,
    H1,
    H2,
    P,
    Strong,
    Span,
    Ul,
    Li,
    Table,
    Caption,
    Thead,
    Tbody,
    Tr,
    Th,
    Td,
    Details,
    Summary,
    Figure,
    Figcaption,
    Svg,
    Desc,
    Path,
    Polyline,
    Text,
}

impl Tag {
    /// The name in its tags, in lower case.
    pub fn name(self) -> &'static str
        ensures { result.now ≡ tag_name self }
    {
        match self {
            Tag::Html => "html",
            Tag::Head => "head",
            Tag::Body => "body",
            Tag::Header => "header",
            Tag::Main => "main",
            Tag::Section => "section",
            Tag::Div => "div",
            Tag::H1 => "h1",
            Tag::H2 => "h2",
            Tag::P => "p",
            Tag::Strong => "strong",
            Tag::Span => "span",
            Tag::Ul => "ul",
            Tag::Li => "li",
            Tag::Table => "table",
            Tag::Caption => "caption",
            Tag::Thead => "thead",
            Tag::Tbody => "tbody",
            Tag::Tr => "tr",
            Tag::Th => "th",
            Tag::Td => "td",
            Tag::Details => "details",
            Tag::Summary => "summary",
            Tag::Figure => "figure",
            Tag::Figcaption => "figcaption",
            Tag::Svg => "svg",
            Tag::Desc => "desc",
            Tag::Path => "path",
            Tag::Polyline => "polyline",
            Tag::Text => "text",
        }
    }
}
