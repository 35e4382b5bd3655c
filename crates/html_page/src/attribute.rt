ghost use Rattle.std.specs.Prelude.{◌≡◌};
ghost use Rattle.html_page.specs.believed.Names.{attribute_name};

/// The attributes that an element may have (HTML, WAI-ARIA; from `ViewBox` on SVG).
#[derive(Debug, Clone, Copy, PartialEq, Eq)]
pub enum AttributeName {
    Lang,
    Charset,
    Name,
    Content,
    Class,
    Id,
    Role,
    Scope,
    TabIndex,
    Open,
    AriaLabel,
    AriaLabelledBy,
    /// `viewbox`: HTML reads the names of attributes in lower case, and makes `viewBox` of it in SVG.
    ViewBox,
    X,
    Y,
    Points,
    D,
    TextAnchor,
}

impl AttributeName {
    /// The name, in lower case.
    pub fn text(self) -> &'static str
        ensures { result.now ≡ attribute_name self }
    {
        match self {
            AttributeName::Lang => "lang",
            AttributeName::Charset => "charset",
            AttributeName::Name => "name",
            AttributeName::Content => "content",
            AttributeName::Class => "class",
            AttributeName::Id => "id",
            AttributeName::Role => "role",
            AttributeName::Scope => "scope",
            AttributeName::TabIndex => "tabindex",
            AttributeName::Open => "open",
            AttributeName::AriaLabel => "aria-label",
            AttributeName::AriaLabelledBy => "aria-labelledby",
            AttributeName::ViewBox => "viewbox",
            AttributeName::X => "x",
            AttributeName::Y => "y",
            AttributeName::Points => "points",
            AttributeName::D => "d",
            AttributeName::TextAnchor => "text-anchor",
        }
    }
}

/// An attribute of an element: a name and any text.
#[derive(Clone, Copy)]
pub struct Attribute<'a> {
    pub name: AttributeName,
    pub value: &'a str,
}
