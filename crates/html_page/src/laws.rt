ghost use Rattle.html_page.specs.Laws.{PagesReadBack};

/// Read by HTML's tokenisation, the text of a page gives the tags, attributes and texts of its tree, in order, and
/// nothing else. So no text and no value of an attribute is ever markup.
pub fn pages_read_back()
    ensures { PagesReadBack }
{}
