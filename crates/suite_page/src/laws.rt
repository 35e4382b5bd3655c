ghost use Rattle.suite_page.specs.Laws.{PagesAreWhole};

/// The parts of a page in a row are the text of its tree.
pub fn pages_are_whole()
    ensures { PagesAreWhole }
{}
