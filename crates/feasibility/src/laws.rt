ghost use Rattle.feasibility.specs.Laws.{PlainSearchIsExact};

/// Plain search succeeds on a partial row of a slice exactly if it is extendable there, and then it
/// has a first completion, whatever the preferences (this project's rule).
pub fn plain_search_is_exact()
    ensures { PlainSearchIsExact }
{}
