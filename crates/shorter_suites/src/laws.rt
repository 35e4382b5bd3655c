//! What is proved of shorter suites. A function here does nothing: its contract is a law that holds of every
//! model, and is proved with the crate.

ghost use Rattle.shorter_suites.specs.Laws.{AcceptedStay, NoneIsShorter};

/// A proof that is accepted with a report is accepted with each one of valid rows that serve what the rows of the
/// first serve, on lines of any numbers (this project's rule).
pub fn accepted_stay()
    ensures { AcceptedStay }
{}

/// No valid rows that serve what given rows serve are fewer than the sum, over the slices, of the greatest number of
/// tuples of one demanded set that the given rows serve there: within a set and a slice a row serves one tuple
/// (this project's rule).
pub fn none_is_shorter()
    ensures { NoneIsShorter }
{}
