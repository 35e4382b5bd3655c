//! What is proved of a table and of places, whatever calls there are. A function here does nothing: its contract is
//! a law, which is proved with the crate.

ghost use Rattle.std.specs.Prelude.{◌≡◌, ◌≢◌, ◌++◌, ◌∷◌, ◌<◌, [], ℕ, List, Some, replicate, slice_get, slice_set};
ghost use Rattle.shared_marks.specs.declared.holding.Holding.{Holding};
ghost use Rattle.shared_marks.specs.Facts.{IsKept};
ghost use Rattle.shared_marks.specs.Seats.{first_holding, halved, joined, other_half, spent};
ghost use Rattle.shared_marks.specs.Served.{PlacesAreRanks};

/// The three facts of a table hold at its beginning, and stay where a seat with a share is split, or takes in another
/// seat: a bit is set exactly where some seat marked its place, it is set where some seat saw it so, and the shares add
/// up to 1. That `mark` and `is_marked` keep them is a clause of these calls (this project's rule).
pub fn facts_are_kept()
    ensures new { (count : ℕ) → IsKept count (replicate count 0) (first_holding ∷ []) }
    ensures split { (count number : ℕ) (words : List ℕ) (seats : List Holding) (held : Holding) → IsKept count words seats
        → slice_get seats number ≡ Some held → 0 < held.parts
        → IsKept count words (slice_set seats number (halved held) ++ other_half held ∷ []) }
    ensures join { (count number from : ℕ) (words : List ℕ) (seats : List Holding) (held other : Holding) → IsKept count words seats
        → slice_get seats number ≡ Some held → 0 < held.parts → from ≢ number → slice_get seats from ≡ Some other
        → IsKept count words (slice_set (slice_set seats number (joined held other)) from spent) }
{}

/// The place of a demanded tuple among all of them is the base of its set plus its rank (this project's
/// rule).
pub fn places_are_ranks()
    ensures { PlacesAreRanks }
{}
