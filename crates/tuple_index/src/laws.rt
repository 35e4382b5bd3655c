ghost use Rattle.tuple_index.specs.Laws.{RanksAreInverse};

/// Ranks and tuples are inverse: two choices of values of a demanded set have the same rank exactly if
/// they are the same. So `unrank` gives back the values whose rank `rank` told, and `rank` tells the
/// rank whose values `unrank` gave (this project's rule).
pub fn ranks_are_inverse()
    ensures { RanksAreInverse }
{}
