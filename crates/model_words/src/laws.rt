ghost use Rattle.model_words.specs.Laws.{TextsAreOfTheFile};

/// The texts of the constraints of a model are those of the trees that its model file spells, in order, with each name of
/// a parameter as the parameter's declaration spells it.
pub fn texts_are_of_the_file()
    ensures { TextsAreOfTheFile }
{}
