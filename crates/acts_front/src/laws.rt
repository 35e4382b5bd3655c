ghost use Rattle.acts_front.specs.SameModels.{TranslationsSayTheSame};

/// Each model file that a translation writes says what the file in the form of ACTS says. Read with the default marks,
/// the same case flag and any order word, it spells a model without notes, with the same parameters, values and
/// relations and with constraints that hold on the same rows; or it is refused, by a limit or since the order is above
/// the number of parameters.
pub fn translations_say_the_same()
    ensures { TranslationsSayTheSame }
{}
