ghost use Rattle.jeldroft_suspect.specs.Laws.{CombinationsAreToldInOrder};

/// All combinations are told, each once: those that more failing tests have before others, and of those that as many have
/// the one that was found first.
pub fn combinations_are_told_in_order()
    ensures { CombinationsAreToldInOrder }
{}
