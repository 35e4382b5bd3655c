ghost use Rattle.type_check.specs.Laws.{FilesHaveOneAnswer, ModelsAreSound};

/// Each file has exactly one answer, whatever its bytes and their number: it spells one model, with
/// one list of notes, or it is refused in one way, and never for want of memory.
pub fn files_have_one_answer()
    ensures { FilesHaveOneAnswer }
{}

/// The model that a file spells is sound, under options whose marks are marks and differ, and whose
/// order isn't 0.
pub fn models_are_sound()
    ensures { ModelsAreSound }
{}
