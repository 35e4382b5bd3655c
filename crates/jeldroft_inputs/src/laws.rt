ghost use Rattle.jeldroft_inputs.specs.Laws.{ModelFilesGiveOneAnswer};

/// A model file gives one model, or ends a command by one cause, whatever its bytes and their number.
pub fn model_files_give_one_answer()
    ensures { ModelFilesGiveOneAnswer }
{}
