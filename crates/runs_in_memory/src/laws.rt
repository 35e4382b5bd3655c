ghost use Rattle.runs_in_memory.specs.Accepted.{PrintedIsAccepted};

/// What `pict` prints, with the proof that it writes, `check_bytes` accepts for the same model file, unless memory is
/// refused: of a text and a proof this is said that are accepted as the clause `headline` of `run_pict` says it.
pub fn printed_is_accepted()
    ensures { PrintedIsAccepted }
{}
