ghost use Rattle.proof_check.specs.Laws.{ChecksHaveOneAnswer};

/// A check of the same files has one answer, but for want of memory. So a refusal that a file has, or the verdict
/// where all have their readings, is what the check tells, unless memory is refused.
pub fn checks_have_one_answer()
    ensures { ChecksHaveOneAnswer }
{}
