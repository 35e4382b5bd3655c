ghost use Rattle.std.specs.Prelude.{◌≡◌};

use model_lex::{Diag, DiagCode, ModelFault};

// The refusal of a constraint at a line.
pub(crate) fn refused(line: u32, code: DiagCode) -> ModelFault
    ensures { result ≡ ModelFault.BadRule (record { line = line; code = code }) }
{
    ModelFault::BadRule(Diag { line, code })
}
