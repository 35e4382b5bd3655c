ghost use Rattle.std.specs.Prelude.{◌≡◌};

use model_lex::{Diag, DiagCode, ModelFault};

/// The fault of a line.
pub(crate) fn bad(line: u32, code: DiagCode) -> ModelFault
    ensures { result ≡ ModelFault.Bad (record { line = line; code = code }) }
{
    ModelFault::Bad(Diag { line, code })
}
