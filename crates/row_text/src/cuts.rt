//! The cells of a row file without the spaces at their ends.
ghost use Rattle.std.specs.Prelude.{◌≡◌, ◌≤◌, ◌==◌, length};
ghost use Rattle.std.specs.List.{prefix_len, suffix_len};
ghost use Rattle.definitions.specs.believed.RowFile.{without_first_spaces, without_last_spaces, without_spaces};

/// How many spaces stand at the start of a cell.
#[tactic(auto, using(model_lex::proofs::Runs::run_len, model_lex::proofs::Runs::run_within))]
fn first_spaces(cell: &[u8]) -> usize
    ensures value { result ≡ prefix_len (λ byte. byte == 32) cell.now }
    ensures within { result ≤ length cell.now }
{
    cell.iter().take_while(|byte| **byte == b' ').count()
}

/// How many spaces stand at the end of a cell.
#[tactic(auto, using(model_lex::proofs::Runs::run_len, crate::proofs::LineSteps::spaces_within))]
fn last_spaces(cell: &[u8]) -> usize
    ensures value { result ≡ suffix_len (λ byte. byte == 32) cell.now }
    ensures within { result ≤ length cell.now }
{
    cell.iter().rev().take_while(|byte| **byte == b' ').count()
}

/// A cell without the spaces at its start.
fn without_first_spaces(cell: &[u8]) -> &[u8]
    ensures { result.now ≡ without_first_spaces cell.now }
{
    &cell[first_spaces(cell)..]
}

/// A cell without the spaces at its end.
fn without_last_spaces(cell: &[u8]) -> &[u8]
    ensures { result.now ≡ without_last_spaces cell.now }
{
    &cell[..cell.len() - last_spaces(cell)]
}

/// A cell without the spaces at both ends.
pub(crate) fn without_spaces(cell: &[u8]) -> &[u8]
    ensures { result.now ≡ without_spaces cell.now }
{
    without_last_spaces(without_first_spaces(cell))
}
