ghost use Rattle.std.specs.Prelude.{◌≡◌, IfOk, IfSome};
ghost use Rattle.pict_cli.specs.Steps.{written};

use jeldroft_args::Generate;
use refutation::{Omissions, format_len, put_format, write_omission};
use std::alloc::Global;
use value_text::NoMemory;

// The text of a proof.
fn proof_text(alloc: Global, proof: &Omissions) -> Result<Vec<u8>, NoMemory>
    ensures { IfOk result (λ text. text.items ≡ written proof.now.form proof.now.omissions) }
{
    let mut text = Vec::with_capacity(alloc, format_len(proof.form()) as usize)?;
    put_format(proof.form(), &mut text);
    for omission in proof.as_slice() {
        write_omission(omission, &mut text)?;
    }
    Ok(text)
}

/// The text of the proof of a suite, where one is asked for; else no text.
///
/// # Errors
///
/// `NoMemory` where memory was refused.
pub(crate) fn proof_of(
    alloc: Global,
    args: &Generate,
    omitted: &Omissions,
) -> Result<Vec<u8>, NoMemory>
    ensures { IfOk result (λ text. IfSome args.now.proof (λ _. text.items ≡ written omitted.now.form omitted.now.omissions)) }
{
    match args.proof {
        Some(_) => proof_text(alloc, omitted),
        None => Ok(Vec::new(alloc)),
    }
}
