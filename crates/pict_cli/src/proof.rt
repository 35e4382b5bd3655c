ghost use Rattle.std.specs.Prelude.{◌≡◌, Some, All, map, length, IfOk, IfErr, IfSome, OnOk};
ghost use Rattle.outside_io.specs.believed.Files.{HoldsOldOrPrefix};
ghost use Rattle.outside_io.specs.believed.Seen.{KeepsOtherFiles, KeepsReadFaults, KeepsWriteFaults, WriteFaultsRose};
ghost use Rattle.pict_cli.specs.Steps.{written};

use crate::options::Opts;
use command_line::{FileKind, Stop};
use outside_io::{Folder, WriteAnswer};
use refutation::{Omissions, format_len, omission_len, put_format, put_omission};
use std::alloc::Global;
use value_text::NoMemory;

// The number of bytes of the text of a proof; `NoMemory` where it is above 2^64 - 1.
fn proof_len(proof: &Omissions) -> Result<u64, NoMemory>
    ensures len { IfOk result (λ count. count ≡ length (written proof.now.form proof.now.omissions)) }
{
    let mut count = format_len(proof.form());
    for listed in proof.as_slice() {
        count = count.checked_add(omission_len(listed)).ok_or(NoMemory)?;
    }
    Ok(count)
}

// The text of a proof, in one piece of memory that is taken at once.
fn proof_text(alloc: Global, proof: &Omissions) -> Result<Vec<u8>, NoMemory>
    ensures text { IfOk result (λ bytes. bytes.items ≡ written proof.now.form proof.now.omissions) }
{
    let count = proof_len(proof)?;
    let mut text = Vec::with_capacity(alloc, count as usize)?;
    put_format(proof.form(), &mut text);
    for omission in proof.as_slice() {
        put_omission(omission, &mut text);
    }
    Ok(text)
}

/// The text of the proof of a suite, where the options ask for one; else no text.
///
/// # Errors
///
/// `OutOfMemory` where memory was refused.
pub(crate) fn text_of(alloc: Global, opts: &Opts<'_>, omitted: &Omissions) -> Result<Vec<u8>, Stop>
    ensures text { IfOk result (λ text. IfSome opts.now.proof (λ _. text.items ≡ written omitted.now.form omitted.now.omissions)) }
    ensures stops { IfErr result (λ stop. stop ≡ Stop.OutOfMemory) }
{
    if opts.proof.is_none() {
        return Ok(Vec::new(alloc));
    }
    Ok(proof_text(alloc, omitted)?)
}

/// Writes the text of a proof to the file of this name.
///
/// # Errors
///
/// `CannotWrite` where the folder failed.
pub(crate) fn write_proof<F: Folder>(name: &str, text: &[u8], files: &mut F) -> Result<(), Stop>
    ensures written { IfOk result (λ _. IfSome ((F.seen files.new).files name.now) (λ held. held ≡ Some text.now)) }
    ensures partial { IfErr result (λ stop. (stop ≡ Stop.CannotWrite FileKind.Proof)
        × IfSome ((F.seen files.new).files name.now) (λ held. HoldsOldOrPrefix ((F.seen files.old).files name.now) held text.now)
        × WriteFaultsRose name.now (F.seen files.old) (F.seen files.new)) }
    ensures no_fault { OnOk result (KeepsWriteFaults (F.seen files.old) (F.seen files.new)) }
    ensures others { KeepsOtherFiles name.now (F.seen files.old) (F.seen files.new) }
    ensures reads { KeepsReadFaults (F.seen files.old) (F.seen files.new) }
{
    match files.write_file(name, text) {
        WriteAnswer::Done => Ok(()),
        WriteAnswer::Failed => Err(Stop::CannotWrite(FileKind::Proof)),
    }
}
