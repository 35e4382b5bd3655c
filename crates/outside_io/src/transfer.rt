ghost use Rattle.std.specs.Prelude.{◌≡◌, ◌<◌, ◌≤◌, [], IfSome, OnErr, OnOk, length};
ghost use Rattle.outside_io.specs.believed.Puts.{PutsBytes};

use crate::answers::{ReadAnswer, WriteAnswer};
use std::io::{Error, ErrorKind, Read, Write};

/// Reads what a file has left, up to `most` bytes. Each turn reads one byte at least.
pub(crate) fn read_whole<F: Read>(file: &mut F, into: &mut Vec<u8>, most: usize) -> ReadAnswer
    requires { into.old.items ≡ [] }
    ensures within { result ≡ ReadAnswer.Whole → length into.new.items ≤ most }
    ensures whole { result ≡ ReadAnswer.Whole →
        IfSome (F.remaining file.old) (λ left. into.new.items ≡ left) }
    ensures too_long { result ≡ ReadAnswer.TooLong →
        IfSome (F.remaining file.old) (λ left. most < length left) }
{
    let mut piece = [0u8; 8192];
    loop {
        match file.read(&mut piece) {
            Ok(0) => return ReadAnswer::Whole,
            Ok(count) => {
                if count > most - into.len() {
                    return ReadAnswer::TooLong;
                }
                if into.extend_from_slice(&piece[..count]).is_err() {
                    return ReadAnswer::NoMemory;
                }
            }
            Err(_) => return ReadAnswer::Failed,
        }
    }
}

/// Why a stream didn't take all bytes.
#[derive(Debug, Drop, Clone, Copy, PartialEq, Eq)]
pub(crate) enum StreamFault {
    /// Its reader has gone away.
    Gone,
    /// Any other error, or a write that took nothing.
    Other,
}

impl StreamFault {
    fn of(error: &Error) -> StreamFault {
        match error.kind() {
            ErrorKind::BrokenPipe => StreamFault::Gone,
            _ => StreamFault::Other,
        }
    }
}

/// Writes all bytes. Each turn writes one byte at least.
///
/// # Errors
///
/// Why the stream took no more, where a prefix of the bytes was written.
pub(crate) fn write_whole<W: Write>(stream: &mut W, bytes: &[u8]) -> Result<(), StreamFault>
    ensures ok { OnOk result (PutsBytes WriteAnswer.Done (W.contents stream.old) (W.contents stream.new) bytes.now) }
    ensures err { OnErr result (PutsBytes WriteAnswer.Failed (W.contents stream.old) (W.contents stream.new) bytes.now) }
{
    let mut at = 0;
    while at < bytes.len() {
        match stream.write(&bytes[at..]) {
            Ok(0) => return Err(StreamFault::Other),
            Ok(count) => at += count,
            Err(error) => return Err(StreamFault::of(&error)),
        }
    }
    Ok(())
}
