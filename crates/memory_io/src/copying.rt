ghost use Rattle.std.specs.Prelude.{◌≡◌, ◌≢◌, ◌<◌, ◌≤◌, [], false, length};
ghost use Rattle.outside_io.specs.Faults.{is_failed_read};

use outside_io::ReadAnswer;

/// Appends bytes, where they are at most `most`.
pub(crate) fn copy_up_to(bytes: &[u8], into: &mut Vec<u8>, most: usize) -> ReadAnswer
    requires { into.old.items ≡ [] }
    ensures whole { result ≡ ReadAnswer.Whole → into.new.items ≡ bytes.now }
    ensures within { result ≡ ReadAnswer.Whole → length bytes.now ≤ most }
    ensures too_long { result ≡ ReadAnswer.TooLong → most < length bytes.now }
    ensures fits { result ≡ ReadAnswer.NoMemory → length bytes.now ≤ most }
    ensures empty { result ≢ ReadAnswer.Whole → into.new.items ≡ [] }
    ensures no_fault { is_failed_read result ≡ false }
{
    if bytes.len() > most {
        return ReadAnswer::TooLong;
    }
    match into.extend_from_slice(bytes) {
        Ok(()) => ReadAnswer::Whole,
        Err(_) => ReadAnswer::NoMemory,
    }
}
