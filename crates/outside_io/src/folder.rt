ghost use Rattle.std.specs.Prelude.{◌≡◌, ◌≢◌, ◌<◌, ◌≤◌, [], None, Some, length, IfSome, IsSomeAnd};
ghost use Rattle.outside_io.specs.Faults.{CountsGoOn, is_failed_read, is_failed_write};
ghost use Rattle.outside_io.specs.believed.Files.{HoldsOldOrPrefix};
ghost use Rattle.outside_io.specs.believed.Seen.{FolderSeen, KeepsFiles, KeepsOtherFiles, KeepsReadFaults, KeepsWriteFaults, ReadFaultsRose, WriteFaultsRose};

use crate::answers::{ReadAnswer, WriteAnswer};

/// Files under names.
///
/// Of a name it may be told what the folder holds: the bytes of a file, or that there is none. Two
/// counts of faults belong to each name, one of reads and one of writes; one counter may stand
/// behind the counts of all names. A count is 0 in a new folder and ends at 2^64 - 1. Of a name it
/// may also be told whether the next call on it fails, for a write by the number of bytes.
pub trait Folder {
    /// What the folder tells: what the names hold, the counts of faults, and which calls fail.
    ghost seen: { Self → FolderSeen };

    /// Reads a file of at most `most` bytes into `into`, in place of what was there.
    ///
    /// `TooLong` where the call doesn't fail and the file holds more than `most` bytes. A told name
    /// without a file fails. After any answer but `Whole`, `into` is empty. `NoMemory` may come in
    /// place of every other answer. What is held stays, and told names stay told.
    fn read_file(&mut self, name: &str, into: &mut Vec<u8>, most: usize) -> ReadAnswer
        // the file was read
        ensures whole { result ≡ ReadAnswer.Whole →
            IfSome ((seen self.old).files name.now) (λ held. held ≡ Some into.new.items) }
        ensures within { result ≡ ReadAnswer.Whole → length into.new.items ≤ most }

        // it wasn't
        ensures empty { result ≢ ReadAnswer.Whole → into.new.items ≡ [] }
        ensures too_long { result ≡ ReadAnswer.TooLong →
            IfSome ((seen self.old).files name.now) (λ held. IsSomeAnd held (λ bytes. most < length bytes)) }
        ensures longer { result ≢ ReadAnswer.Failed → result ≢ ReadAnswer.NoMemory →
            IfSome ((seen self.old).files name.now) (λ held. IfSome held (λ bytes.
            most < length bytes → result ≡ ReadAnswer.TooLong)) }
        ensures missing { result ≢ ReadAnswer.NoMemory →
            IfSome ((seen self.old).files name.now) (λ held. held ≡ None → result ≡ ReadAnswer.Failed) }
        ensures failed_as_told { result ≢ ReadAnswer.NoMemory →
            IfSome ((seen self.old).read_fails name.now) (λ fails. fails ≡ is_failed_read result) }

        // the folder
        ensures files { KeepsFiles (seen self.old) (seen self.new) }
        ensures rose { result ≡ ReadAnswer.Failed →
            ReadFaultsRose name.now (seen self.old) (seen self.new) }
        ensures no_fault { result ≢ ReadAnswer.Failed →
            KeepsReadFaults (seen self.old) (seen self.new) }
        ensures goes_on { CountsGoOn (seen self.old).read_faults (seen self.new).read_faults }
        ensures no_write_fault { KeepsWriteFaults (seen self.old) (seen self.new) };

    /// Makes `bytes` the file of a name. Takes no memory of the caller.
    ///
    /// After `Done` a told name holds exactly the bytes, after `Failed` a prefix of them or what it
    /// held. The name that was written may be untold afterwards; the other names stay as they are.
    fn write_file(&mut self, name: &str, bytes: &[u8]) -> WriteAnswer
        // the name
        ensures done { result ≡ WriteAnswer.Done →
            IfSome ((seen self.new).files name.now) (λ held. held ≡ Some bytes.now) }
        ensures partial { result ≡ WriteAnswer.Failed →
            IfSome ((seen self.new).files name.now) (λ held.
            HoldsOldOrPrefix ((seen self.old).files name.now) held bytes.now) }
        ensures failed_as_told { IfSome ((seen self.old).write_fails name.now (length bytes.now))
            (λ fails. fails ≡ is_failed_write result) }

        // the folder
        ensures others { KeepsOtherFiles name.now (seen self.old) (seen self.new) }
        ensures rose { result ≡ WriteAnswer.Failed →
            WriteFaultsRose name.now (seen self.old) (seen self.new) }
        ensures no_fault { result ≢ WriteAnswer.Failed →
            KeepsWriteFaults (seen self.old) (seen self.new) }
        ensures goes_on { CountsGoOn (seen self.old).write_faults (seen self.new).write_faults }
        ensures no_read_fault { KeepsReadFaults (seen self.old) (seen self.new) };

    /// Makes `bytes` the file of a name, whole or not at all. Takes no memory of the caller.
    ///
    /// After `Done` a told name holds exactly the bytes, after `Failed` what it held. The name that
    /// was written may be untold afterwards; the other names stay as they are.
    fn replace_file(&mut self, name: &str, bytes: &[u8]) -> WriteAnswer
        // the name
        ensures done { result ≡ WriteAnswer.Done →
            IfSome ((seen self.new).files name.now) (λ held. held ≡ Some bytes.now) }
        ensures kept { result ≡ WriteAnswer.Failed →
            IfSome ((seen self.new).files name.now) (λ held. (seen self.old).files name.now ≡ Some held) }
        ensures failed_as_told { IfSome ((seen self.old).write_fails name.now (length bytes.now))
            (λ fails. fails ≡ is_failed_write result) }

        // the folder
        ensures others { KeepsOtherFiles name.now (seen self.old) (seen self.new) }
        ensures rose { result ≡ WriteAnswer.Failed →
            WriteFaultsRose name.now (seen self.old) (seen self.new) }
        ensures no_fault { result ≢ WriteAnswer.Failed →
            KeepsWriteFaults (seen self.old) (seen self.new) }
        ensures goes_on { CountsGoOn (seen self.old).write_faults (seen self.new).write_faults }
        ensures no_read_fault { KeepsReadFaults (seen self.old) (seen self.new) };
}
