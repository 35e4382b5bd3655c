ghost use Rattle.std.specs.Prelude.{◌≡◌};
ghost use Rattle.jeldroft_import.specs.believed.Imports as imports;

use acts_front::ActsCode;

/// Why `import` ends without a model file.
#[derive(Debug, Drop, Clone, Copy, PartialEq, Eq)]
pub enum ImportCause {
    /// Memory was refused.
    OutOfMemory,
    /// The file could not be read.
    CannotRead,
    /// The file has more bytes than a model file may have.
    TooLong,
    /// This line of the file, counted from 1, is refused.
    BadLine(u32, ActsCode),
    /// The model file could not be written.
    CannotWrite,
}

impl ImportCause {
    /// The exit status: 3 where memory, the read or the write failed, 2 where the file is wrong. Takes no memory.
    pub fn status(self) -> u8
        ensures { result ≡ imports.status_of self }
    {
        match self {
            ImportCause::OutOfMemory | ImportCause::CannotRead | ImportCause::CannotWrite => 3,
            ImportCause::TooLong | ImportCause::BadLine(..) => 2,
        }
    }
}
