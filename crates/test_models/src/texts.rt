ghost use Rattle.std.specs.Prelude.{◌≤◌};
ghost use Rattle.model_parse.specs.RawModels.{AreOpts};

use cov_model::TestModel;
use model_lex::{Marks, ModelFault, ModelOpts, NoteList, OrderWord};
use std::alloc::Global;
use type_check::read_model;

/// Two types of disk, sizes, and what goes with them: 15 demanded sets, 331 demanded pairs.
pub const DISK: &str = "Type:          Primary, Logical, Single, Span, Stripe, Mirror, RAID-5\n\
    Size:          10, 100, 500, 1000, 5000, 10000, 40000\n\
    Format method: quick, slow\n\
    File system:   FAT, FAT32, NTFS\n\
    Cluster size:  512, 1024, 2048, 4096, 8192, 16384, 32768, 65536\n\
    Compression:   on, off\n\
    \n\
    IF [File system] = \"FAT\" THEN [Size] <= 4096;\n\
    IF [File system] = \"FAT32\" THEN [Size] <= 32000;\n";

/// Fourteen parameters of one value, and twice the sub-model of all of them at order 7: at order 2 there are
/// 3,432 times 3,432 choices of demanded sets, and 9,908 sets.
pub const OVERLAPPING: &str =
    "A: 1\nB: 1\nC: 1\nD: 1\nE: 1\nF: 1\nG: 1\nH: 1\nI: 1\nJ: 1\nK: 1\nL: 1\n\
    M: 1\nN: 1\n\
    { A, B, C, D, E, F, G, H, I, J, K, L, M, N } @ 7\n\
    { A, B, C, D, E, F, G, H, I, J, K, L, M, N } @ 7\n";

// The most bytes of a text.
const MOST_BYTES: usize = 1 << 20;

/// How a file is read where this order is the only option.
pub fn options(order: u32) -> ModelOpts
    requires { 1 ≤ order }
    ensures { AreOpts result }
{
    ModelOpts {
        order: OrderWord::Number(order),
        marks: Marks {
            separator: b',',
            alias: b'|',
            prefix: b'~',
        },
        fold: true,
    }
}

/// The model of a text, with its notes.
///
/// # Errors
///
/// As from `read_model`; and `NoMemory` for a text of more than 2^20 bytes, which no test has.
pub fn read(
    alloc: Global,
    text: &str,
    opts: &ModelOpts,
) -> Result<(TestModel, NoteList), ModelFault>
    requires { AreOpts opts.now }
{
    let bytes = text.as_bytes();
    if bytes.len() > MOST_BYTES {
        return Err(ModelFault::NoMemory);
    }
    read_model(alloc, bytes, opts)
}

/// The model of a text at order 2.
///
/// # Errors
///
/// As from `read`.
pub fn model_of(alloc: Global, text: &str) -> Result<TestModel, ModelFault> {
    let (model, _) = read(alloc, text, &options(2))?;
    Ok(model)
}
