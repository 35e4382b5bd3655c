ghost use Rattle.std.specs.Prelude.{◌≡◌, ℕ, List, Option, Some, IfOk};
ghost use Rattle.outside_io.specs.believed.Seen.{KeepsFiles};
ghost use Rattle.row_text.specs.Readings.{HoldsReading, IsFileOf};
ghost use Rattle.jeldroft_files.specs.believed.Tables.{is_comma};
ghost use Rattle.jeldroft_generate.specs.Due.{Answers};
ghost use Rattle.jeldroft_generate.specs.believed.Due.{reading_of, told_seeds};
ghost use Rattle.jeldroft_generate.specs.believed.Given.{seeds_in};

use command_line::Stop;
use cov_model::TestModel;
use jeldroft_args::{Delimiter, Generate};
use jeldroft_files::{Failure, TableText, read_table_text};
use outside_io::Folder;
use row_text::{RowFile, RowMode, read_rows};
use std::alloc::Global;
use value_text::OwnedList;

// The seed tests in the file of this name, whose cells tabs or commas part. `table` gets its bytes.
fn read_seed_file<'n, F: Folder>(
    alloc: Global,
    name: &'n str,
    delimiter: Option<Delimiter>,
    model: &TestModel,
    files: &mut F,
    table: &mut TableText,
) -> Result<RowFile, Failure<'n>>
    ensures seeds { (held : Option (List ℕ)) → (F.seen files.old).files name.now ≡ Some held →
        Answers (λ given. seeds_in model.now (is_comma delimiter name.now) held ≡ given) HoldsReading result }
    ensures fit { IfOk result (IsFileOf model.now) }
    ensures files { KeepsFiles (F.seen files.old) (F.seen files.new) }
{
    let text = read_table_text(alloc, name, delimiter, files)?;
    let read = read_rows(alloc, text.tabs.as_slice(), model, RowMode::Seed);
    *table = text;
    match read {
        Ok(file) => Ok(file),
        Err(fault) => Err(Failure::at(name, Stop::from(fault))),
    }
}

/// The seed tests of a model, where a file of them is named; else none (PICT's guide). `table` gets the bytes of the
/// file.
///
/// # Errors
///
/// A failure of the file: `CannotRead` where the folder failed, `TooLong` where it has more bytes than a file of rows may
/// have, `Comma` where RFC 4180 doesn't allow what it holds, the refusal of its rows, or `OutOfMemory`.
pub(crate) fn read_seeds<'n, F: Folder>(
    alloc: Global,
    args: &'n Generate,
    model: &TestModel,
    files: &mut F,
    table: &mut TableText,
) -> Result<RowFile, Failure<'n>>
    ensures seeds { (held : Option (Option (List ℕ))) → told_seeds args.now.seeds (F.seen files.old).files ≡ Some held →
        Answers (λ given. reading_of args.now model.now held ≡ given) HoldsReading result }
    ensures fit { IfOk result (IsFileOf model.now) }
    ensures files { KeepsFiles (F.seen files.old) (F.seen files.new) }
{
    match &args.seeds {
        Some(name) => { read_seed_file(alloc, name.as_str(), args.delimiter, model, files, table) }
        None => Ok(RowFile {
            rows: OwnedList::new(alloc),
            notes: OwnedList::new(alloc),
        }),
    }
}
