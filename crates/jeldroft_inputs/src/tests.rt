ghost use Rattle.std.specs.Prelude.{◌≡◌, ℕ, List, Option, Some, Err, IfOk, IfErr};
ghost use Rattle.outside_io.specs.believed.Seen.{KeepsFiles};
ghost use Rattle.row_text.specs.Readings.{IsFileOf};
ghost use Rattle.jeldroft_files.specs.believed.Tables.{is_comma};
ghost use Rattle.jeldroft_inputs.specs.Inputs.{EndsBy, HoldsTests};
ghost use Rattle.jeldroft_inputs.specs.believed.Inputs.{tests_of};

use command_line::Stop;
use cov_model::TestModel;
use jeldroft_args::Delimiter;
use jeldroft_files::{Failure, TableText, missing_column, read_table_text};
use outside_io::Folder;
use row_text::{RowFile, RowMode, read_rows};
use std::alloc::Global;

/// The tests of a model in the table of this name, whose cells tabs or commas part (PICT's guide for row files). Each
/// parameter has a column. `table` gets the bytes of the table, so that what stands there can be told.
///
/// # Errors
///
/// A failure of the table: `CannotRead` where the folder failed, `TooLong` where it has more bytes than a file of rows may
/// have, `Comma` where RFC 4180 doesn't allow what it holds, the refusal of its rows, or `OutOfMemory`.
pub fn read_table_of_tests<'n, F: Folder>(
    alloc: Global,
    name: &'n str,
    delimiter: Option<Delimiter>,
    model: &TestModel,
    files: &mut F,
    table: &mut TableText,
) -> Result<RowFile, Failure<'n>>
    ensures tests { IfOk result (λ file. (held : Option (List ℕ)) → (F.seen files.old).files name.now ≡ Some held →
        HoldsTests model.now (is_comma delimiter name.now) held file) }
    ensures fit { IfOk result (IsFileOf model.now) }
    ensures stops { IfErr result (λ failure. (held : Option (List ℕ)) → (F.seen files.old).files name.now ≡ Some held →
        EndsBy (λ cause. tests_of model.now (is_comma delimiter name.now) held ≡ Err cause) failure.cause) }
    ensures files { KeepsFiles (F.seen files.old) (F.seen files.new) }
{
    let text = read_table_text(alloc, name, delimiter, files)?;
    let read = read_rows(alloc, text.tabs.as_slice(), model, RowMode::Suite);
    *table = text;
    match read {
        Ok(file) => Ok(file),
        Err(fault) => Err(Failure::at(name, Stop::from(fault)).naming(missing_column(
            alloc, model, fault,
        ))),
    }
}

/// The same without the bytes of the table.
///
/// # Errors
///
/// As `read_table_of_tests`.
pub fn read_tests<'n, F: Folder>(
    alloc: Global,
    name: &'n str,
    delimiter: Option<Delimiter>,
    model: &TestModel,
    files: &mut F,
) -> Result<RowFile, Failure<'n>>
    ensures tests { IfOk result (λ file. (held : Option (List ℕ)) → (F.seen files.old).files name.now ≡ Some held →
        HoldsTests model.now (is_comma delimiter name.now) held file) }
    ensures fit { IfOk result (IsFileOf model.now) }
    ensures stops { IfErr result (λ failure. (held : Option (List ℕ)) → (F.seen files.old).files name.now ≡ Some held →
        EndsBy (λ cause. tests_of model.now (is_comma delimiter name.now) held ≡ Err cause) failure.cause) }
    ensures files { KeepsFiles (F.seen files.old) (F.seen files.new) }
{
    let mut table = TableText::none(alloc);
    read_table_of_tests(alloc, name, delimiter, model, files, &mut table)
}
