ghost use Rattle.std.specs.Prelude.{◌≡◌, ◌≢◌, ◌⊎◌, ◌≤◌, ◌^◌, ℕ, List, Option, Some, Err, All, map, length, option_map, IfOk, IfErr, IsSomeAnd};
ghost use Rattle.outside_io.specs.believed.Seen.{KeepsFiles, KeepsReadFaults, KeepsWriteFaults, ReadFaultsRose};
ghost use Rattle.row_text.specs.Readings.{IsFileOf, mode_seen};
ghost use Rattle.pict_cli.specs.believed.Modes.{RowSource, RowsHeld, source_in};
ghost use Rattle.pict_cli.specs.believed.RowSources.{read_row_bytes};
ghost use Rattle.pict_cli.specs.Steps.{HoldsRows, IsOfRows, StopsRows};

use command_line::{FileKind, Stop, read_whole};
use cov_model::TestModel;
use outside_io::Folder;
use row_text::{RowFile, RowMode, read_rows};
use std::alloc::Global;
use value_text::OwnedList;

// The rows of the row file of this name, or why its reading stops.
fn read_row_file<F: Folder>(
    alloc: Global,
    name: &str,
    mode: RowMode,
    model: &TestModel,
    files: &mut F,
) -> Result<RowFile, Stop>
    ensures rows { IfOk result (λ file. (held : Option (List ℕ)) → (F.seen files.old).files name.now ≡ Some held → HoldsRows model.now (mode_seen mode) (RowsHeld held) file) }
    ensures fit { IfOk result (IsFileOf model.now) }
    ensures stops { IfErr result (λ stop. (held : Option (List ℕ)) → (F.seen files.old).files name.now ≡ Some held → StopsRows (read_row_bytes model.now (mode_seen mode)) (RowsHeld held) stop) }
    ensures cannot_read { result ≡ Err (Stop.CannotRead FileKind.Rows) → ReadFaultsRose name.now (F.seen files.old) (F.seen files.new) }
    ensures no_fault { result ≢ Err (Stop.CannotRead FileKind.Rows) → KeepsReadFaults (F.seen files.old) (F.seen files.new) }
    ensures other { IfErr result IsOfRows }
    ensures files { KeepsFiles (F.seen files.old) (F.seen files.new) }
    ensures write_faults { KeepsWriteFaults (F.seen files.old) (F.seen files.new) }
{
    let bytes = read_whole(alloc, FileKind::Rows, name, files)?;
    Ok(read_rows(alloc, bytes.as_slice(), model, mode)?)
}

/// The rows of the row file, where one is named; else no rows.
///
/// # Errors
///
/// As from `read_row_file`.
pub(crate) fn load_rows<F: Folder>(
    alloc: Global,
    name: Option<&str>,
    mode: RowMode,
    model: &TestModel,
    files: &mut F,
) -> Result<RowFile, Stop>
    ensures rows { IfOk result (λ file. (source : RowSource) → source_in (option_map (λ file. file.now) name.entry) (F.seen files.old).files ≡ Some source →
        HoldsRows model.now (mode_seen mode) source file) }
    ensures fit { IfOk result (IsFileOf model.now) }
    ensures stops { IfErr result (λ stop. (source : RowSource) → source_in (option_map (λ file. file.now) name.entry) (F.seen files.old).files ≡ Some source →
        StopsRows (read_row_bytes model.now (mode_seen mode)) source stop) }
    ensures cannot_read { result ≡ Err (Stop.CannotRead FileKind.Rows) →
        IsSomeAnd (option_map (λ file. file.now) name.entry) (λ file. ReadFaultsRose file (F.seen files.old) (F.seen files.new)) }
    ensures no_fault { result ≢ Err (Stop.CannotRead FileKind.Rows) → KeepsReadFaults (F.seen files.old) (F.seen files.new) }
    ensures other { IfErr result IsOfRows }
    ensures files { KeepsFiles (F.seen files.old) (F.seen files.new) }
    ensures write_faults { KeepsWriteFaults (F.seen files.old) (F.seen files.new) }
{
    match name {
        Some(name) => read_row_file(alloc, name, mode, model, files),
        None => Ok(RowFile {
            rows: OwnedList::new(alloc),
            notes: OwnedList::new(alloc),
        }),
    }
}
