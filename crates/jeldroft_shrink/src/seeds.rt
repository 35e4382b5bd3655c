ghost use Rattle.std.specs.Prelude.{◌≡◌, ℕ, List, [], Option, Some, All, IfOk, IfSome, option_map};
ghost use Rattle.cov_model.specs.Fits.{FitsModel};
ghost use Rattle.outside_io.specs.believed.Seen.{KeepsFiles};
ghost use Rattle.row_text.specs.RowFiles.{seeds_seen};
ghost use Rattle.jeldroft_shrink.specs.believed.Reading.{seeds_in};
ghost use Rattle.jeldroft_shrink.specs.Steps.{Gives};

use crate::cause::ShrinkFailure;
use crate::given::read_file;
use crate::table_notes::TableNotes;
use cov_model::TestModel;
use jeldroft_args::Delimiter;
use model_lex::NoteList;
use outside_io::Folder;
use row_text::{FileRowList, RowFile, RowMode};
use std::alloc::Global;

// No rows.
fn no_rows(alloc: Global) -> RowFile
    ensures { result.rows ≡ [] }
{
    RowFile {
        rows: FileRowList::new(alloc),
        notes: NoteList::new(alloc),
    }
}

/// The rows of a file of seed rows, where one is named. `notes` gets what there is to warn of.
///
/// # Errors
///
/// A failure of the file, or what its rows are refused for as seed rows.
pub(crate) fn read_seeds<'n, F: Folder>(
    alloc: Global,
    model: &TestModel,
    name: Option<&'n str>,
    delimiter: Option<Delimiter>,
    files: &mut F,
    notes: &mut TableNotes,
) -> Result<RowFile, ShrinkFailure<'n>>
    ensures reads { (held : Option (List ℕ)) → IfSome (option_map (λ named. named.now) name.entry) (λ named. (F.seen files.old).files named ≡ Some held)
        → Gives seeds_seen (seeds_in model.now delimiter (option_map (λ named. named.now) name.entry) held) result }
    ensures fit { IfOk result (λ file. All (λ row. FitsModel model.now row.cells) file.rows) }
    ensures files { KeepsFiles (F.seen files.old) (F.seen files.new) }
{
    match name {
        Some(name) => read_file(alloc, model, RowMode::Seed, name, delimiter, files, notes),
        None => Ok(no_rows(alloc)),
    }
}
