ghost use Rattle.std.specs.Prelude.{◌≡◌, ◌≤◌, length, Some, IfOk, IfErr, IfSome};
ghost use Rattle.outside_io.specs.believed.Seen.{KeepsFiles};
ghost use Rattle.cov_model.specs.believed.Sound.{IsSound};
ghost use Rattle.definitions.specs.believed.Limits as limits;
ghost use Rattle.model_parse.specs.RawModels.{AreOpts};
ghost use Rattle.command_line.specs.believed.Loading.{IsLoaded, StopsReading};
ghost use Rattle.jeldroft_args.specs.Ranges.{AreMarks, IsStrength};
ghost use Rattle.jeldroft_files.specs.believed.Models.{StopsModel, opts_of, order_of};

use crate::failure::{Cause, Failure};
use crate::model_text::ModelText;
use crate::refused_model::RefusedModel;
use command_line::{FileKind, Stop, read_whole};
use cov_model::TestModel;
use jeldroft_args::{ModelFile, Strength};
use model_lex::{Marks, ModelOpts, NoteList, OrderWord};
use outside_io::Folder;
use std::alloc::Global;
use type_check::read_model;

// A strength as the options of a model file have it.
fn order_of(strength: Strength) -> OrderWord
    ensures { result ≡ order_of strength }
{
    match strength {
        Strength::Number(number) => OrderWord::Number(number),
        Strength::Max => OrderWord::Max,
    }
}

/// The options by which a model file is read at a strength.
pub fn opts_of(file: &ModelFile, strength: Strength) -> ModelOpts
    ensures { result ≡ opts_of file.now strength }
{
    ModelOpts {
        order: order_of(strength),
        marks: Marks {
            separator: file.marks.separator,
            alias: file.marks.alias,
            prefix: file.marks.invalid,
        },
        fold: !file.case_sensitive,
    }
}

// The model that the bytes of a model file spell, with its notes, or why they are refused.
fn model_in(alloc: Global, bytes: &[u8], opts: &ModelOpts) -> Result<(TestModel, NoteList), Stop>
    requires opts { AreOpts opts.now }
    requires within { length bytes.now ≤ limits.most_bytes limits.ModelFile }
    ensures model { IfOk result (λ read. IsSound read.0 × IsLoaded opts.now (Some bytes.now) read.0 read.1) }
    ensures stops { IfErr result (StopsReading opts.now (Some bytes.now)) }
{
    let (model, notes) = read_model(alloc, bytes, opts)?;
    model.assert_invariant();
    Ok((model, notes))
}

/// A model file with its model, for tests of so many parameters (PICT's guide).
///
/// # Errors
///
/// A failure of the file: `CannotRead` where the folder failed, `TooLong` where the file has more bytes than a model file
/// may have, its first refusal, or `OutOfMemory`.
pub fn read_model_text<'n, F: Folder>(
    alloc: Global,
    file: &'n ModelFile,
    strength: Strength,
    files: &mut F,
) -> Result<ModelText, Failure<'n>>
    requires marks { AreMarks file.now.marks }
    requires strength { IsStrength strength }
    ensures model { IfOk result (λ read. IsSound read.model × IfSome ((F.seen files.old).files file.now.name)
        (λ held. IsLoaded (opts_of file.now strength) held read.model read.notes)) }
    ensures stops { IfErr result (λ failure. IfSome ((F.seen files.old).files file.now.name)
        (λ held. StopsModel (opts_of file.now strength) held failure.cause)) }
    ensures files { KeepsFiles (F.seen files.old) (F.seen files.new) }
{
    let name = file.name.as_str();
    let opts = opts_of(file, strength);
    let bytes = match read_whole(alloc, FileKind::Model, name, files) {
        Ok(bytes) => bytes,
        Err(stop) => return Err(Failure::at(name, stop)),
    };
    match model_in(alloc, bytes.as_slice(), &opts) {
        Ok((model, notes)) => Ok(ModelText {
            bytes,
            marks: opts.marks,
            model,
            notes,
        }),
        Err(stop) => Err(Failure {
            file: name,
            cause: Cause::Stop(stop),
            refused: Some(RefusedModel::new(bytes, opts)),
            column: None,
        }),
    }
}

/// The model of a model file, for tests of so many parameters, with the notes on the file (PICT's guide).
///
/// # Errors
///
/// As those of `read_model_text`.
pub fn read_model_file<'n, F: Folder>(
    alloc: Global,
    file: &'n ModelFile,
    strength: Strength,
    files: &mut F,
) -> Result<(TestModel, NoteList), Failure<'n>>
    requires marks { AreMarks file.now.marks }
    requires strength { IsStrength strength }
    ensures model { IfOk result (λ read. IsSound read.0 × IfSome ((F.seen files.old).files file.now.name)
        (λ held. IsLoaded (opts_of file.now strength) held read.0 read.1)) }
    ensures stops { IfErr result (λ failure. IfSome ((F.seen files.old).files file.now.name)
        (λ held. StopsModel (opts_of file.now strength) held failure.cause)) }
    ensures files { KeepsFiles (F.seen files.old) (F.seen files.new) }
{
    let ModelText {
        bytes: _,
        marks: _,
        model,
        notes,
    } = read_model_text(alloc, file, strength, files)?;
    Ok((model, notes))
}
