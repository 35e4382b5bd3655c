ghost use Rattle.std.specs.Prelude.{◌≡◌, ◌≤◌, IfErr, IfOk, IfSome};
ghost use Rattle.outside_io.specs.believed.Seen.{KeepsFiles};
ghost use Rattle.jeldroft_args.specs.Ranges.{AreMarks};
ghost use Rattle.jeldroft_files.specs.believed.Models.{StopsModel};
ghost use Rattle.jeldroft_lint.specs.Linting.{IsAnswer, IsReport};
ghost use Rattle.jeldroft_lint.specs.believed.Linting.{lint_opts, status_with, text_of};
ghost use Rattle.jeldroft_lint.specs.believed.Remarks.{Tells};

use crate::hints::hints_of;
use crate::lines::lines_of;
use crate::objects::array_of;
use crate::order::in_order;
use crate::remark::Remark;
use crate::remarks::remarks_of;
use jeldroft_args::{FindingFormat, Lint, Strength};
use jeldroft_files::{Failure, ModelText, read_model_text};
use model_findings::findings;
use outside_io::Folder;
use refusal_places::ModelPlaces;
use std::alloc::Global;
use value_text::NoMemory;

// What is printed, and the status that goes with it.
#[derive(Drop)]
pub(crate) struct Report {
    pub(crate) text: Vec<u8>,
    pub(crate) status: u8,
}

// The status that goes with what is told.
fn status_with(told: &[Remark]) -> u8
    ensures { result ≡ status_with told.now }
{
    match told {
        [] => 0,
        [_, ..] => 1,
    }
}

// What is told in the form that is asked for.
fn text_of(alloc: Global, args: &Lint, told: &[Remark]) -> Result<Vec<u8>, NoMemory>
    ensures { IfOk result (λ text. text.items ≡ text_of args.now told.now) }
{
    let file = args.model.name.as_str();
    match args.format {
        FindingFormat::Text => lines_of(alloc, file, told),
        FindingFormat::Json => array_of(alloc, file, told),
    }
}

// What is told of the model of a file, in order.
fn told_of(alloc: Global, file: &ModelText, all: bool) -> Result<Vec<Remark>, NoMemory>
    ensures { IfOk result (λ told. Tells file.now.model all told.items) }
{
    let model = &file.model;
    let places = ModelPlaces::new(alloc, file.bytes.as_slice(), file.marks, model)?;
    let found = findings(alloc, model, all)?;
    let hints = hints_of(alloc, model, &places, file.notes.as_slice(), &found)?;
    let remarks = remarks_of(alloc, model, &places, &found)?;
    in_order(remarks, hints)
}

// What is printed of the model of a file.
fn report_of(alloc: Global, args: &Lint, file: &ModelText) -> Result<Report, NoMemory>
    ensures { IfOk result (λ report. IsReport args.now file.now.model report.text.items report.status) }
{
    let told = told_of(alloc, file, args.all)?;
    let text = text_of(alloc, args, told.as_slice())?;
    let status = status_with(told.as_slice());
    Ok(Report { text, status })
}

// Reads the model file, and gives what is told of its model.
pub(crate) fn answer<'n, F: Folder>(
    alloc: Global,
    args: &'n Lint,
    files: &mut F,
) -> Result<Report, Failure<'n>>
    requires marks { AreMarks args.now.model.marks }
    ensures told { IfOk result (λ report. IfSome ((F.seen files.old).files args.now.model.name) (λ held. IsAnswer args.now held report.text.items report.status)) }
    ensures few { IfOk result (λ report. report.status ≤ 1) }
    ensures stops { IfErr result (λ failure. IfSome ((F.seen files.old).files args.now.model.name) (λ held. StopsModel (lint_opts args.now) held failure.cause)) }
    ensures files { KeepsFiles (F.seen files.old) (F.seen files.new) }
{
    let file = read_model_text(alloc, &args.model, Strength::Number(1), files)?;
    let report = report_of(alloc, args, &file)?;
    Ok(report)
}
