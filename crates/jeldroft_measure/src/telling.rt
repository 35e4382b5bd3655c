use jeldroft_args::Measure;
use jeldroft_files::Failure;
use jeldroft_words::FileNotes;
use outside_io::Sink;
use std::alloc::Global;

/// Tells what was found in the files, and why the command ended without what it is asked for, if it did.
pub(crate) fn tell<E: Sink>(
    alloc: Global,
    args: &Measure,
    notes: &FileNotes,
    end: &Result<(), Failure<'_>>,
    diag: &mut E,
) {
    notes.tell_model(alloc, args.model.name.as_str(), diag);
    notes.tell_table(args.table.as_str(), diag);
    if let Err(failure) = end {
        notes.tell_failure(alloc, failure, diag);
    }
}
