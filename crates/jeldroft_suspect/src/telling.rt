use crate::told::Told;
use jeldroft_args::Suspect;
use jeldroft_files::Failure;
use jeldroft_words::{tell_failure, tell_notes};
use model_lex::NoteList;
use outside_io::{Sink, put_pieces};
use std::alloc::Global;

// Tells why the command ended without what it is asked for.
fn tell_end<E: Sink>(
    alloc: Global,
    args: &Suspect,
    told: &Told,
    failure: &Failure<'_>,
    diag: &mut E,
) {
    match &told.refusal {
        Some(words) => {
            let _ = put_pieces(diag, &[args.results.as_str(), words.as_str()]);
        }
        None => tell_failure(alloc, failure, diag),
    }
}

/// Tells what was found in the files, and why the command ended without what it is asked for, if it did.
pub(crate) fn tell<E: Sink>(
    alloc: Global,
    args: &Suspect,
    model_notes: &NoteList,
    told: &Told,
    end: &Result<(), Failure<'_>>,
    diag: &mut E,
) {
    tell_notes(args.model.name.as_str(), model_notes.as_slice(), diag);
    tell_notes(args.results.as_str(), told.notes.as_slice(), diag);
    if let Err(failure) = end {
        tell_end(alloc, args, told, failure, diag);
    }
}
