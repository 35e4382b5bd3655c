use crate::finding::Finding;
use model_lex::Note;
use outside_io::Sink;

/// Writes the warnings on the file of this name, by their lines.
pub fn tell_notes<E: Sink>(file: &str, notes: &[Note], diag: &mut E) {
    for note in notes {
        let mut finding = Finding::on(diag, file);
        finding.place(note.line);
        finding.text(": warning: ");
        finding.text(note.code.text());
        finding.code(note.code.code());
    }
}
