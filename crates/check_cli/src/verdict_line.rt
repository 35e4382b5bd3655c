ghost use Rattle.std.specs.Prelude.{◌≡◌, ◌++◌, codes, decimal};
ghost use Rattle.outside_io.specs.believed.Puts.{Puts};
ghost use Rattle.definitions.specs.believed.Pairs.{pairs_text};
ghost use Rattle.definitions.specs.believed.Verdict.{verdict_text};
ghost use Rattle.definitions.specs.believed.Verdict as defined;
ghost use Rattle.check_cli.specs.believed.Runs.{answer_status};
ghost use Rattle.check_cli.specs.Runs.{answer_text};

use command_line::put_pairs;
use cov_model::Tuple;
use itoa::Buffer;
use outside_io::{Sink, WriteAnswer, put_pieces};
use proof_check::Verdict;

// Writes the line of an accepted report and proof.
fn put_accepted<O: Sink>(rows: u32, omissions: u32, out: &mut O) -> WriteAnswer
    ensures { Puts result (O.seen out.old) (O.seen out.new) (verdict_text (defined.Accepted rows omissions)) }
{
    let mut of_rows = Buffer::new();
    let mut of_omissions = Buffer::new();
    let rows = of_rows.format(rows);
    let omissions = of_omissions.format(omissions);
    put_pieces(
        out,
        &["accepted: ", rows, " rows, ", omissions, " omissions\n"],
    )
}

// Writes the line of a refusal at a line of the report or the proof, by the texts around the line's number.
fn put_refused<O: Sink>(file: &str, line: u32, reason: &str, out: &mut O) -> WriteAnswer
    ensures { Puts result (O.seen out.old) (O.seen out.new) (file.now ++ decimal line ++ reason.now) }
{
    let mut buffer = Buffer::new();
    let number = buffer.format(line);
    put_pieces(out, &[file, number, reason])
}

// Writes the line of a tuple that is neither served nor listed.
fn put_uncovered<O: Sink>(tuple: &Tuple, out: &mut O) -> WriteAnswer
    ensures { Puts result (O.seen out.old) (O.seen out.new) (codes "refused: uncovered " ++ pairs_text tuple.now ++ codes "\n") }
{
    match put_pieces(out, &["refused: uncovered "]) {
        WriteAnswer::Done => {}
        WriteAnswer::Failed => return WriteAnswer::Failed,
    }
    match put_pairs(out, tuple.as_slice()) {
        WriteAnswer::Done => put_pieces(out, &["\n"]),
        WriteAnswer::Failed => WriteAnswer::Failed,
    }
}

/// The exit status of a run with this verdict.
pub(crate) fn status_of_verdict(verdict: &Verdict) -> u8
    ensures { result ≡ answer_status verdict.now }
{
    match verdict {
        Verdict::Accepted(..) => 0,
        Verdict::BadRow(_)
        | Verdict::BadProof(_)
        | Verdict::BadOmission(_)
        | Verdict::Uncovered(_) => 10,
    }
}

/// Writes the line of a verdict. Takes no memory.
pub fn put_verdict<O: Sink>(verdict: &Verdict, out: &mut O) -> WriteAnswer
    ensures { Puts result (O.seen out.old) (O.seen out.new) (answer_text verdict.now) }
{
    match verdict {
        Verdict::Accepted(rows, omissions) => put_accepted(*rows, *omissions, out),
        Verdict::BadRow(line) => put_refused(
            "refused: report line ",
            *line,
            ": not a valid row\n",
            out,
        ),
        Verdict::BadProof(line) => put_refused(
            "refused: proof line ",
            *line,
            ": not a proof line\n",
            out,
        ),
        Verdict::BadOmission(line) => put_refused(
            "refused: proof line ",
            *line,
            ": the tree does not refute the tuple\n",
            out,
        ),
        Verdict::Uncovered(tuple) => put_uncovered(tuple, out),
    }
}
