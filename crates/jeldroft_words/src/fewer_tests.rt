ghost use Rattle.outside_io.specs.believed.Puts.{Puts};
ghost use Rattle.jeldroft_words.specs.believed.Sums.{TellsLast, met_line, open_line, sum_line};

use itoa::Buffer;
use outside_io::{Sink, WriteAnswer, put_pieces};

/// Tests in place of given ones: how many there were and are, and how many any suite with their coverage needs at least.
#[derive(Debug, Drop, Clone, Copy, PartialEq, Eq)]
pub struct FewerTests {
    /// The given tests.
    pub given: usize,
    /// The tests in their place.
    pub tests: usize,
    /// No suite with this coverage has fewer tests.
    pub least: u64,
}

// Sums up: how many tests there are in place of how many, where no suite is shorter.
fn tell_met<E: Sink>(tests: usize, given: usize, diag: &mut E) -> WriteAnswer
    ensures { Puts result (E.seen diag.old) (E.seen diag.new) (met_line tests given) }
{
    let mut tests_buffer = Buffer::new();
    let mut given_buffer = Buffer::new();
    put_pieces(
        diag,
        &[
            tests_buffer.format(tests),
            " tests in place of ",
            given_buffer.format(given),
            "; no suite with this coverage is shorter\n",
        ],
    )
}

// Sums up: how many tests there are in place of how many, and how many are needed at least.
fn tell_open<E: Sink>(tests: usize, given: usize, least: u64, diag: &mut E) -> WriteAnswer
    ensures { Puts result (E.seen diag.old) (E.seen diag.new) (open_line tests given least) }
{
    let mut tests_buffer = Buffer::new();
    let mut given_buffer = Buffer::new();
    let mut least_buffer = Buffer::new();
    put_pieces(
        diag,
        &[
            tests_buffer.format(tests),
            " tests in place of ",
            given_buffer.format(given),
            "; at least ",
            least_buffer.format(least),
            " are needed for this coverage\n",
        ],
    )
}

// Sums up.
fn tell_numbers<E: Sink>(numbers: FewerTests, diag: &mut E) -> WriteAnswer
    ensures { Puts result (E.seen diag.old) (E.seen diag.new) (sum_line numbers.tests numbers.given numbers.least) }
{
    if numbers.tests as u64 == numbers.least {
        return tell_met(numbers.tests, numbers.given, diag);
    }
    tell_open(numbers.tests, numbers.given, numbers.least, diag)
}

/// Writes the line that sums up fewer tests: how many there are in place of how many, and how many any suite with this
/// coverage needs at least.
pub fn tell_fewer<E: Sink>(numbers: FewerTests, diag: &mut E)
    ensures { TellsLast (sum_line numbers.tests numbers.given numbers.least) (E.seen diag.new) }
{
    let _ = tell_numbers(numbers, diag);
}
