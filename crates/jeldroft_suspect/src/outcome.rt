ghost use Rattle.std.specs.Prelude.{◌≡◌};
ghost use Rattle.jeldroft_suspect.specs.believed.Results.{has_failed, has_run, is_word, outcome_of};

/// What became of a test.
#[derive(Debug, Drop, Clone, Copy, PartialEq, Eq)]
pub(crate) enum Outcome {
    /// It passed.
    Passed,
    /// It failed.
    Failed,
    /// It didn't run.
    Skipped,
}

// Whether a word is a known one, in letters of either case.
fn is_word(known: &[u8], word: &[u8]) -> bool
    ensures { result ≡ is_word known.now word.now }
{
    known.eq_ignore_ascii_case(word)
}

impl Outcome {
    /// What became of a test, by its word.
    pub(crate) fn of(word: &[u8]) -> Option<Outcome>
        ensures { result ≡ outcome_of word.now }
    {
        if is_word(b"pass", word) || is_word(b"passed", word) || is_word(b"ok", word) {
            Some(Outcome::Passed)
        } else if is_word(b"fail", word) || is_word(b"failed", word) {
            Some(Outcome::Failed)
        } else if is_word(b"skip", word) || is_word(b"skipped", word) {
            Some(Outcome::Skipped)
        } else {
            None
        }
    }

    /// Whether the test ran.
    pub(crate) fn has_run(self) -> bool
        ensures { result ≡ has_run self }
    {
        match self {
            Outcome::Passed | Outcome::Failed => true,
            Outcome::Skipped => false,
        }
    }

    /// Whether it failed.
    pub(crate) fn has_failed(self) -> bool
        ensures { result ≡ has_failed self }
    {
        match self {
            Outcome::Failed => true,
            Outcome::Passed | Outcome::Skipped => false,
        }
    }
}
