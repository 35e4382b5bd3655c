ghost use Rattle.std.specs.Prelude.{◌≡◌, option_map};
ghost use Rattle.pict_cli.specs.believed.Modes.{mode_in, mode_of, output_of, row_file, rows_beside};
ghost use Rattle.pict_cli.specs.Options.{mode_seen, output_seen, settings_seen};

use crate::options::Opts;

/// What is printed of a suite that is generated (PICT's guide).
#[derive(Drop, Clone, Copy)]
pub(crate) enum Output {
    /// Its report.
    Report,
    /// Its statistics.
    Statistics,
}

/// What a run does, by its words.
#[derive(Drop, Clone, Copy)]
pub(crate) enum Mode<'w> {
    /// It generates a suite, of a model file or of a made model.
    Generate(Output),
    /// It measures the suite of the file of this name.
    Measure(&'w str),
    /// It looks for suspicious tuples in the results of the file of this name.
    Suspect(&'w str),
}

impl<'w> Opts<'w> {
    // What is printed of a suite.
    fn output(&self) -> Output
        ensures { output_seen result ≡ output_of (settings_seen self.now) }
    {
        if self.stats {
            Output::Statistics
        } else {
            Output::Report
        }
    }

    // What a run on a model file does.
    fn mode_on_file(&self) -> Mode<'w>
        ensures { mode_seen result ≡ mode_in (settings_seen self.now).suspect (settings_seen self.now).measure (output_of (settings_seen self.now)) }
    {
        match (self.suspect, self.measure) {
            (Some(name), _) => Mode::Suspect(name),
            (None, Some(name)) => Mode::Measure(name),
            (None, None) => Mode::Generate(self.output()),
        }
    }

    /// What the run does: one that makes its model prints statistics.
    pub(crate) fn mode(&self) -> Mode<'w>
        ensures { mode_seen result ≡ mode_of (settings_seen self.now) }
    {
        match self.make {
            Some(_) => Mode::Generate(Output::Statistics),
            None => self.mode_on_file(),
        }
    }

    // The name of the file of seed rows, where there is one.
    fn seed_file(&self) -> Option<&'w str>
        ensures { option_map (λ name. name.now) result ≡ rows_beside (settings_seen self.now).make (settings_seen self.now).seeds }
    {
        match self.make {
            Some(_) => None,
            None => self.seeds,
        }
    }

    /// The name of the row file, where the run has one.
    pub(crate) fn row_file(&self) -> Option<&'w str>
        ensures { option_map (λ name. name.now) result ≡ row_file (settings_seen self.now) }
    {
        match self.mode() {
            Mode::Generate(_) => self.seed_file(),
            Mode::Measure(name) | Mode::Suspect(name) => Some(name),
        }
    }
}
