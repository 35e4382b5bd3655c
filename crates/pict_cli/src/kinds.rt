ghost use Rattle.std.specs.Prelude.{◌≡◌, ◌||◌, []};
ghost use Rattle.command_line.specs.Settings.{setting_seen};
ghost use Rattle.pict_cli.specs.Options.{kind_of, kinds_of, joined_kinds, excludes_by_kinds};

use command_line::Setting;

/// What settings are about, for the question which exclude each other.
#[derive(Debug, Drop, Clone, Copy, PartialEq, Eq)]
pub(crate) struct Kinds {
    /// They are for a run that generates.
    pub generating: bool,
    /// They measure a suite.
    pub measuring: bool,
    /// They look for suspicious tuples.
    pub suspecting: bool,
    /// They make a model.
    pub making: bool,
    /// They are about files that a made model doesn't go with.
    pub of_a_file: bool,
}

impl Kinds {
    /// No settings.
    pub(crate) fn none() -> Kinds
        ensures { result ≡ kinds_of [] }
    {
        Kinds {
            generating: false,
            measuring: false,
            suspecting: false,
            making: false,
            of_a_file: false,
        }
    }

    /// What one setting is about.
    pub(crate) fn of(setting: &Setting<'_>) -> Kinds
        ensures { result ≡ kind_of (setting_seen setting.now) }
    {
        match setting {
            Setting::SeedFile(_) => Kinds {
                generating: true,
                of_a_file: true,
                ..Kinds::none()
            },
            Setting::Separator(_) | Setting::Alias(_) | Setting::Prefix(_) => Kinds {
                of_a_file: true,
                ..Kinds::none()
            },
            Setting::ShuffleValues(_)
            | Setting::Statistics
            | Setting::ProofFile(_)
            | Setting::ProofFormat(_) => Kinds {
                generating: true,
                ..Kinds::none()
            },
            Setting::MeasureFile(_) => Kinds {
                measuring: true,
                ..Kinds::none()
            },
            Setting::SuspectFile(_) => Kinds {
                suspecting: true,
                ..Kinds::none()
            },
            Setting::Make(_) => Kinds {
                generating: true,
                making: true,
                ..Kinds::none()
            },
            Setting::Order(_) | Setting::CaseCounts | Setting::Workers(_) | Setting::Budget(_) =>
                Kinds::none(),
        }
    }

    // Whether settings of these kinds leave no place for others.
    fn excludes(self, other: Kinds) -> bool
        ensures { result ≡ excludes_by_kinds self other }
    {
        self.measuring && other.generating
            || self.suspecting && (other.generating || other.measuring)
            || self.making && other.of_a_file
    }

    /// Whether settings of these kinds and others exclude each other.
    pub(crate) fn exclude_each_other(self, other: Kinds) -> bool
        ensures { result ≡ (excludes_by_kinds self other || excludes_by_kinds other self) }
    {
        self.excludes(other) || other.excludes(self)
    }

    /// What these settings and others are about together.
    pub(crate) fn join(self, other: Kinds) -> Kinds
        ensures { result ≡ joined_kinds self other }
    {
        Kinds {
            generating: self.generating || other.generating,
            measuring: self.measuring || other.measuring,
            suspecting: self.suspecting || other.suspecting,
            making: self.making || other.making,
            of_a_file: self.of_a_file || other.of_a_file,
        }
    }
}
