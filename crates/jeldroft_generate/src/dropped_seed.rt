ghost use Rattle.std.specs.Prelude.{All};
ghost use Rattle.cov_model.specs.Fits.{FitsModel};

use cov_model::TestModel;
use ipog_grow::LineList;
use jeldroft_words::{forbidding_rule, tell_dropped_seed, tell_forbidden_seed};
use outside_io::Sink;
use row_text::{FileRow, RowFile};
use std::alloc::Global;
use value_text::{NoMemory, OwnedList};

/// A seed that isn't kept.
#[derive(Debug, Drop, Clone, Copy, PartialEq, Eq)]
pub(crate) struct DroppedSeed {
    // Its line.
    line: u32,
    // The number of a constraint that forbids it by itself, and the line where that begins, if there is one.
    rule: Option<(u32, u32)>,
}

impl DroppedSeed {
    // This seed.
    fn of(model: &TestModel, seed: &FileRow) -> DroppedSeed
        requires { FitsModel model.now seed.now.cells }
    {
        let rule = match forbidding_rule(model, &seed.cells) {
            Some(rule) => Some((rule.number, rule.line)),
            None => None,
        };
        DroppedSeed {
            line: seed.line,
            rule,
        }
    }

    /// Writes the warning on it.
    pub(crate) fn tell<E: Sink>(&self, file: &str, diag: &mut E) {
        match self.rule {
            Some((number, at)) => tell_forbidden_seed(file, self.line, number, at, diag),
            None => tell_dropped_seed(file, self.line, diag),
        }
    }
}

/// The seeds in these lines, which rise as the seeds do.
pub(crate) fn dropped_seeds(
    alloc: Global,
    model: &TestModel,
    seeds: &RowFile,
    lines: &LineList,
) -> Result<OwnedList<DroppedSeed>, NoMemory>
    requires { All (λ seed. FitsModel model.now seed.cells) seeds.now.rows }
{
    let mut dropped = OwnedList::new(alloc);
    let mut rest = lines.as_slice();
    for seed in seeds.rows.as_slice() {
        if let [line, behind @ ..] = rest {
            if *line == seed.line {
                dropped.push(DroppedSeed::of(model, seed))?;
                rest = behind;
            }
        }
    }
    Ok(dropped)
}
