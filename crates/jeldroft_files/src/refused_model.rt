ghost use Rattle.std.specs.Prelude.{◌≤◌, length};
ghost use Rattle.definitions.specs.believed.Limits.{ModelFile, most_bytes};
ghost use Rattle.model_parse.specs.RawModels.{AreOpts};

use model_lex::ModelOpts;
use std::marker::Model;

/// A model file that is refused: what it holds, and how it was read.
#[derive(Drop)]
pub struct RefusedModel {
    bytes: Vec<u8>,
    opts: ModelOpts,
}

impl Model for RefusedModel {
    ghost use Rattle.std.specs.Prelude.{◌≤◌, ℕ, List, length};
    ghost use Rattle.definitions.specs.believed.Limits.{ModelFile, most_bytes};
    ghost use Rattle.model_lex.specs.declared.options.ModelOpts.{ModelOpts};
    ghost use Rattle.model_parse.specs.RawModels.{AreOpts};

    ghost Value = { List ℕ × ModelOpts };

    ghost view = { λ refused. (refused.bytes.items, refused.opts) };

    ghost invariant = { λ refused. (length refused.bytes.items ≤ most_bytes ModelFile) × AreOpts refused.opts };
}

impl RefusedModel {
    /// A file of these bytes, which were read so.
    pub fn new(bytes: Vec<u8>, opts: ModelOpts) -> RefusedModel
        requires within { length bytes.items ≤ most_bytes ModelFile }
        requires opts { AreOpts opts }
    {
        RefusedModel { bytes, opts }
    }

    /// The bytes of the file.
    pub fn bytes(&self) -> &[u8]
        ensures { length result.now ≤ most_bytes ModelFile }
    {
        self.bytes.as_slice()
    }

    /// How they were read.
    pub fn opts(&self) -> &ModelOpts
        ensures { AreOpts result.now }
    {
        &self.opts
    }
}
