ghost use Rattle.std.specs.Prelude.{◌≡◌};
ghost use Rattle.jeldroft_lint.specs.believed.Remarks.{place_of};

use crate::kind::Kind;
use model_lint::RuleNumbers;
use value_text::Text;

/// Something that is told of a model.
#[derive(Drop)]
pub struct Remark {
    /// What it is.
    pub kind: Kind,
    /// The line of the model file that it is about, from 1; 0 where it is about none.
    pub line: u32,
    /// The column, in characters from 1, of what it is about in this line; 0 where none is known.
    pub column: u32,
    /// The name of the parameter that it is about, if it is about one.
    pub parameter: Option<Text>,
    /// The first name of the value that it is about, if it is about one.
    pub value: Option<Text>,
    /// The numbers of the constraints that it is about.
    pub constraints: RuleNumbers,
    /// What is told in words.
    pub words: Text,
}

impl Remark {
    // Its place among all that is told: by its line, then by its kind.
    pub(crate) fn place(&self) -> u64
        ensures { result ≡ place_of self.now }
    {
        u64::from(self.line) * 16 + u64::from(self.kind.rank())
    }
}
