ghost use Rattle.std.specs.Prelude.{◌≡◌, true, Some, IfOk, length};
ghost use Rattle.cov_model.specs.Preference.{OrdersValues};
ghost use Rattle.cov_model.specs.believed.Sound.{ModelView};
ghost use Rattle.definitions.specs.believed.Completion.{first_completion, is_extendable};
ghost use Rattle.definitions.specs.SliceRows.{IsOfSlice, IsSliceOf};

use cov_model::{Cells, Prefs, Slice, TestModel};
use std::alloc::Global;
use value_text::NoMemory;

/// A slice of a model, and the orders in which values are tried.
#[derive(Drop)]
pub struct Sought<'a> {
    /// The model.
    pub model: &'a TestModel,
    /// The preference orders.
    pub prefs: &'a Prefs,
    /// The slice.
    pub slice: Slice,
}

/// Completes partial rows of slices of any models, by a search that answers every question.
pub trait Completer {
    /// Whether a partial row of a slice is extendable there. Where it is, the other cells become the first of its
    /// completions that meets every constraint.
    ///
    /// # Errors
    ///
    /// `NoMemory` where memory is refused.
    fn complete(
        &self,
        alloc: Global,
        sought: &Sought<'_>,
        cells: &Cells,
        into: &mut Cells,
    ) -> Result<bool, NoMemory>
        requires slice { IsSliceOf sought.now.model.now sought.now.slice }
        requires orders { OrdersValues sought.now.model.now sought.now.prefs.now }
        requires of { IsOfSlice sought.now.model.now sought.now.slice cells.now }
        requires long { length into.old ≡ length sought.now.model.now.params }
        ensures found { IfOk result (λ found. found ≡ is_extendable sought.now.model.now sought.now.slice cells.now) }
        ensures completed { IfOk result (λ found. found ≡ true
            → Some into.new ≡ first_completion sought.now.model.now sought.now.prefs.now sought.now.slice cells.now) }
        ensures long { length into.new ≡ length into.old };
}

/// Answers questions about the positive slice of one model.
pub trait Asker {
    /// The model.
    ghost about: { Self → ModelView };

    /// Whether a partial row of the positive slice is extendable there.
    fn ask(&mut self, cells: &Cells) -> bool
        requires { IsOfSlice (about self.old) Slice.Positive cells.now }
        ensures answer { result ≡ is_extendable (about self.old) Slice.Positive cells.now }
        ensures same { about self.new ≡ about self.old };
}
