ghost use Rattle.std.specs.Prelude.{◌≡◌, ◌<◌, ◌^◌, ◌∷◌, [], true, false, Some, None, All, length, map, replicate, if◌then◌else◌, IfOk};
ghost use Rattle.cov_model.specs.Fits.{FitsModel};
ghost use Rattle.cov_model.specs.Preference.{OrdersValues};
ghost use Rattle.definitions.specs.declared.effort.Effort.TheVariants as efforts;
ghost use Rattle.definitions.specs.believed.Covering.{IsUnserved};
ghost use Rattle.cov_model.specs.believed.Tuples.{cells_of};
ghost use Rattle.definitions.specs.SliceRows.{IsSliceOf};
ghost use Rattle.definitions.specs.believed.SuiteProof.{IsEagerTree};
ghost use Rattle.feasibility.specs.Refuting.{earlier_tuples};
ghost use Rattle.refutation.specs.believed.Proofs.{format_of};
ghost use Rattle.refutation.specs.Proofs.{meant};
ghost use Rattle.ipog_grow.specs.Asking.{Grows, IsAsker, Told, extends, first_spent};
ghost use Rattle.ipog_grow.specs.Completing.{completed};
ghost use Rattle.ipog_grow.specs.Omissions.{IsOmittedIn};

use crate::stop::Stop;
use cov_model::{Cells, Prefs, Slice, TestModel, Tuple};
use definitions::Effort;
use feasibility::{Answer, RefuteFault};
use full_search::Questions;
use refutation::{Omissions, TreeBuf};
use std::alloc::Global;
use std::marker::Model;
use value_text::NoMemory;

// Asks whether partial rows of a slice are extendable, and keeps the question that costs more than it
// may. Contracts see what decides the answers, and that question.
pub(crate) struct Asker<'a> {
    questions: Questions<'a>,
    question: Cells,
}

// Its questions are dropped here, and not anew wherever a growth may end.
impl Drop for Asker<'_> {
    fn drop(self) {
        let Asker {
            questions: _,
            question: _,
        } = self;
    }
}

impl<'a> Model for Asker<'a> {
    ghost use Rattle.std.specs.Prelude.{◌≡◌, length};
    ghost use Rattle.std.specs.Coded.{codes};
    ghost use Rattle.cov_model.specs.contracts.model.TestModel as tested;
    ghost use Rattle.ipog_grow.specs.Asking.{AskerView, IsAsker};

    ghost Value = { AskerView };

    ghost coded = { Prim.hlevel (codes, tested.the_row.coded) };

    ghost view = { λ a. record { context = a.questions; question = a.question } };

    ghost invariant = { λ a. IsAsker (record { context = a.questions; question = a.question }) };
}

impl<'a> Asker<'a> {
    // For this slice of the model, which has to be one of the model's; the preferences have to be
    // the model's too.
    pub(crate) fn new(
        alloc: Global,
        model: &'a TestModel,
        prefs: &'a Prefs,
        slice: Slice,
        effort: Effort,
    ) -> Result<Asker<'a>, NoMemory>
        requires slice { IsSliceOf model.now slice }
        requires orders { OrdersValues model.now prefs.now }
        ensures { IfOk result (λ asker. asker.context ≡ record { model = model.now; prefs = prefs.now; slice = slice; effort = effort }) }
    {
        let question = Cells::empty(alloc, model.params().len())?;
        let questions = Questions::new(alloc, model, prefs, slice, effort)?;
        Ok(Asker {
            questions,
            question,
        })
    }

    // Says again what is kept of the slice and of the question. Does nothing when it runs.
    pub(crate) fn assert_invariant(&self)
        ensures { IsAsker self.now }
    {
        // a use of a field brings into a proof what the type keeps
        let _ = &self.questions;
    }

    // Whether a partial row of the slice is extendable.
    pub(crate) fn ask(&mut self, cells: &Cells) -> Result<bool, Stop>
        requires { Grows self.old.context cells.now }
        ensures asked { Told result self.new.question (first_spent self.old.context (cells.now ∷ [])) }
        ensures value { IfOk result (λ yes. yes ≡ extends self.old.context cells.now) }
        ensures same { self.new.context ≡ self.old.context }
    {
        match self.questions.ask(cells) {
            Answer::Yes => Ok(true),
            Answer::No => Ok(false),
            Answer::Spent => {
                self.question.copy_from(cells);
                Err(Stop::Spent)
            }
        }
    }

    // Whether it can be told at once that a partial row of the slice isn't extendable. Without a budget every
    // question is answered at any time; within one they are asked in the order of growth, and nothing is told.
    pub(crate) fn rules_out(&mut self, cells: &Cells) -> bool
        requires { Grows self.old.context cells.now }
        ensures full { result ≡ true → self.old.context.effort ≡ efforts.Full }
        ensures fails { result ≡ true → extends self.old.context cells.now ≡ false }
        ensures same { self.new ≡ self.old }
    {
        match self.questions.effort() {
            Effort::Within(_) => false,
            Effort::Full => matches!(self.questions.ask(cells), Answer::No),
        }
    }

    // Whether a partial row of the slice is extendable; where it is, the other cells become its
    // first completion.
    pub(crate) fn complete(&mut self, cells: &Cells, into: &mut Cells) -> Result<bool, Stop>
        requires grows { Grows self.old.context cells.now }
        requires room { length into.old ≡ length self.old.context.model.params }
        ensures asked { Told result self.new.question (first_spent self.old.context (cells.now ∷ [])) }
        ensures completed { IfOk result (λ found. completed self.old.context cells.now ≡ (if found then Some into.new else None)) }
        ensures room { length into.new ≡ length into.old }
        ensures same { self.new.context ≡ self.old.context }
    {
        match self.questions.complete(cells, into) {
            Answer::Yes => Ok(true),
            Answer::No => Ok(false),
            Answer::Spent => {
                self.question.copy_from(cells);
                Err(Stop::Spent)
            }
        }
    }

    // An eager tree that refutes an omitted tuple of the slice after the tuples of earlier omissions,
    // which no row serves either.
    pub(crate) fn refute(
        &mut self,
        alloc: Global,
        tuple: &Tuple,
        earlier: &Omissions,
    ) -> Result<TreeBuf, NoMemory>
        requires omitted { IsOmittedIn self.old.context (cells_of (length self.old.context.model.params) tuple.now) }
        requires fit { All (FitsModel self.old.context.model) (earlier_tuples self.old.context.model earlier.now) }
        requires unserved { All (IsUnserved self.old.context.model) (earlier_tuples self.old.context.model earlier.now) }
        requires few { length earlier.now.omissions < 2 ^ 32 }
        ensures tree { IfOk result (λ tree. IsEagerTree self.old.context.model self.old.context.prefs self.old.context.effort (format_of earlier.now.form)
            (earlier_tuples self.old.context.model earlier.now) (cells_of (length self.old.context.model.params) tuple.now) (map meant tree)) }
        ensures same { self.new.context ≡ self.old.context }
    {
        let mut tree = TreeBuf::new(alloc);
        match self.questions.refute(tuple, earlier, &mut tree) {
            Ok(()) => Ok(tree),
            Err(RefuteFault::NoMemory) => Err(NoMemory),
            // the tuple was asked before, and didn't cost more than it may
            Err(RefuteFault::Spent) => unreachable!(),
        }
    }

    // The last question that cost more than it may.
    pub(crate) fn question(&self) -> &Cells
        ensures value { result.now ≡ self.now.question }
        ensures long { length result.now ≡ length self.now.context.model.params }
    {
        &self.question
    }
}
