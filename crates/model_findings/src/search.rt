ghost use Rattle.std.specs.Prelude.{◌≡◌, IfOk};
ghost use Rattle.cov_model.specs.Preference.{OrdersValues};
ghost use Rattle.model_findings.specs.Answers.{is_yes};

use cov_model::{Cells, Prefs, Slice, TestModel};
use definitions::Effort;
use feasibility::Answer;
use full_search::Questions;
use model_lint::{Asker, Completer, Sought};
use std::alloc::Global;
use std::marker::Model;
use value_text::NoMemory;

// Whether an answer is yes.
fn is_yes(answer: Answer) -> bool
    ensures { result ≡ is_yes answer }
{
    match answer {
        Answer::Yes => true,
        Answer::No | Answer::Spent => false,
    }
}

// Completes partial rows by the search that answers every question, made anew for each.
#[derive(Drop)]
pub(crate) struct FullCompleter;

impl Completer for FullCompleter {
    fn complete(
        &self,
        alloc: Global,
        sought: &Sought<'_>,
        cells: &Cells,
        into: &mut Cells,
    ) -> Result<bool, NoMemory> {
        let mut questions = Questions::new(
            alloc,
            sought.model,
            sought.prefs,
            sought.slice,
            Effort::Full,
        )?;
        Ok(is_yes(questions.complete(cells, into)))
    }
}

// Answers every question about the positive slice of a model, by one search. Contracts see the model.
#[derive(Drop)]
pub(crate) struct FullAsker<'a> {
    questions: Questions<'a>,
}

impl<'a> Model for FullAsker<'a> {
    ghost use Rattle.std.specs.Prelude.{◌≡◌};
    ghost use Rattle.std.specs.Coded.{codes};
    ghost use Rattle.cov_model.specs.contracts.model.TestModel as tested;
    ghost use Rattle.cov_model.specs.declared.slice.Slice.TheVariants.{Positive};
    ghost use Rattle.cov_model.specs.believed.Sound.{ModelView};
    ghost use Rattle.definitions.specs.declared.effort.Effort.TheVariants.{Full};

    ghost Value = { ModelView };

    ghost coded = { Prim.hlevel (codes, tested.the_row.coded) };

    ghost view = { λ a. a.questions.model };

    ghost invariant = { λ a. (a.questions.slice ≡ Positive) × (a.questions.effort ≡ Full) };
}

impl<'a> FullAsker<'a> {
    // For this model; the preferences have to be the model's.
    pub(crate) fn new(
        alloc: Global,
        model: &'a TestModel,
        prefs: &'a Prefs,
    ) -> Result<FullAsker<'a>, NoMemory>
        requires { OrdersValues model.now prefs.now }
        ensures { IfOk result (λ asker. asker ≡ model.now) }
    {
        let questions = Questions::new(alloc, model, prefs, Slice::Positive, Effort::Full)?;
        Ok(FullAsker { questions })
    }
}

impl<'a> Asker for FullAsker<'a> {
    ghost about = { λ asker. asker };

    fn ask(&mut self, cells: &Cells) -> bool {
        self.questions.ask(cells) == Answer::Yes
    }
}
