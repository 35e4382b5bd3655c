ghost use Rattle.std.specs.Prelude.{◌≡◌, ◌<◌, ◌≤◌, ◌^◌, ◌-◌, ◌&&◌, ◌==◌, length, nat_le, nat_lt, None, option_map, if◌then◌else◌};
ghost use Rattle.cov_model.specs.believed.Sound.{IsSound, param_at};
ghost use Rattle.definitions.specs.believed.Refutation.{ByOmission};
ghost use Rattle.definitions.specs.believed.ProofText.{number_where, read_pair, read_token};
ghost use Rattle.refutation.specs.Checking.{has_rule};
ghost use Rattle.refutation.specs.believed.Proofs.{format_of};
ghost use Rattle.refutation.specs.Proofs.{meant};

use crate::cutting::split_once;
use crate::numeral::read_number;
use crate::omissions::ProofForm;
use crate::token::TreeToken;
use crate::tree_check::has_rule;
use cov_model::{ParamNo, TestModel, ValueNo};
use std::marker::Model;

/// What pairs and tokens of a proof file are spelled for: a model, and the form of the file.
#[derive(Drop)]
pub(crate) struct Spelling<'a> {
    model: &'a TestModel,
    form: ProofForm,
}

impl<'a> Model for Spelling<'a> {
    ghost use Rattle.std.specs.Coded.{codes};
    ghost use Rattle.cov_model.specs.contracts.model.TestModel as tested;
    ghost use Rattle.refutation.specs.Reading.{SpellingView};

    ghost Value = { SpellingView };

    ghost coded = { Prim.hlevel (codes, tested.the_row.coded) };

    ghost view = { λ a. record { model = a.model.now; form = a.form } };
}

// The number below a bound that a text spells.
fn read_below(text: &[u8], bound: usize) -> Option<u16>
    requires { bound ≤ 2 ^ 16 }
    ensures { result ≡ number_where (λ n. nat_lt n bound) text.now }
{
    let number = read_number(text)?;
    if (number as usize) < bound {
        Some(number as u16)
    } else {
        None
    }
}

// The number of an omission that a text spells, counted from 1.
fn read_place(text: &[u8]) -> Option<u32>
    ensures { result ≡ number_where (λ n. nat_le 1 n && nat_le n (2 ^ 32 - 1)) text.now }
{
    let number = read_number(text)?;
    if number == 0 { None } else { Some(number) }
}

impl<'a> Spelling<'a> {
    // Spellings for a model in a form.
    pub(crate) fn new(model: &'a TestModel, form: ProofForm) -> Spelling<'a>
        ensures { result ≡ record { model = model.now; form = form } }
    {
        Spelling { model, form }
    }

    // The model.
    fn model(&self) -> &'a TestModel
        ensures value { result.now ≡ self.now.model }
        ensures sound { IsSound self.now.model }
    {
        self.model.assert_invariant();
        self.model
    }

    // The form.
    pub(crate) fn form(&self) -> ProofForm
        ensures { result ≡ self.now.form }
    {
        self.form
    }

    // The parameter whose number a text spells.
    fn read_param(&self, text: &[u8]) -> Option<ParamNo>
        ensures { result ≡ number_where (λ p. nat_lt p (length self.now.model.params)) text.now }
    {
        read_below(text, self.model().params().len())
    }

    // The value of a parameter whose number a text spells.
    fn read_value(&self, p: ParamNo, text: &[u8]) -> Option<ValueNo>
        requires { p < length self.now.model.params }
        ensures { result ≡ number_where (λ v. nat_lt v (length (param_at self.now.model.params p).values)) text.now }
    {
        read_below(text, self.model().value_count(p) as usize)
    }

    // The constraint whose number a text spells.
    fn read_rule(&self, text: &[u8]) -> Option<u32>
        ensures { result ≡ number_where (has_rule self.now.model) text.now }
    {
        let model = self.model();
        let number = read_number(text)?;
        if has_rule(model, number) {
            Some(number)
        } else {
            None
        }
    }

    // The pair that a word spells.
    pub(crate) fn read_pair(&self, word: &[u8]) -> Option<(ParamNo, ValueNo)>
        ensures { result ≡ read_pair self.now.model word.now }
    {
        let (param, value) = split_once(word, b'=')?;
        let p = self.read_param(param)?;
        let v = self.read_value(p, value)?;
        Some((p, v))
    }

    // The token that a word spells.
    pub(crate) fn read_token(&self, word: &[u8]) -> Option<TreeToken>
        ensures { option_map meant result ≡ read_token self.now.model (format_of self.now.form) word.now }
    {
        match word {
            [b'B', digits @ ..] => Some(TreeToken::Branch(self.read_param(digits)?)),
            [b'L', digits @ ..] => Some(TreeToken::ByRule(self.read_rule(digits)?)),
            [b'N'] => Some(TreeToken::ByNegative),
            [b'O', digits @ ..] => self.read_citation(digits),
            _ => None,
        }
    }

    // The citation whose number a text spells, where the form has them.
    fn read_citation(&self, text: &[u8]) -> Option<TreeToken>
        ensures { option_map meant result ≡ (if format_of self.now.form == 2 then option_map ByOmission (number_where (λ n. nat_le 1 n && nat_le n (2 ^ 32 - 1)) text.now) else None) }
    {
        if !self.form.may_cite() {
            return None;
        }
        Some(TreeToken::ByOmission(read_place(text)?))
    }
}
