//! Hints: what the form of a line gives.
ghost use Rattle.std.specs.Prelude.{◌≡◌, true, All, IfOk};
ghost use Rattle.jeldroft_lint.specs.believed.Kinds.{is_hint};

use crate::hint_list::{About, HintList};
use crate::kind::Kind;
use crate::likeness::{looks_like_constraint, looks_like_weight};
use crate::naming::later_named;
use crate::remark::Remark;
use cov_model::{Literal, Param, ParamNo, Rule, Term, TestModel, Value};
use finding_words::{first_name, literal_words, rule_line, value_words};
use model_findings::{Finding, FindingList, compares, passes_without_comparisons, terms_of};
use model_lex::{Note, NoteCode};
use model_lint::{RuleNumbers, UnusedValue};
use refusal_places::ModelPlaces;
use std::alloc::Global;
use value_text::NoMemory;

// A model about which hints are added.
#[derive(Drop)]
struct Hinted<'a> {
    alloc: Global,
    model: &'a TestModel,
    places: &'a ModelPlaces<'a>,
}

// Whether a note is on a name of a value that stands in the line of a parameter a second time.
fn is_repeated(note: &Note, param: &Param) -> bool {
    note.line == param.line && note.code == NoteCode::RepeatedValueName
}

impl Hinted<'_> {
    // The first of some constraints that compares values of a parameter; 0 where none does.
    fn first_comparing(&self, numbers: &RuleNumbers, p: ParamNo) -> Result<u32, NoMemory> {
        for number in numbers.as_slice() {
            let Some(rule) = self.model.rules().get((*number as usize).saturating_sub(1)) else {
                continue;
            };
            let terms = terms_of(self.alloc, &rule.body)?;
            if terms.as_slice().iter().any(|term| compares(term, p)) {
                return Ok(*number);
            }
        }
        Ok(0)
    }

    // Adds that a constraint keeps an invalid value from every test.
    fn add_kept_out(
        &self,
        param: &Param,
        value: &Value,
        number: u32,
        list: &mut HintList,
    ) -> Result<(), NoMemory> {
        let name = param.name.as_str();
        let shown = value_words(self.alloc, self.model, value)?;
        let words = format!(in self.alloc;
            "constraint {number} keeps the invalid value {shown} of {name} from every test; IF ISPOSITIVE([{name}]) THEN before each constraint that compares {name} would let it pass"
        )?;
        let about = About {
            line: rule_line(self.model, number),
            column: self.places.constraint(number),
            parameter: Some(name),
            value: Some(first_name(value)),
            constraint: Some(number),
        };
        list.add(self.alloc, Kind::ConstraintOnInvalid, about, words.as_str())
    }

    // Adds which constraint keeps a value from every test, if it is invalid and in one without the constraints that
    // compare values of its parameter.
    fn add_unused(&self, one: &UnusedValue, list: &mut HintList) -> Result<(), NoMemory> {
        let (p, v) = (one.parameter, one.value);
        let Some(param) = self.model.params().get(p as usize) else {
            return Ok(());
        };
        let Some(value) = param.values.get(v as usize) else {
            return Ok(());
        };
        if !value.negative || !passes_without_comparisons(self.alloc, self.model, p, v)? {
            return Ok(());
        }
        let number = self.first_comparing(&one.constraints, p)?;
        self.add_kept_out(param, value, number, list)
    }

    // Adds the hints on values that are in no test.
    fn add_each_unused(&self, found: &FindingList, list: &mut HintList) -> Result<(), NoMemory> {
        for finding in found.as_slice() {
            if let Finding::ValueInNoTest(one) = finding {
                self.add_unused(one, list)?;
            }
        }
        Ok(())
    }

    // Adds the names of values that stand in the line of a parameter a second time, of which the reading of the file noted
    // each.
    fn add_repeated(
        &self,
        param: &Param,
        notes: &[Note],
        list: &mut HintList,
    ) -> Result<(), NoMemory> {
        let count = notes.iter().filter(|note| is_repeated(note, param)).count();
        if count == 0 {
            return Ok(());
        }
        let columns = self.places.repeated_names(self.alloc, param)?;
        for i in 0..count {
            let about = About {
                line: param.line,
                column: columns.get(i).copied().unwrap_or(0),
                parameter: Some(param.name.as_str()),
                value: None,
                constraint: None,
            };
            let words = "a name of a value stands here a second time, and is dropped";
            list.add(self.alloc, Kind::SameValueTwice, about, words)?;
        }
        Ok(())
    }

    // Adds that the line of a parameter looks like a constraint.
    fn add_likeness(&self, param: &Param, list: &mut HintList) -> Result<(), NoMemory> {
        let name = param.name.as_str();
        if !looks_like_constraint(name) {
            return Ok(());
        }
        let words = format!(in self.alloc;
            "\"{name}\" is a parameter; the line of a constraint has names in brackets, as IF [Name] = .."
        )?;
        let about = About {
            line: param.line,
            column: self.places.parameter(param),
            parameter: Some(name),
            value: None,
            constraint: None,
        };
        list.add(self.alloc, Kind::LooksLikeConstraint, about, words.as_str())
    }

    // Adds that a name of a value looks as if it had a weight.
    fn add_weight(&self, param: &Param, name: &str, list: &mut HintList) -> Result<(), NoMemory> {
        if !looks_like_weight(name) {
            return Ok(());
        }
        let words = format!(in self.alloc;
            "\"{name}\" is the whole name of a value; a weight is a whole number from 1 on"
        )?;
        let about = About {
            line: param.line,
            column: self.places.value_name(self.alloc, param, name)?,
            parameter: Some(param.name.as_str()),
            value: Some(name),
            constraint: None,
        };
        list.add(self.alloc, Kind::LooksLikeWeight, about, words.as_str())
    }

    // Adds the names of values that look so.
    fn add_weights(&self, param: &Param, list: &mut HintList) -> Result<(), NoMemory> {
        for value in param.values.as_slice() {
            for name in value.names.as_slice() {
                self.add_weight(param, name.as_str(), list)?;
            }
        }
        Ok(())
    }

    // Adds that a parameter has one value.
    fn add_single(&self, param: &Param, list: &mut HintList) -> Result<(), NoMemory> {
        if param.values.len() != 1 {
            return Ok(());
        }
        let name = param.name.as_str();
        let words = format!(in self.alloc; "{name} has one value, which each test has")?;
        let about = About {
            line: param.line,
            column: self.places.parameter(param),
            parameter: Some(name),
            value: None,
            constraint: None,
        };
        list.add(self.alloc, Kind::SingleValue, about, words.as_str())
    }

    // Adds the hints on parameters.
    fn add_params(&self, notes: &[Note], list: &mut HintList) -> Result<(), NoMemory> {
        for param in self.model.params().as_slice() {
            self.add_repeated(param, notes, list)?;
            self.add_likeness(param, list)?;
            self.add_weights(param, list)?;
            self.add_single(param, list)?;
        }
        Ok(())
    }

    // Adds that a constraint compares with a later name of a value.
    fn add_alias(
        &self,
        rule: &Rule,
        param: &Param,
        literal: &Literal,
        list: &mut HintList,
    ) -> Result<(), NoMemory> {
        let Some(value) = later_named(param, literal, self.model.fold()) else {
            return Ok(());
        };
        let (name, first) = (param.name.as_str(), first_name(value));
        let text = literal_words(self.alloc, literal)?;
        let words = format!(in self.alloc;
            "{text} is a later name of the value {first} of {name}; constraints see the first"
        )?;
        let about = About {
            line: rule.line,
            column: self.places.constraint(rule.number),
            parameter: Some(name),
            value: Some(first),
            constraint: Some(rule.number),
        };
        list.add(self.alloc, Kind::UnusedAlias, about, words.as_str())
    }

    // Adds the same of some literals.
    fn add_aliases(
        &self,
        rule: &Rule,
        p: ParamNo,
        literals: &[Literal],
        list: &mut HintList,
    ) -> Result<(), NoMemory> {
        let Some(param) = self.model.params().get(p as usize) else {
            return Ok(());
        };
        for literal in literals {
            self.add_alias(rule, param, literal, list)?;
        }
        Ok(())
    }

    // Adds the hints on a term of a constraint.
    fn add_term(&self, rule: &Rule, term: &Term, list: &mut HintList) -> Result<(), NoMemory> {
        match term {
            Term::ValueIs(p, _, literal) => match self.model.params().get(*p as usize) {
                Some(param) => self.add_alias(rule, param, literal, list),
                None => Ok(()),
            },
            Term::OneOf(p, literals) => self.add_aliases(rule, *p, literals.as_slice(), list),
            Term::ParamIs(_, _, _) | Term::Like(_, _) | Term::Negative(_) | Term::Positive(_) => Ok(
                (),
            ),
        }
    }

    // Adds the hints on constraints.
    fn add_rules(&self, list: &mut HintList) -> Result<(), NoMemory> {
        for rule in self.model.rules().as_slice() {
            let terms = terms_of(self.alloc, &rule.body)?;
            for term in terms.as_slice() {
                self.add_term(rule, term, list)?;
            }
        }
        Ok(())
    }
}

/// The hints about a model, with the notes on its file and its findings.
pub(crate) fn hints_of(
    alloc: Global,
    model: &TestModel,
    places: &ModelPlaces<'_>,
    notes: &[Note],
    found: &FindingList,
) -> Result<Vec<Remark>, NoMemory>
    ensures { IfOk result (λ list. All (λ remark. is_hint remark.kind ≡ true) list.items) }
{
    let mut list = HintList::new(alloc);
    let hinted = Hinted {
        alloc,
        model,
        places,
    };
    hinted.add_each_unused(found, &mut list)?;
    hinted.add_params(notes, &mut list)?;
    hinted.add_rules(&mut list)?;
    Ok(list.into_vec())
}
