//! Findings in words.
use crate::meant::meant_value;
use crate::names::{param_name, rule_line};
use crate::sameness::is_true_of_all;
use crate::spelling::{literal_words, param_words, relation_words, value_words};
use cov_model::{Literal, Param, ParamNo, Rel, Term, TestModel, ValueNo};
use model_findings::{Finding, terms_of};
use model_lint::{RuleNumbers, UnusedValue};
use std::alloc::Global;
use value_text::NoMemory;

// What stands before a constraint of a list.
fn parting(is_first: bool, is_last: bool) -> &'static str {
    if is_first {
        ": "
    } else if is_last {
        " and "
    } else {
        ", "
    }
}

// The constraints that are told with a finding about tests, and what one or several of them do.
fn constraints_words(
    alloc: Global,
    model: &TestModel,
    numbers: &RuleNumbers,
    does: &str,
    do_together: &str,
) -> Result<String, NoMemory> {
    let mut words = String::new(alloc);
    let count = numbers.len();
    for (i, number) in numbers.as_slice().iter().enumerate() {
        let before = parting(i == 0, i + 1 == count);
        let line = rule_line(model, *number);
        let one = format!(in alloc; "{before}constraint {number} (line {line})")?;
        words.push_str(one.as_str())?;
    }
    words.push_str(match count {
        0 => "",
        1 => does,
        _ => do_together,
    })?;
    Ok(words)
}

// A value of a parameter, as `Method = PATCH`.
fn pair_words(
    alloc: Global,
    model: &TestModel,
    p: ParamNo,
    v: ValueNo,
) -> Result<String, NoMemory> {
    let Some(param) = model.params().get(p as usize) else {
        return Ok(String::new(alloc));
    };
    let Some(value) = param.values.get(v as usize) else {
        return Ok(String::new(alloc));
    };
    let name = param.name.as_str();
    let shown = value_words(alloc, model, value)?;
    Ok(format!(in alloc; "{name} = {shown}")?)
}

// That a value is in no test.
fn unused_words(alloc: Global, model: &TestModel, one: &UnusedValue) -> Result<String, NoMemory> {
    let pair = pair_words(alloc, model, one.parameter, one.value)?;
    let why = constraints_words(
        alloc,
        model,
        &one.constraints,
        " forbids it",
        " forbid it together",
    )?;
    Ok(format!(in alloc; "{pair} is in no test{why}")?)
}

// A question whether another value is meant by a text; nothing where none is near.
fn question(alloc: Global, param: &Param, literal: &Literal) -> Result<String, NoMemory> {
    let Literal::Words(text) = literal else {
        return Ok(String::new(alloc));
    };
    match meant_value(alloc, param, text.as_str())? {
        Some(name) => Ok(format!(in alloc; "; did you mean \"{name}\"?")?),
        None => Ok(String::new(alloc)),
    }
}

// That a literal is no value of a parameter, and what comes of it.
fn literal_is_none(
    alloc: Global,
    model: &TestModel,
    param: &Param,
    literal: &Literal,
    effect: &str,
) -> Result<String, NoMemory> {
    let text = literal_words(alloc, literal)?;
    let values = param_words(alloc, model, param)?;
    let meant = question(alloc, param, literal)?;
    Ok(format!(in alloc; "{text} is no value of {values}; {effect}{meant}")?)
}

// That no value of a parameter matches a pattern.
fn pattern_is_none(
    alloc: Global,
    model: &TestModel,
    param: &Param,
    pattern: &str,
) -> Result<String, NoMemory> {
    let values = param_words(alloc, model, param)?;
    Ok(format!(in alloc;
        "no value of {values} matches \"{pattern}\"; the comparison is never true"
    )?)
}

// What comes of a comparison with what no value is.
fn effect_of(rel: Rel) -> &'static str {
    match rel {
        Rel::Ne => "the comparison is always true",
        Rel::Eq | Rel::Gt | Rel::Ge | Rel::Lt | Rel::Le => "the comparison is never true",
    }
}

// The parameter of a term; of two the first.
fn param_of<'a>(model: &'a TestModel, term: &Term) -> Option<&'a Param> {
    let p = match term {
        Term::ValueIs(p, _, _)
        | Term::ParamIs(p, _, _)
        | Term::OneOf(p, _)
        | Term::Like(p, _)
        | Term::Negative(p)
        | Term::Positive(p) => *p,
    };
    model.params().get(p as usize)
}

// That a term compares with what no value of its parameter is; of a list the element at a place.
fn unknown_words(
    alloc: Global,
    model: &TestModel,
    term: &Term,
    element: usize,
) -> Result<String, NoMemory> {
    let Some(param) = param_of(model, term) else {
        return Ok(String::new(alloc));
    };
    match term {
        Term::ValueIs(_, rel, literal) => {
            literal_is_none(alloc, model, param, literal, effect_of(*rel))
        }
        Term::OneOf(_, literals) => match literals.get(element) {
            Some(literal) => {
                literal_is_none(
                    alloc,
                    model,
                    param,
                    literal,
                    "in the list it changes nothing",
                )
            }
            None => Ok(String::new(alloc)),
        },
        Term::Like(_, pattern) => pattern_is_none(alloc, model, param, pattern.as_str()),
        Term::ParamIs(_, _, _) | Term::Negative(_) | Term::Positive(_) => Ok(String::new(alloc)),
    }
}

// The elements of a list.
fn elements_words(alloc: Global, literals: &[Literal]) -> Result<String, NoMemory> {
    let mut words = String::new(alloc);
    let mut parting = "";
    for literal in literals {
        let text = literal_words(alloc, literal)?;
        words.push_str(parting)?;
        words.push_str(text.as_str())?;
        parting = ", ";
    }
    Ok(words)
}

// A comparison as it is written in a constraint.
fn comparison_words(alloc: Global, model: &TestModel, term: &Term) -> Result<String, NoMemory> {
    match term {
        Term::ValueIs(p, rel, literal) => {
            let (name, relation) = (param_name(model, *p), relation_words(*rel));
            let text = literal_words(alloc, literal)?;
            Ok(format!(in alloc; "[{name}] {relation} {text}")?)
        }
        Term::ParamIs(p, rel, q) => {
            let (name, relation) = (param_name(model, *p), relation_words(*rel));
            let other = param_name(model, *q);
            Ok(format!(in alloc; "[{name}] {relation} [{other}]")?)
        }
        Term::OneOf(p, literals) => {
            let name = param_name(model, *p);
            let elements = elements_words(alloc, literals.as_slice())?;
            Ok(format!(in alloc; "[{name}] IN {{{elements}}}")?)
        }
        Term::Like(p, pattern) => {
            let (name, text) = (param_name(model, *p), pattern.as_str());
            Ok(format!(in alloc; "[{name}] LIKE \"{text}\"")?)
        }
        Term::Negative(p) => {
            let name = param_name(model, *p);
            Ok(format!(in alloc; "ISNEGATIVE([{name}])")?)
        }
        Term::Positive(p) => {
            let name = param_name(model, *p);
            Ok(format!(in alloc; "ISPOSITIVE([{name}])")?)
        }
    }
}

// That a comparison is the same for every value.
fn constant_words(alloc: Global, model: &TestModel, term: &Term) -> Result<String, NoMemory> {
    let comparison = comparison_words(alloc, model, term)?;
    let how = if is_true_of_all(model, term) {
        "always"
    } else {
        "never"
    };
    Ok(format!(in alloc; "{comparison} is {how} true, whatever the values")?)
}

// What is told of a term.
#[derive(Debug, Drop, Clone, Copy, PartialEq, Eq)]
enum Oddity {
    // It compares with what no value is; of an IN list the element at this place does.
    Unknown(usize),
    // It is the same for every value otherwise.
    Constant,
}

// What is told of the term at a place of a constraint.
fn term_words(
    alloc: Global,
    model: &TestModel,
    number: u32,
    place: usize,
    oddity: Oddity,
) -> Result<String, NoMemory> {
    let Some(rule) = model.rules().get((number as usize).saturating_sub(1)) else {
        return Ok(String::new(alloc));
    };
    let terms = terms_of(alloc, &rule.body)?;
    let Some(term) = terms.get(place) else {
        return Ok(String::new(alloc));
    };
    match oddity {
        Oddity::Unknown(element) => unknown_words(alloc, model, term, element),
        Oddity::Constant => constant_words(alloc, model, term),
    }
}

/// The words of a finding.
///
/// # Errors
///
/// `NoMemory` where memory is refused.
pub fn words_of(alloc: Global, model: &TestModel, finding: &Finding) -> Result<String, NoMemory> {
    match finding {
        Finding::NoTest(constraints) => {
            let why = constraints_words(
                alloc,
                model,
                constraints,
                " is true of none",
                " are never true together",
            )?;
            Ok(format!(in alloc; "the model has no test{why}")?)
        }
        Finding::ValueInNoTest(one) => unused_words(alloc, model, one),
        Finding::UnknownValue(number, place) => {
            term_words(alloc, model, *number, *place, Oddity::Unknown(0))
        }
        Finding::UnknownElement(number, place, element) => {
            term_words(alloc, model, *number, *place, Oddity::Unknown(*element))
        }
        Finding::ConstantComparison(number, place) => {
            term_words(alloc, model, *number, *place, Oddity::Constant)
        }
        Finding::NeverExcludes(number) => Ok(format!(in alloc;
            "constraint {number} excludes no test that meets the other constraints"
        )?),
        Finding::PremiseNeverHolds(number) => Ok(format!(in alloc;
            "the condition of constraint {number} is true of no test"
        )?),
    }
}
