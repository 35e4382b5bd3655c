ghost use Rattle.std.specs.Prelude.{◌≡◌, ◌<◌, ◌≤◌, Some, None, Ok, IfOk, IfErr, IfSome, OnErr, length, map};
ghost use Rattle.std.specs.List.{list_all};
ghost use Rattle.constraint_ast.specs.Reading.{IfRefused};
ghost use Rattle.type_check.specs.believed.Checking.{is_of_type, is_same_type, literal_of, numeric_at, param_named, term_refusal_or, rel_of, term_of};

use crate::fault::refused;
use constraint_ast::{RawLiteral, RawRel, RawTerm};
use cov_model::{Literal, LiteralList, Param, ParamNo, Rel, Term};
use model_lex::{DiagCode, ModelFault};
use std::alloc::Global;
use value_text::{NoMemory, OwnedList, Text, same_text};

// The same relation, of a model.
fn rel_of(rel: RawRel) -> Rel
    ensures { result ≡ rel_of rel }
{
    match rel {
        RawRel::Eq => Rel::Eq,
        RawRel::Ne => Rel::Ne,
        RawRel::Gt => Rel::Gt,
        RawRel::Ge => Rel::Ge,
        RawRel::Lt => Rel::Lt,
        RawRel::Le => Rel::Le,
    }
}

// The same literal, of a model.
fn literal_of(alloc: Global, literal: &RawLiteral) -> Result<Literal, NoMemory>
    ensures { IfOk result (λ copy. copy ≡ literal_of literal.now) }
{
    match literal {
        RawLiteral::Number(number) => Ok(Literal::Number(*number)),
        RawLiteral::Words(text) => Ok(Literal::Words(Text::copy(alloc, text.as_str())?)),
    }
}

// The same literals, of a model.
fn literals_of(alloc: Global, literals: &[RawLiteral]) -> Result<LiteralList, NoMemory>
    ensures { IfOk result (λ copies. copies ≡ map literal_of literals.now) }
{
    let mut copies = OwnedList::new(alloc);
    for literal in literals {
        copies.push(literal_of(alloc, literal)?)?;
    }
    Ok(copies)
}

// Whether a literal is of the type of parameters that are numeric, or of those that aren't.
fn is_of_type(numeric: bool, literal: &RawLiteral) -> bool
    ensures { result ≡ is_of_type numeric literal.now }
{
    match literal {
        RawLiteral::Number(_) => numeric,
        RawLiteral::Words(_) => !numeric,
    }
}

// Whether each literal is.
fn are_of_type(numeric: bool, literals: &[RawLiteral]) -> bool
    ensures { result ≡ list_all (is_of_type numeric) literals.now }
{
    literals.iter().all(|literal| is_of_type(numeric, literal))
}

// What the names of constraints are looked up in: the parameters, and whether letters of either case
// are one.
#[derive(Drop, Clone, Copy)]
pub(crate) struct Scope<'a> {
    pub(crate) params: &'a [Param],
    pub(crate) fold: bool,
}

impl Scope<'_> {
    // The place of the parameter of a name, where there is one.
    fn place(&self, name: &str) -> Option<usize>
        ensures value { result ≡ param_named self.now.fold self.now.params.now name.now }
        ensures within { IfSome result (λ p. p < length self.now.params.now) }
    {
        let fold = self.fold;
        self.params
            .iter()
            .position(|param| same_text(name, param.name.as_str(), fold))
    }

    // The number of the parameter of a name, which has to be there.
    fn find(&self, line: u32, name: &Text) -> Result<ParamNo, ModelFault>
        requires { length self.now.params.now ≤ 256 }
        ensures ok { IfOk result (λ p. param_named self.now.fold self.now.params.now name.now ≡ Some p) }
        ensures within { IfOk result (λ p. p < length self.now.params.now) }
        ensures none { OnErr result (param_named self.now.fold self.now.params.now name.now ≡ None) }
        ensures err { IfErr result (λ fault. fault ≡ ModelFault.BadRule (record { line = line; code = DiagCode.UnknownParameter })) }
    {
        match self.place(name.as_str()) {
            Some(p) => Ok(p as ParamNo),
            None => Err(refused(line, DiagCode::UnknownParameter)),
        }
    }

    // Whether a parameter is numeric.
    fn is_numeric(&self, p: ParamNo) -> bool
        requires { p < length self.now.params.now }
        ensures { result ≡ numeric_at self.now.params.now p }
    {
        self.params[p as usize].numeric
    }

    // The comparison of a parameter with a literal.
    fn value_is(
        &self,
        alloc: Global,
        line: u32,
        name: &Text,
        rel: RawRel,
        literal: &RawLiteral,
    ) -> Result<Term, ModelFault>
        requires { length self.now.params.now ≤ 256 }
        ensures ok { IfOk result (λ term. term_of self.now.fold self.now.params.now (RawTerm.ValueIs name.now rel literal.now) ≡ Ok term) }
        ensures err { IfErr result (λ fault. IfRefused fault (λ diag. term_refusal_or line (term_of self.now.fold self.now.params.now (RawTerm.ValueIs name.now rel literal.now)) None ≡ Some diag)) }
    {
        let p = self.find(line, name)?;
        if !is_of_type(self.is_numeric(p), literal) {
            return Err(refused(line, DiagCode::TypeMismatch));
        }
        Ok(Term::ValueIs(p, rel_of(rel), literal_of(alloc, literal)?))
    }

    // The comparison of two parameters.
    fn param_is(
        &self,
        line: u32,
        name: &Text,
        rel: RawRel,
        other: &Text,
    ) -> Result<Term, ModelFault>
        requires { length self.now.params.now ≤ 256 }
        ensures ok { IfOk result (λ term. term_of self.now.fold self.now.params.now (RawTerm.ParamIs name.now rel other.now) ≡ Ok term) }
        ensures err { IfErr result (λ fault. IfRefused fault (λ diag. term_refusal_or line (term_of self.now.fold self.now.params.now (RawTerm.ParamIs name.now rel other.now)) None ≡ Some diag)) }
    {
        let p = self.find(line, name)?;
        let q = self.find(line, other)?;
        if self.is_numeric(p) != self.is_numeric(q) {
            return Err(refused(line, DiagCode::TypeMismatch));
        }
        Ok(Term::ParamIs(p, rel_of(rel), q))
    }

    // An IN list.
    fn one_of(
        &self,
        alloc: Global,
        line: u32,
        name: &Text,
        literals: &[RawLiteral],
    ) -> Result<Term, ModelFault>
        requires { length self.now.params.now ≤ 256 }
        ensures ok { IfOk result (λ term. term_of self.now.fold self.now.params.now (RawTerm.OneOf name.now literals.now) ≡ Ok term) }
        ensures err { IfErr result (λ fault. IfRefused fault (λ diag. term_refusal_or line (term_of self.now.fold self.now.params.now (RawTerm.OneOf name.now literals.now)) None ≡ Some diag)) }
    {
        let p = self.find(line, name)?;
        if !are_of_type(self.is_numeric(p), literals) {
            return Err(refused(line, DiagCode::TypeMismatch));
        }
        Ok(Term::OneOf(p, literals_of(alloc, literals)?))
    }

    // A pattern, which needs a parameter that isn't numeric.
    fn like(
        &self,
        alloc: Global,
        line: u32,
        name: &Text,
        pattern: &Text,
    ) -> Result<Term, ModelFault>
        requires { length self.now.params.now ≤ 256 }
        ensures ok { IfOk result (λ term. term_of self.now.fold self.now.params.now (RawTerm.Like name.now pattern.now) ≡ Ok term) }
        ensures err { IfErr result (λ fault. IfRefused fault (λ diag. term_refusal_or line (term_of self.now.fold self.now.params.now (RawTerm.Like name.now pattern.now)) None ≡ Some diag)) }
    {
        let p = self.find(line, name)?;
        if self.is_numeric(p) {
            return Err(refused(line, DiagCode::LikeNeedsText));
        }
        Ok(Term::Like(p, Text::copy(alloc, pattern.as_str())?))
    }

    // The term that a raw term of a line is.
    pub(crate) fn term(&self, alloc: Global, line: u32, raw: &RawTerm) -> Result<Term, ModelFault>
        requires { length self.now.params.now ≤ 256 }
        ensures ok { IfOk result (λ term. term_of self.now.fold self.now.params.now raw.now ≡ Ok term) }
        ensures err { IfErr result (λ fault. IfRefused fault (λ diag. term_refusal_or line (term_of self.now.fold self.now.params.now raw.now) None ≡ Some diag)) }
    {
        match raw {
            RawTerm::ValueIs(name, rel, literal) => {
                self.value_is(alloc, line, name, *rel, literal)
            }
            RawTerm::ParamIs(name, rel, other) => self.param_is(line, name, *rel, other),
            RawTerm::OneOf(name, literals) => self.one_of(alloc, line, name, literals.as_slice()),
            RawTerm::Like(name, pattern) => self.like(alloc, line, name, pattern),
            RawTerm::Negative(name) => Ok(Term::Negative(self.find(line, name)?)),
            RawTerm::Positive(name) => Ok(Term::Positive(self.find(line, name)?)),
        }
    }
}
