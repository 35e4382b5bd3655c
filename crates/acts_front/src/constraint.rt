//! Which tokens spell a constraint, and whether its terms fit the parameters.
ghost use Rattle.std.specs.Prelude.{◌≡◌, ◌<◌, ◌≤◌, ◌+◌, ◌^◌, ◌∷◌, ◌++◌, [], length, IfOk, IfSome, MatchOption, option_map, position};
ghost use Rattle.acts_front.specs.believed.ActsFiles.{constraint_line};
ghost use Rattle.acts_front.specs.believed.Constraints.{comparison_of, cons_of, disj_of, enclosed_of, is_arrow, is_order, open_behind, parts, unit_of};
ghost use Rattle.acts_front.specs.Constraints.{conj_of};
ghost use Rattle.constraint_ast.specs.believed.Grammar.{most_open};
ghost use Rattle.acts_front.specs.Findings.{code_of, finding_in, finding_of, kinds_finding, worse};
ghost use Rattle.acts_front.specs.Reading.{joint_test, part_before, token_seen, tokens_seen};
ghost use Rattle.acts_front.specs.believed.Tokens.{Name, Relation};

use crate::code::ActsCode;
use crate::kind::Kind;
use crate::scope::Scope;
use crate::token::Token;
use cov_model::Rel;
use std::alloc::Global;
use value_text::NoMemory;

// The most `(` and `!` that may be open at a place.
const DEPTH: u32 = 64;

/// What is found of a part of a constraint, the worse the later.
#[derive(Drop, Clone, Copy)]
pub(crate) enum Finding {
    /// Each of its terms fits the parameters.
    Fits,
    /// A term is of different types, or an order stands on a parameter that isn't int.
    TypesDiffer,
    /// A parameter is unknown.
    UnknownName,
    /// Its tokens spell nothing.
    Broken,
}

impl Finding {
    // The worse of two.
    fn worse(self, other: Finding) -> Finding
        ensures { result ≡ worse self other }
    {
        match (self, other) {
            (Finding::Broken, _) | (_, Finding::Broken) => Finding::Broken,
            (Finding::UnknownName, _) | (_, Finding::UnknownName) => Finding::UnknownName,
            (Finding::TypesDiffer, _) | (_, Finding::TypesDiffer) => Finding::TypesDiffer,
            (Finding::Fits, Finding::Fits) => Finding::Fits,
        }
    }

    /// Why a constraint is refused of which this is found.
    pub(crate) fn code(self) -> Option<ActsCode>
        ensures { result ≡ code_of self }
    {
        match self {
            Finding::Fits => None,
            Finding::TypesDiffer => Some(ActsCode::A11),
            Finding::UnknownName => Some(ActsCode::A10),
            Finding::Broken => Some(ActsCode::A9),
        }
    }
}

// What joins conjunctions, and what joins units.
#[derive(Drop, Clone, Copy)]
enum Joint {
    Or,
    And,
}

impl Joint {
    // Whether a token is it.
    fn is(self, token: &Token<'_>) -> bool
        ensures { result ≡ joint_test self (token_seen token.now) }
    {
        match (self, token) {
            (Joint::Or, Token::Or) | (Joint::And, Token::And) => true,
            _ => false,
        }
    }
}

// The first part of some tokens between joints outside parentheses, and what stands behind its joint, if one does.
fn cut_part<'t, 'a>(
    tokens: &'t [Token<'a>],
    joint: Joint,
) -> (&'t [Token<'a>], Option<&'t [Token<'a>]>)
    ensures parts { parts (joint_test joint) (tokens_seen tokens.now)
        ≡ part_before (tokens_seen result.0.now) (option_map (λ rest. parts (joint_test joint) (tokens_seen rest.now)) result.1) }
    ensures shorter { IfSome result.1 (λ rest. length rest.now < length tokens.now) }
{
    let mut opened: usize = 0;
    for (place, token) in tokens.iter().enumerate() {
        if opened == 0 && joint.is(token) {
            return (&tokens[..place], Some(&tokens[place + 1..]));
        }
        opened = open_behind(token, opened);
    }
    (tokens, None)
}

// How many parentheses are open behind a token.
fn open_behind(token: &Token<'_>, opened: usize) -> usize
    requires { opened < 2 ^ 63 }
    ensures value { result ≡ open_behind (token_seen token.now) opened }
    ensures most { result ≤ opened + 1 }
{
    match token {
        Token::Open => opened + 1,
        Token::Close => opened.saturating_sub(1),
        _ => opened,
    }
}

// The first of some tokens, and those behind it.
fn first<'t, 'a>(tokens: &'t [Token<'a>]) -> Option<(&'t Token<'a>, &'t [Token<'a>])>
    ensures { MatchOption result (tokens.now ≡ []) (λ read. tokens.now ≡ read.0.now ∷ read.1.now) }
{
    match tokens {
        [token, rest @ ..] => Some((token, rest)),
        [] => None,
    }
}

// The last of some tokens, and those before it.
fn last<'t, 'a>(tokens: &'t [Token<'a>]) -> Option<(&'t [Token<'a>], &'t Token<'a>)>
    ensures { MatchOption result (tokens.now ≡ []) (λ read. tokens.now ≡ read.0.now ++ read.1.now ∷ []) }
{
    match tokens {
        [front @ .., token] => Some((front, token)),
        [] => None,
    }
}

// The place of the first `=>`.
fn arrow_place(tokens: &[Token<'_>]) -> Option<usize>
    ensures { result ≡ position (λ token. is_arrow (token_seen token)) tokens.now }
{
    tokens
        .iter()
        .position(|token| matches!(token, Token::Arrow))
}

// Whether a relation is an order.
fn is_order(rel: Rel) -> bool
    ensures { result ≡ is_order rel }
{
    !matches!(rel, Rel::Eq | Rel::Ne)
}

// What is found of a comparison, by the types of what is compared.
fn kinds_finding(kind: Option<Kind>, rel: Rel, other: Option<Kind>) -> Finding
    ensures { result ≡ kinds_finding kind rel other }
{
    let (Some(kind), Some(other)) = (kind, other) else {
        return Finding::UnknownName;
    };
    if kind == other && (kind == Kind::Int || !is_order(rel)) {
        Finding::Fits
    } else {
        Finding::TypesDiffer
    }
}

impl Scope<'_> {
    // What is found of a comparison.
    fn comparison(
        &self,
        alloc: Global,
        name: &[u8],
        rel: Rel,
        operand: &Token<'_>,
    ) -> Result<Finding, NoMemory>
        ensures { IfOk result (λ found. found ≡ finding_in self.now (comparison_of (Name name.now ∷ Relation rel ∷ token_seen operand.now ∷ []))) }
    {
        let kind = self.kind(alloc, name)?;
        match operand {
            Token::Whole(_) => Ok(kinds_finding(kind, rel, Some(Kind::Int))),
            Token::Words(_) => Ok(kinds_finding(kind, rel, Some(Kind::Enum))),
            Token::Truth(_) => Ok(kinds_finding(kind, rel, Some(Kind::Boolean))),
            Token::Name(other) => {
                let other = self.kind(alloc, other)?;
                Ok(kinds_finding(kind, rel, other))
            }
            _ => Ok(Finding::Broken),
        }
    }

    // What is found of a comparison of the parameter of a name, from what stands behind the name.
    fn compared(
        &self,
        alloc: Global,
        name: &[u8],
        behind: &[Token<'_>],
    ) -> Result<Finding, NoMemory>
        ensures { IfOk result (λ found. found ≡ finding_in self.now (comparison_of (Name name.now ∷ tokens_seen behind.now))) }
    {
        let [relation, operand] = behind else {
            return Ok(Finding::Broken);
        };
        match relation {
            Token::Relation(rel) => self.comparison(alloc, name, *rel, operand),
            _ => Ok(Finding::Broken),
        }
    }

    // What is found of a unit behind its `(`, with room for so many behind it.
    #[cycle(check)]
    fn enclosed(&self, alloc: Global, room: u32, behind: &[Token<'_>]) -> Result<Finding, NoMemory>
        ensures { IfOk result (λ found. found ≡ finding_in self.now (enclosed_of (disj_of room) (tokens_seen behind.now))) }
    {
        match last(behind) {
            Some((inside, Token::Close)) => self.disjunction(alloc, room, inside),
            _ => Ok(Finding::Broken),
        }
    }

    // What is found of a unit, with room for so many `(` and `!` inside one another.
    #[cycle(check)]
    fn unit(&self, alloc: Global, room: u32, tokens: &[Token<'_>]) -> Result<Finding, NoMemory>
        ensures { IfOk result (λ found. found ≡ finding_in self.now (unit_of room (tokens_seen tokens.now))) }
    {
        match first(tokens) {
            Some((Token::Not, unit)) if room > 0 => self.unit(alloc, room - 1, unit),
            Some((Token::Open, behind)) if room > 0 => self.enclosed(alloc, room - 1, behind),
            Some((Token::Name(name), behind)) => self.compared(alloc, name, behind),
            _ => Ok(Finding::Broken),
        }
    }

    // What is found of a conjunction of units.
    #[cycle(check)]
    fn conjunction(
        &self,
        alloc: Global,
        room: u32,
        tokens: &[Token<'_>],
    ) -> Result<Finding, NoMemory>
        ensures { IfOk result (λ found. found ≡ finding_in self.now (conj_of room (tokens_seen tokens.now))) }
    {
        let mut worst = Finding::Fits;
        let mut ahead = Some(tokens);
        while let Some(rest) = ahead {
            let (unit, behind) = cut_part(rest, Joint::And);
            worst = worst.worse(self.unit(alloc, room, unit)?);
            ahead = behind;
        }
        Ok(worst)
    }

    // What is found of a disjunction of conjunctions.
    #[cycle(check)]
    fn disjunction(
        &self,
        alloc: Global,
        room: u32,
        tokens: &[Token<'_>],
    ) -> Result<Finding, NoMemory>
        ensures { IfOk result (λ found. found ≡ finding_in self.now (disj_of room (tokens_seen tokens.now))) }
    {
        let mut worst = Finding::Fits;
        let mut ahead = Some(tokens);
        while let Some(rest) = ahead {
            let (conjunction, behind) = cut_part(rest, Joint::Or);
            worst = worst.worse(self.conjunction(alloc, room, conjunction)?);
            ahead = behind;
        }
        Ok(worst)
    }

    /// What is found of a constraint.
    ///
    /// # Errors
    ///
    /// `NoMemory` where memory was refused.
    pub(crate) fn constraint(
        &self,
        alloc: Global,
        tokens: &[Token<'_>],
    ) -> Result<Finding, NoMemory>
        ensures { IfOk result (λ found. found ≡ finding_of self.now (cons_of most_open (tokens_seen tokens.now))) }
    {
        let Some(place) = arrow_place(tokens) else {
            return self.disjunction(alloc, DEPTH, tokens);
        };
        let premise = self.disjunction(alloc, DEPTH, &tokens[..place])?;
        let conclusion = self.disjunction(alloc, DEPTH, &tokens[place + 1..])?;
        Ok(premise.worse(conclusion))
    }
}
