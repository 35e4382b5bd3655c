ghost use Rattle.std.specs.Prelude.{◌≡◌, false, [], ◌∷◌, ℕ, ◌<◌, length, map, IfOk, IfErr, IfSome, IfNone, List, MatchOption, MatchResult};
ghost use Rattle.model_lex.specs.Sections.{AreSections, line_seen};
ghost use Rattle.constraint_ast.specs.believed.Lexing.{AreRefused, Spell};
ghost use Rattle.constraint_ast.specs.believed.Trees.{RuleTree, Tree, Plain, IfElse, Negated, End};
ghost use Rattle.constraint_ast.specs.Trees.{tree_of, body_tree, rule_tree};
ghost use Rattle.constraint_ast.specs.believed.Grammar.{AreRules, Refused, at, last_line, most_open, refusal_line};
ghost use Rattle.constraint_ast.specs.Machine.{Around, Between, InElse, InIf, InPlain, InThen, Liked, Listed, Named, NamedNot, Need, Opened, Paren, Part, Related, Signed, SignOpened, Top, close, run};
ghost use Rattle.constraint_ast.specs.Reading.{GoesOnAnd, GoesOnIf, GoesOnOr, IfRefused, ReadsRule, RefusesRules, before_pred, begins_and, begins_if, begins_or, first_line, ReadsBody, ReadsPred};
ghost use Rattle.constraint_ast.specs.Reading.{ReadsLiteral, ReadsLiterals, ReadsUnit, ReadsUnits, RefusesBody, RefusesLiteral, RefusesLiterals, RefusesPred, RefusesUnit, RefusesUnits};

use crate::lexer::read_tokens;
use crate::token::{LineToken, RuleToken, Sign};
use crate::tree::{
    RawBody, RawLiteral, RawLiteralList, RawPred, RawRel, RawRule, RawRuleList, RawTerm,
};
use model_lex::{Diag, DiagCode, ModelFault, Sections};
use std::alloc::Global;
use value_text::{NoMemory, OwnedList, Text};

// The most `(` and NOTs that may be open at a place.
const DEPTH: u32 = 64;

// What was read at the start of some tokens, and the tokens behind it.
type Read<'t, T> = Result<(T, &'t [LineToken]), ModelFault>;

// What the first of some tokens means, and the tokens behind it.
fn first(tokens: &[LineToken]) -> Option<(&RuleToken, &[LineToken])>
    ensures { MatchOption result (tokens.now ≡ []) (λ read. tokens.now ≡ at (first_line tokens.now) read.0.now ∷ read.1.now) }
{
    match tokens {
        [token, rest @ ..] => Some((&token.token, rest)),
        [] => None,
    }
}

// The line of the first token; 0 where there is none.
fn first_line(tokens: &[LineToken]) -> u32
    ensures { result ≡ first_line tokens.now }
{
    match tokens {
        [token, ..] => token.line,
        [] => 0,
    }
}

// The line of the last token; 0 where there is none.
fn last_line(tokens: &[LineToken]) -> u32
    ensures { result ≡ last_line tokens.now }
{
    match tokens {
        [.., token] => token.line,
        [] => 0,
    }
}

// The tokens behind an AND at the start.
fn behind_and(tokens: &[LineToken]) -> Option<&[LineToken]>
    ensures some { IfSome result (λ rest. GoesOnAnd tokens.now rest.now) }
    ensures none { IfNone result (begins_and tokens.now ≡ false) }
    ensures shorter { IfSome result (λ rest. length rest.now < length tokens.now) }
{
    match first(tokens) {
        Some((RuleToken::And, rest)) => Some(rest),
        _ => None,
    }
}

// The tokens behind an OR at the start.
fn behind_or(tokens: &[LineToken]) -> Option<&[LineToken]>
    ensures some { IfSome result (λ rest. GoesOnOr tokens.now rest.now) }
    ensures none { IfNone result (begins_or tokens.now ≡ false) }
    ensures shorter { IfSome result (λ rest. length rest.now < length tokens.now) }
{
    match first(tokens) {
        Some((RuleToken::Or, rest)) => Some(rest),
        _ => None,
    }
}

// The tokens behind an IF at the start.
fn behind_if(tokens: &[LineToken]) -> Option<&[LineToken]>
    ensures some { IfSome result (λ rest. GoesOnIf tokens.now rest.now) }
    ensures none { IfNone result (begins_if tokens.now ≡ false) }
    ensures shorter { IfSome result (λ rest. length rest.now < length tokens.now) }
{
    match first(tokens) {
        Some((RuleToken::If, rest)) => Some(rest),
        _ => None,
    }
}

// A copy of a literal.
fn copied(alloc: Global, literal: &RawLiteral) -> Result<RawLiteral, NoMemory>
    ensures { IfOk result (λ copy. copy ≡ literal.now) }
{
    match literal {
        RawLiteral::Number(number) => Ok(RawLiteral::Number(*number)),
        RawLiteral::Words(text) => Ok(RawLiteral::Words(Text::copy(alloc, text.as_str())?)),
    }
}

// The negation of a predicate.
fn negated(alloc: Global, pred: RawPred) -> Result<RawPred, NoMemory>
    ensures { IfOk result (λ inverse. tree_of inverse ≡ Negated (tree_of pred)) }
{
    Ok(RawPred::Not(Box::new(alloc, pred)?))
}

// The name that a term begins with, and its line.
#[derive(Drop)]
struct TermStart<'t> {
    line: u32,
    name: &'t Text,
}

// What tokens are parsed with: memory, and the line of the last token, at which their end is told.
#[derive(Drop)]
struct Parser {
    alloc: Global,
    last: u32,
}

impl Parser {
    // The refusal of the first of some tokens, or of their end.
    fn refused(&self, tokens: &[LineToken], code: DiagCode) -> ModelFault
        ensures { result ≡ ModelFault.BadRule (record { line = refusal_line self.now.last tokens.now; code = code }) }
    {
        let line = match tokens {
            [token, ..] => token.line,
            [] => self.last,
        };
        ModelFault::BadRule(Diag { line, code })
    }

    // The rest of a term behind its name and a relation.
    fn operand<'t>(
        &self,
        start: &TermStart<'_>,
        rel: RawRel,
        tokens: &'t [LineToken],
    ) -> Read<'t, RawPred>
        ensures ok { IfOk result (λ read. ReadsUnit self.now.last tokens.now (λ around. Related around start.now.line start.now.name.now rel)
            (tree_of read.0) read.1.now) }
        ensures err { IfErr result (RefusesUnit self.now.last tokens.now (λ around. Related around start.now.line start.now.name.now rel)) }
        ensures shorter { IfOk result (λ read. length read.1.now < length tokens.now) }
    {
        match first(tokens) {
            Some((RuleToken::Literal(literal), rest)) => {
                let name = Text::copy(self.alloc, start.name.as_str())?;
                let term = RawTerm::ValueIs(name, rel, copied(self.alloc, literal)?);
                Ok((RawPred::Term(start.line, term), rest))
            }
            Some((RuleToken::Name(other), rest)) => {
                let name = Text::copy(self.alloc, start.name.as_str())?;
                let term = RawTerm::ParamIs(name, rel, Text::copy(self.alloc, other.as_str())?);
                Ok((RawPred::Term(start.line, term), rest))
            }
            _ => Err(self.refused(tokens, DiagCode::OperandExpected)),
        }
    }

    // The literal at the start of some tokens.
    fn literal<'t>(&self, tokens: &'t [LineToken]) -> Read<'t, RawLiteral>
        ensures ok { IfOk result (λ read. ReadsLiteral self.now.last tokens.now read.0 read.1.now) }
        ensures err { IfErr result (RefusesLiteral self.now.last tokens.now) }
        ensures shorter { IfOk result (λ read. length read.1.now < length tokens.now) }
    {
        match first(tokens) {
            Some((RuleToken::Literal(literal), rest)) => Ok((copied(self.alloc, literal)?, rest)),
            _ => Err(self.refused(tokens, DiagCode::OperandExpected)),
        }
    }

    // The literals of a list behind its `{`, to its `}`.
    fn literals<'t>(&self, tokens: &'t [LineToken]) -> Read<'t, RawLiteralList>
        ensures ok { IfOk result (λ read. ReadsLiterals self.now.last tokens.now read.0 read.1.now) }
        ensures err { IfErr result (RefusesLiterals self.now.last tokens.now) }
        ensures shorter { IfOk result (λ read. length read.1.now < length tokens.now) }
    {
        let mut literals = OwnedList::new(self.alloc);
        let (one, mut ahead) = self.literal(tokens)?;
        literals.push(one)?;
        while let Some((RuleToken::Comma, more)) = first(ahead) {
            let (literal, rest) = self.literal(more)?;
            literals.push(literal)?;
            ahead = rest;
        }
        match first(ahead) {
            Some((RuleToken::CloseBrace, rest)) => Ok((literals, rest)),
            _ => Err(self.refused(ahead, DiagCode::MarkExpected)),
        }
    }

    // The rest of a term behind its name and IN.
    fn list<'t>(&self, start: &TermStart<'_>, tokens: &'t [LineToken]) -> Read<'t, RawPred>
        ensures ok { IfOk result (λ read. ReadsUnit self.now.last tokens.now (λ around. Listed around start.now.line start.now.name.now)
            (tree_of read.0) read.1.now) }
        ensures err { IfErr result (RefusesUnit self.now.last tokens.now (λ around. Listed around start.now.line start.now.name.now)) }
        ensures shorter { IfOk result (λ read. length read.1.now < length tokens.now) }
    {
        match first(tokens) {
            Some((RuleToken::OpenBrace, rest)) => {
                let (literals, rest) = self.literals(rest)?;
                let name = Text::copy(self.alloc, start.name.as_str())?;
                Ok((
                    RawPred::Term(start.line, RawTerm::OneOf(name, literals)),
                    rest,
                ))
            }
            _ => Err(self.refused(tokens, DiagCode::MarkExpected)),
        }
    }

    // The rest of a term behind its name and LIKE.
    fn pattern<'t>(&self, start: &TermStart<'_>, tokens: &'t [LineToken]) -> Read<'t, RawPred>
        ensures ok { IfOk result (λ read. ReadsUnit self.now.last tokens.now (λ around. Liked around start.now.line start.now.name.now)
            (tree_of read.0) read.1.now) }
        ensures err { IfErr result (RefusesUnit self.now.last tokens.now (λ around. Liked around start.now.line start.now.name.now)) }
        ensures shorter { IfOk result (λ read. length read.1.now < length tokens.now) }
    {
        match first(tokens) {
            Some((RuleToken::Literal(RawLiteral::Words(pattern)), rest)) => {
                let name = Text::copy(self.alloc, start.name.as_str())?;
                let term = RawTerm::Like(name, Text::copy(self.alloc, pattern.as_str())?);
                Ok((RawPred::Term(start.line, term), rest))
            }
            _ => Err(self.refused(tokens, DiagCode::OperandExpected)),
        }
    }

    // The rest of a term behind its name and NOT, without the NOT.
    fn negated_term<'t>(&self, start: &TermStart<'_>, tokens: &'t [LineToken]) -> Read<'t, RawPred>
        ensures ok { IfOk result (λ read. ReadsUnit self.now.last tokens.now (λ around. NamedNot around start.now.line start.now.name.now)
            (tree_of read.0) read.1.now) }
        ensures err { IfErr result (RefusesUnit self.now.last tokens.now (λ around. NamedNot around start.now.line start.now.name.now)) }
        ensures shorter { IfOk result (λ read. length read.1.now < length tokens.now) }
    {
        match first(tokens) {
            Some((RuleToken::In, rest)) => self.list(start, rest),
            Some((RuleToken::Like, rest)) => self.pattern(start, rest),
            _ => Err(self.refused(tokens, DiagCode::RelationExpected)),
        }
    }

    // The rest of a term behind its name.
    fn term<'t>(
        &self,
        room: u32,
        start: &TermStart<'_>,
        tokens: &'t [LineToken],
    ) -> Read<'t, RawPred>
        ensures ok { IfOk result (λ read. ReadsUnit self.now.last tokens.now (λ around. Named room around start.now.line start.now.name.now)
            (tree_of read.0) read.1.now) }
        ensures err { IfErr result (RefusesUnit self.now.last tokens.now (λ around. Named room around start.now.line start.now.name.now)) }
        ensures shorter { IfOk result (λ read. length read.1.now < length tokens.now) }
    {
        match first(tokens) {
            Some((RuleToken::Relation(rel), rest)) => self.operand(start, *rel, rest),
            Some((RuleToken::In, rest)) => self.list(start, rest),
            Some((RuleToken::Like, rest)) => self.pattern(start, rest),
            Some((RuleToken::Not, rest)) => {
                if room == 0 {
                    return Err(self.refused(tokens, DiagCode::TooDeep));
                }
                let (term, rest) = self.negated_term(start, rest)?;
                Ok((negated(self.alloc, term)?, rest))
            }
            _ => Err(self.refused(tokens, DiagCode::RelationExpected)),
        }
    }

    // The rest of a sign term behind its `(`.
    fn signed_name<'t>(&self, line: u32, sign: Sign, tokens: &'t [LineToken]) -> Read<'t, RawPred>
        ensures ok { IfOk result (λ read. ReadsUnit self.now.last tokens.now (λ around. SignOpened around line sign) (tree_of read.0) read.1.now) }
        ensures err { IfErr result (RefusesUnit self.now.last tokens.now (λ around. SignOpened around line sign)) }
        ensures shorter { IfOk result (λ read. length read.1.now < length tokens.now) }
    {
        let Some((RuleToken::Name(name), behind)) = first(tokens) else {
            return Err(self.refused(tokens, DiagCode::OperandExpected));
        };
        let Some((RuleToken::CloseParen, rest)) = first(behind) else {
            return Err(self.refused(behind, DiagCode::MarkExpected));
        };
        let name = Text::copy(self.alloc, name.as_str())?;
        let term = match sign {
            Sign::Negative => RawTerm::Negative(name),
            Sign::Positive => RawTerm::Positive(name),
        };
        Ok((RawPred::Term(line, term), rest))
    }

    // The rest of a sign term behind its word.
    fn signed<'t>(&self, line: u32, sign: Sign, tokens: &'t [LineToken]) -> Read<'t, RawPred>
        ensures ok { IfOk result (λ read. ReadsUnit self.now.last tokens.now (λ around. Signed around line sign) (tree_of read.0) read.1.now) }
        ensures err { IfErr result (RefusesUnit self.now.last tokens.now (λ around. Signed around line sign)) }
        ensures shorter { IfOk result (λ read. length read.1.now < length tokens.now) }
    {
        match first(tokens) {
            Some((RuleToken::OpenParen, rest)) => self.signed_name(line, sign, rest),
            _ => Err(self.refused(tokens, DiagCode::MarkExpected)),
        }
    }

    // The rest of a unit behind its `(`: a predicate, and `)`.
    #[cycle(parse)]
    fn inner<'t>(&self, room: u32, tokens: &'t [LineToken]) -> Read<'t, RawPred>
        ensures ok { IfOk result (λ read. ReadsUnit self.now.last tokens.now (λ around. Need room (Part room End End (Paren around)))
            (tree_of read.0) read.1.now) }
        ensures err { IfErr result (RefusesUnit self.now.last tokens.now (λ around. Need room (Part room End End (Paren around)))) }
        ensures shorter { IfOk result (λ read. length read.1.now < length tokens.now) }
    {
        let (pred, ahead) = self.pred(room, tokens)?;
        match first(ahead) {
            Some((RuleToken::CloseParen, rest)) => Ok((pred, rest)),
            _ => Err(self.refused(ahead, DiagCode::MarkExpected)),
        }
    }

    // A unit with room for so many `(` and NOTs inside one another.
    #[cycle(parse)]
    fn unit<'t>(&self, room: u32, tokens: &'t [LineToken]) -> Read<'t, RawPred>
        ensures ok { IfOk result (λ read. ReadsUnit self.now.last tokens.now (Need room) (tree_of read.0) read.1.now) }
        ensures err { IfErr result (RefusesUnit self.now.last tokens.now (Need room)) }
        ensures shorter { IfOk result (λ read. length read.1.now < length tokens.now) }
    {
        let line = first_line(tokens);
        match first(tokens) {
            Some((RuleToken::Not, rest)) => {
                if room == 0 {
                    return Err(self.refused(tokens, DiagCode::TooDeep));
                }
                let (unit, rest) = self.unit(room - 1, rest)?;
                Ok((negated(self.alloc, unit)?, rest))
            }
            Some((RuleToken::OpenParen, rest)) => {
                if room == 0 {
                    return Err(self.refused(tokens, DiagCode::TooDeep));
                }
                self.inner(room - 1, rest)
            }
            Some((RuleToken::Name(name), rest)) => self.term(room, &TermStart { line, name }, rest),
            Some((RuleToken::Sign(sign), rest)) => self.signed(line, *sign, rest),
            _ => Err(self.refused(tokens, DiagCode::PredicateExpected)),
        }
    }

    // Units joined by AND.
    #[cycle(parse)]
    fn conj<'t>(&self, room: u32, tokens: &'t [LineToken]) -> Read<'t, RawPred>
        ensures ok { IfOk result (λ read. ReadsUnits self.now.last room tokens.now (tree_of read.0) read.1.now) }
        ensures err { IfErr result (RefusesUnits self.now.last room tokens.now) }
        ensures shorter { IfOk result (λ read. length read.1.now < length tokens.now) }
    {
        let (one, ahead) = self.unit(room, tokens)?;
        let Some(mut more) = behind_and(ahead) else {
            return Ok((one, ahead));
        };
        let mut parts = OwnedList::new(self.alloc);
        parts.push(one)?;
        loop {
            let (part, rest) = self.unit(room, more)?;
            parts.push(part)?;
            match behind_and(rest) {
                Some(next) => more = next,
                None => return Ok((RawPred::All(parts), rest)),
            }
        }
    }

    // Conjunctions joined by OR.
    #[cycle(parse)]
    fn pred<'t>(&self, room: u32, tokens: &'t [LineToken]) -> Read<'t, RawPred>
        ensures ok { IfOk result (λ read. ReadsPred self.now.last room tokens.now (tree_of read.0) read.1.now) }
        ensures err { IfErr result (RefusesPred self.now.last room tokens.now) }
        ensures shorter { IfOk result (λ read. length read.1.now < length tokens.now) }
    {
        let (one, ahead) = self.conj(room, tokens)?;
        let Some(mut more) = behind_or(ahead) else {
            return Ok((one, ahead));
        };
        let mut parts = OwnedList::new(self.alloc);
        parts.push(one)?;
        loop {
            let (part, rest) = self.conj(room, more)?;
            parts.push(part)?;
            match behind_or(rest) {
                Some(next) => more = next,
                None => return Ok((RawPred::Any(parts), rest)),
            }
        }
    }

    // The rest of a constraint behind IF.
    fn behind_if<'t>(&self, tokens: &'t [LineToken]) -> Read<'t, RawBody>
        ensures ok { IfOk result (λ read. ReadsBody self.now.last tokens.now (λ line. before_pred (InIf line)) (body_tree read.0) read.1.now) }
        ensures err { IfErr result (RefusesBody self.now.last tokens.now (λ line. before_pred (InIf line))) }
        ensures shorter { IfOk result (λ read. length read.1.now < length tokens.now) }
    {
        let (premise, ahead) = self.pred(DEPTH, tokens)?;
        match first(ahead) {
            Some((RuleToken::Then, rest)) => self.behind_then(premise, rest),
            _ => Err(self.refused(ahead, DiagCode::MarkExpected)),
        }
    }

    // The rest of a constraint behind THEN.
    fn behind_then<'t>(&self, premise: RawPred, tokens: &'t [LineToken]) -> Read<'t, RawBody>
        ensures ok { IfOk result (λ read. ReadsBody self.now.last tokens.now (λ line. before_pred (InThen line (tree_of premise)))
            (body_tree read.0) read.1.now) }
        ensures err { IfErr result (RefusesBody self.now.last tokens.now (λ line. before_pred (InThen line (tree_of premise)))) }
        ensures shorter { IfOk result (λ read. length read.1.now < length tokens.now) }
    {
        let (pred, ahead) = self.pred(DEPTH, tokens)?;
        match first(ahead) {
            Some((RuleToken::Semicolon, rest)) => Ok((RawBody::IfThen(premise, pred), rest)),
            Some((RuleToken::Else, rest)) => self.behind_else(premise, pred, rest),
            _ => Err(self.refused(ahead, DiagCode::MarkExpected)),
        }
    }

    // The last predicate of a constraint, to its `;`.
    fn last_pred<'t>(&self, tokens: &'t [LineToken]) -> Read<'t, RawPred>
        ensures plain { IfOk result (λ read. ReadsBody self.now.last tokens.now (λ line. before_pred (InPlain line)) (Plain (tree_of read.0)) read.1.now) }
        ensures no_plain { IfErr result (RefusesBody self.now.last tokens.now (λ line. before_pred (InPlain line))) }
        ensures other { IfOk result (λ read. (premise pred : Tree) → ReadsBody self.now.last tokens.now (λ line. before_pred (InElse line premise pred))
            (IfElse premise pred (tree_of read.0)) read.1.now) }
        ensures no_other { (premise pred : Tree) → IfErr result (RefusesBody self.now.last tokens.now (λ line. before_pred (InElse line premise pred))) }
        ensures shorter { IfOk result (λ read. length read.1.now < length tokens.now) }
    {
        let (last, ahead) = self.pred(DEPTH, tokens)?;
        match first(ahead) {
            Some((RuleToken::Semicolon, rest)) => Ok((last, rest)),
            _ => Err(self.refused(ahead, DiagCode::MarkExpected)),
        }
    }

    // The rest of a constraint behind ELSE.
    fn behind_else<'t>(
        &self,
        premise: RawPred,
        pred: RawPred,
        tokens: &'t [LineToken],
    ) -> Read<'t, RawBody>
        ensures ok { IfOk result (λ read. ReadsBody self.now.last tokens.now (λ line. before_pred (InElse line (tree_of premise) (tree_of pred)))
            (body_tree read.0) read.1.now) }
        ensures err { IfErr result (RefusesBody self.now.last tokens.now (λ line. before_pred (InElse line (tree_of premise) (tree_of pred)))) }
        ensures shorter { IfOk result (λ read. length read.1.now < length tokens.now) }
    {
        let (other, rest) = self.last_pred(tokens)?;
        Ok((RawBody::IfElse(premise, pred, other), rest))
    }

    // A constraint that is a predicate, to its `;`.
    fn plain<'t>(&self, tokens: &'t [LineToken]) -> Read<'t, RawBody>
        ensures ok { IfOk result (λ read. ReadsBody self.now.last tokens.now (λ line. before_pred (InPlain line)) (body_tree read.0) read.1.now) }
        ensures err { IfErr result (RefusesBody self.now.last tokens.now (λ line. before_pred (InPlain line))) }
        ensures shorter { IfOk result (λ read. length read.1.now < length tokens.now) }
    {
        let (pred, rest) = self.last_pred(tokens)?;
        Ok((RawBody::Plain(pred), rest))
    }

    // The body of a constraint.
    fn body<'t>(&self, tokens: &'t [LineToken]) -> Read<'t, RawBody>
        requires { 0 < length tokens.now }
        ensures ok { IfOk result (λ read. ReadsRule self.now.last tokens.now (body_tree read.0) read.1.now) }
        ensures err { IfErr result (RefusesRules self.now.last tokens.now) }
        ensures shorter { IfOk result (λ read. length read.1.now < length tokens.now) }
    {
        match behind_if(tokens) {
            Some(rest) => self.behind_if(rest),
            None => self.plain(tokens),
        }
    }

    // The constraints that tokens spell.
    fn rules(&self, tokens: &[LineToken]) -> Result<RawRuleList, ModelFault>
        ensures ok { IfOk result (λ rules. run most_open self.now.last tokens.now Between ≡ Ok (map rule_tree rules)) }
        ensures err { IfErr result (RefusesRules self.now.last tokens.now) }
    {
        let mut rules = OwnedList::new(self.alloc);
        let mut ahead = tokens;
        while !ahead.is_empty() {
            let line = first_line(ahead);
            let (body, rest) = self.body(ahead)?;
            rules.push(RawRule { line, body })?;
            ahead = rest;
        }
        Ok(rules)
    }
}

// The constraints that tokens spell.
fn parse_all(alloc: Global, tokens: &[LineToken]) -> Result<RawRuleList, ModelFault>
    ensures ok { IfOk result (λ rules. AreRules most_open tokens.now (map rule_tree rules)) }
    ensures err { IfErr result (λ fault. IfRefused fault (Refused most_open tokens.now)) }
{
    let last = last_line(tokens);
    Parser { alloc, last }.rules(tokens)
}

/// The constraints of a model file, in order (PICT's guide; the details are this project's rules).
///
/// # Errors
///
/// `BadRule` with the first token that is none, by `StrayCharacter`, `NameNotClosed`,
/// `TextNotClosed`, `BadNumber`, `NumberTooWide` or `UnknownWord`. Where all are tokens, `BadRule`
/// with the first token that can't go on, or at the line of the last token where the tokens end too
/// early: by `PredicateExpected`, `RelationExpected`, `OperandExpected` or `MarkExpected`, and by
/// `TooDeep` where a `(` or a NOT would be the 65th that is open. `NoMemory` where memory was refused.
pub fn parse_rules(alloc: Global, sections: &Sections<'_>) -> Result<RawRuleList, ModelFault>
    requires { AreSections sections.now }
    ensures ok { IfOk result (λ rules. Spell (map line_seen sections.now.rules) (map rule_tree rules)) }
    ensures err { IfErr result (λ fault. IfRefused fault (AreRefused (map line_seen sections.now.rules))) }
    ensures only { (trees : List RuleTree) → Spell (map line_seen sections.now.rules) trees →
        MatchResult result (λ rules. map rule_tree rules ≡ trees) (λ fault. fault ≡ ModelFault.NoMemory) }
{
    let tokens = read_tokens(alloc, sections.rules.as_slice())?;
    parse_all(alloc, tokens.as_slice())
}
