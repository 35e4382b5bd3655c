//! What is wrong with a constraint line, as `Size > 1 => Kind != "red"`.
use crate::declared::kind_above;
use crate::found::Found;
use crate::kind::Kind;
use crate::part::Part;
use crate::token::{Token, TokenKind, take_token};

// The most tokens that are looked at, and the most whose names are looked up above.
const MOST_TOKENS: u32 = 1 << 22;

const MOST_LOOKED_UP: u32 = 256;

// What a constraint waits for at a place.
#[derive(Drop, Clone, Copy)]
enum Awaited {
    // A comparison, a negation, or a part in parentheses.
    Unit,
    // A relation behind the first parameter of a comparison.
    Relation,
    // A value or parameter behind the relation.
    Operand,
    // What joins units, or an end.
    Joint,
}

// How far a constraint is read: what it waits for, how many parentheses are open, and whether its arrow stands before.
#[derive(Drop, Clone, Copy)]
struct Reached {
    awaited: Awaited,
    opened: u32,
    implies: bool,
}

impl Reached {
    fn start() -> Reached {
        Reached {
            awaited: Awaited::Unit,
            opened: 0,
            implies: false,
        }
    }

    fn awaiting(self, awaited: Awaited) -> Option<Reached> {
        Some(Reached { awaited, ..self })
    }

    // Whether the arrow may stand here.
    fn may_imply(self) -> bool {
        self.opened == 0 && !self.implies
    }

    // Behind the end of a unit, one token further; nothing where it may not stand here.
    fn behind_unit(self, token: TokenKind) -> Option<Reached> {
        match token {
            TokenKind::Joint => self.awaiting(Awaited::Unit),
            TokenKind::Arrow if self.may_imply() => {
                Some(Reached {
                    awaited: Awaited::Unit,
                    implies: true,
                    ..self
                })
            }
            TokenKind::Close if self.opened > 0 => {
                Some(Reached {
                    opened: self.opened.saturating_sub(1),
                    ..self
                })
            }
            _ => None,
        }
    }

    // One token further; nothing where it may not stand here.
    fn behind(self, token: TokenKind) -> Option<Reached> {
        match (self.awaited, token) {
            (Awaited::Unit, TokenKind::Name) => self.awaiting(Awaited::Relation),
            (Awaited::Unit, TokenKind::Not) => Some(self),
            (Awaited::Unit, TokenKind::Open) => {
                Some(Reached {
                    opened: self.opened.saturating_add(1),
                    ..self
                })
            }
            (Awaited::Relation, TokenKind::Equality | TokenKind::Order) => {
                self.awaiting(Awaited::Operand)
            }
            (Awaited::Operand, TokenKind::Name | TokenKind::Value(_)) => {
                self.awaiting(Awaited::Joint)
            }
            (Awaited::Joint, _) => self.behind_unit(token),
            _ => None,
        }
    }

    // Whether the constraint may end here.
    fn may_end(self) -> bool {
        match self.awaited {
            Awaited::Joint => self.opened == 0,
            Awaited::Unit | Awaited::Relation | Awaited::Operand => false,
        }
    }

    // What could stand here.
    fn expected(self) -> &'static str {
        match self.awaited {
            Awaited::Unit => "a parameter, \"!\" or \"(\"",
            Awaited::Relation => "=, !=, >, >=, < or <=",
            Awaited::Operand =>
                "a number of at most 9 digits, a text in quotes, true, false or a parameter",
            Awaited::Joint => {
                if self.opened > 0 {
                    "\"&&\", \"||\" or \")\""
                } else if self.implies {
                    "\"&&\", \"||\" or the end of the line"
                } else {
                    "\"&&\", \"||\", \"=>\" or the end of the line"
                }
            }
        }
    }
}

/// Where a text stops to be a constraint; nothing where it is nested too deeply.
pub(crate) fn no_constraint(text: Part<'_>) -> Option<Found<'_>> {
    let mut rest = text;
    let mut reached = Reached::start();
    for _ in 0..MOST_TOKENS {
        let Some(token) = take_token(&mut rest) else {
            if reached.may_end() {
                return None;
            }
            let end = text.behind(text.text.len());
            return Some(Found::in_place_of(end, reached.expected()));
        };
        match reached.behind(token.kind) {
            Some(further) => reached = further,
            None => return Some(Found::in_place_of(token.part, reached.expected())),
        }
    }
    None
}

/// The first parameter of a constraint that no line above declares.
pub(crate) fn unknown_parameter<'a>(
    bytes: &[u8],
    number: u32,
    text: Part<'a>,
    fold: bool,
) -> Option<Found<'a>> {
    let mut rest = text;
    for _ in 0..MOST_LOOKED_UP {
        let token = take_token(&mut rest)?;
        if token.kind == TokenKind::Name
            && kind_above(bytes, number, token.part.text, fold).is_none()
        {
            return Some(Found::is(token.part, "is no parameter that a line above declares"));
        }
    }
    None
}

// The type of what a token names or says.
fn kind_of(bytes: &[u8], number: u32, token: Token<'_>, fold: bool) -> Option<Kind> {
    match token.kind {
        TokenKind::Name => kind_above(bytes, number, token.part.text, fold),
        TokenKind::Value(kind) => Some(kind),
        _ => None,
    }
}

// What is wrong with the types of a comparison, if anything is: of this type is its parameter.
fn ill_typed<'a>(
    kind: Option<Kind>,
    relation: Token<'a>,
    operand: Token<'a>,
    operand_kind: Option<Kind>,
) -> Option<Found<'a>> {
    if relation.kind == TokenKind::Order && kind != Some(Kind::Int) {
        return Some(Found::is(
            relation.part,
            "orders values of a parameter that is not of the type int",
        ));
    }
    if kind != operand_kind {
        return Some(Found::is(
            operand.part,
            "is of another type than the parameter before it",
        ));
    }
    None
}

/// The first comparison of a constraint whose types differ, or that orders what isn't int.
pub(crate) fn types_differ<'a>(
    bytes: &[u8],
    number: u32,
    text: Part<'a>,
    fold: bool,
) -> Option<Found<'a>> {
    let mut rest = text;
    for _ in 0..MOST_LOOKED_UP {
        let token = take_token(&mut rest)?;
        if token.kind != TokenKind::Name {
            continue;
        }
        let relation = take_token(&mut rest)?;
        let operand = take_token(&mut rest)?;
        let kind = kind_of(bytes, number, token, fold);
        let operand_kind = kind_of(bytes, number, operand, fold);
        if let Some(found) = ill_typed(kind, relation, operand, operand_kind) {
            return Some(found);
        }
    }
    None
}
