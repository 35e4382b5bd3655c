//! Reading group lines.
ghost use Rattle.std.specs.Prelude.{◌≡◌, ◌<◌, ◌≤◌, ◌==◌, [], true, false, Some, None, length, map, min, MatchOption, MatchResult, drop};
ghost use Rattle.std.specs.Char.{is_ascii_digit};
ghost use Rattle.std.specs.List.{list_any, prefix_len, take_while};
ghost use Rattle.std.specs.Option.{option_map};
ghost use Rattle.cov_model.specs.declared.demand.Group.{Group};
ghost use Rattle.model_lex.specs.believed.Blanks.{without_first_blanks};
ghost use Rattle.model_lex.specs.Sections.{line_seen};
ghost use Rattle.model_parse.specs.believed.Pieces.{pieces};
ghost use Rattle.model_parse.specs.Rules.{Gives};
ghost use Rattle.model_parse.specs.Steps.{and_each};
ghost use Rattle.model_parse.specs.believed.GroupLines.{has_braces, inside_braces, behind_braces, is_relation, strength_text};
ghost use Rattle.model_parse.specs.GroupSteps.{behind_strength, add_group, add_member, braces_code, group_code, group_list, group_order, order_text, read_group, read_groups, relation_code, sub_order};

use crate::cut::{begins_with, behind_mark, cut_last, pieces};
use crate::fault::bad;
use crate::name_set::NameSet;
use cov_model::{Demand, Group, NoList};
use model_lex::{DiagCode, ModelFault, ModelOpts, NumLine, trimmed, without_first_blanks};
use std::alloc::Global;
use value_text::{OwnedList, read_count};

// A group as its line spells it.
#[derive(Drop)]
struct Spelled<'a> {
    relation: bool,
    list: &'a str,
    order: Option<&'a str>,
}

// How many digits stand at the start of a text.
#[tactic(auto, using(model_lex::proofs::Runs::run_len))]
fn digit_len(text: &[u8]) -> usize
    ensures { result ≡ prefix_len is_ascii_digit text.now }
{
    text.iter().take_while(|byte| byte.is_ascii_digit()).count()
}

// The digits at the start of a text, and what stands behind them and blanks.
fn cut_digits(text: &str) -> (&str, &str)
    ensures digits { result.0.now ≡ take_while is_ascii_digit text.now }
    ensures behind { result.1.now ≡ without_first_blanks (drop (length (take_while is_ascii_digit text.now)) text.now) }
{
    let len = digit_len(text.as_bytes());
    (&text[..len], without_first_blanks(&text[len..]))
}

// The list between the braces of a group, and what stands behind them, trimmed.
fn cut_braces(text: &str) -> Option<(&str, &str)>
    ensures { MatchOption result (has_braces text.now ≡ false) (λ parts. (has_braces text.now ≡ true) × (parts.0.now ≡ inside_braces text.now) × (parts.1.now ≡ behind_braces text.now)) }
{
    let (list, behind) = cut_last(behind_mark(text, b'{')?, b'}')?;
    Some((list, trimmed(behind)))
}

// A relation, from what stands behind its `@`.
fn cut_relation(text: &str) -> Result<Spelled<'_>, DiagCode>
    ensures { MatchResult result (λ group. (relation_code text.now ≡ None) × (group.relation ≡ true)
        × (group.list.now ≡ inside_braces (behind_strength text.now)) × (option_map (λ order. order.now) group.order ≡ Some (strength_text text.now)))
        (λ code. relation_code text.now ≡ Some code) }
{
    let (digits, behind) = cut_digits(without_first_blanks(text));
    if digits.is_empty() {
        return Err(DiagCode::RelationNoOrder);
    }
    let Some((list, behind)) = cut_braces(behind) else {
        return Err(DiagCode::GroupNotClosed);
    };
    if !behind.is_empty() {
        return Err(DiagCode::TextAfterGroup);
    }
    Ok(Spelled {
        relation: true,
        list,
        order: Some(digits),
    })
}

// A sub-model, from its first brace on.
fn cut_sub(text: &str) -> Result<Spelled<'_>, DiagCode>
    ensures { MatchResult result (λ group. (braces_code false text.now ≡ None) × (group.relation ≡ false)
        × (group.list.now ≡ inside_braces text.now) × (option_map (λ order. order.now) group.order ≡ sub_order text.now))
        (λ code. braces_code false text.now ≡ Some code) }
{
    let Some((list, behind)) = cut_braces(text) else {
        return Err(DiagCode::GroupNotClosed);
    };
    let relation = false;
    if behind.is_empty() {
        let order = None;
        return Ok(Spelled {
            relation,
            list,
            order,
        });
    }
    match behind_mark(behind, b'@') {
        Some(order) => Ok(Spelled {
            relation,
            list,
            order: Some(trimmed(order)),
        }),
        None => Err(DiagCode::TextAfterGroup),
    }
}

// A group, as its line spells it.
fn cut_group(text: &str) -> Result<Spelled<'_>, DiagCode>
    ensures { MatchResult result (λ group. (group_code text.now ≡ None) × (group.relation ≡ is_relation text.now)
        × (group.list.now ≡ group_list text.now) × (option_map (λ order. order.now) group.order ≡ order_text text.now))
        (λ code. group_code text.now ≡ Some code) }
{
    let text = without_first_blanks(text);
    match behind_mark(text, b'@') {
        Some(rest) => cut_relation(rest),
        None => cut_sub(text),
    }
}

// Adds the parameter of this name to the members; refused where there is none, or where it is a
// member already.
fn add_member(
    alloc: Global,
    fold: bool,
    known: &NameSet,
    line: u32,
    members: &mut NoList,
    piece: &str,
) -> Result<(), ModelFault>
    requires { length known.now ≤ 256 }
    ensures { Gives (add_member fold known.now line members.old piece.now) (λ done. members.new) result }
{
    let Some(p) = known.place(alloc, piece, fold)? else {
        return Err(bad(line, DiagCode::UnknownMember));
    };
    let p = p as u16;
    if is_member(members.as_slice(), p) {
        return Err(bad(line, DiagCode::RepeatedMember));
    }
    members.push(p)?;
    Ok(())
}

// Whether a parameter is among the members.
fn is_member(members: &[u16], p: u16) -> bool
    ensures { result ≡ list_any (λ q. q == p) members.now }
{
    members.iter().any(|member| *member == p)
}

// The parameters of these names.
fn add_members(
    alloc: Global,
    fold: bool,
    known: &NameSet,
    line: u32,
    pieces: &[&str],
) -> Result<NoList, ModelFault>
    requires { length known.now ≤ 256 }
    ensures { Gives (and_each (add_member fold known.now line) [] (map (λ piece. piece.now) pieces.now)) (λ next. next) result }
{
    let mut members = OwnedList::new(alloc);
    for piece in pieces {
        add_member(alloc, fold, known, line, &mut members, piece)?;
    }
    Ok(members)
}

// The parameters that a list between braces names.
fn read_members(
    alloc: Global,
    opts: &ModelOpts,
    known: &NameSet,
    line: u32,
    list: &str,
) -> Result<NoList, ModelFault>
    requires separator { opts.now.marks.separator < 128 }
    requires few { length known.now ≤ 256 }
    ensures { Gives (and_each (add_member opts.now.fold known.now line) [] (pieces opts.now.marks.separator list.now)) (λ next. next) result }
{
    let pieces = pieces(alloc, list, opts.marks.separator)?;
    add_members(alloc, opts.fold, known, line, pieces.as_slice())
}

// The order of a group of so many members: the written one, where it is from 1 to their number, and
// without one that of the whole, but at most their number.
fn group_order(whole: u32, text: Option<&str>, count: u32) -> Option<u32>
    ensures { result ≡ group_order whole (option_map (λ order. order.now) text.entry) count }
{
    match text {
        Some(text) => read_count(text, 1, u64::from(count)).map(|order| order as u32),
        None => Some(whole.min(count)),
    }
}

// Adds a group of these members to the relations or to the sub-models of the demand; refused without
// an order.
fn add_group(
    line: u32,
    relation: bool,
    demand: &mut Demand,
    members: NoList,
    order: Option<u32>,
) -> Result<(), ModelFault>
    ensures { Gives (add_group line relation demand.old members order) (λ done. demand.new) result }
{
    let Some(order) = order else {
        return Err(bad(line, DiagCode::BadGroupOrder));
    };
    let group = Group { order, members };
    if relation {
        demand.relations.push(group)?;
        return Ok(());
    }
    demand.subs.push(group)?;
    Ok(())
}

// Reads a group line into the demand.
fn read_group(
    alloc: Global,
    opts: &ModelOpts,
    known: &NameSet,
    demand: &mut Demand,
    line: NumLine<'_>,
) -> Result<(), ModelFault>
    requires separator { opts.now.marks.separator < 128 }
    requires few { length known.now ≤ 256 }
    ensures { Gives (read_group opts.now known.now demand.old (line_seen line.entry)) (λ done. demand.new) result }
{
    let group = match cut_group(line.text) {
        Ok(group) => group,
        Err(code) => return Err(bad(line.line, code)),
    };
    let members = read_members(alloc, opts, known, line.line, group.list)?;
    // Each parameter is a member once at most, so there are far fewer.
    let Ok(count) = u32::try_from(members.len()) else {
        return Err(ModelFault::NoMemory);
    };
    let order = group_order(demand.order, group.order, count);
    add_group(line.line, group.relation, demand, members, order)
}

// Reads group lines into the demand, one after another.
fn add_groups(
    alloc: Global,
    opts: &ModelOpts,
    known: &NameSet,
    demand: &mut Demand,
    lines: &[NumLine<'_>],
) -> Result<(), ModelFault>
    requires separator { opts.now.marks.separator < 128 }
    requires few { length known.now ≤ 256 }
    ensures { Gives (and_each (read_group opts.now known.now) demand.old (map line_seen lines.now)) (λ done. demand.new) result }
{
    for line in lines {
        read_group(alloc, opts, known, demand, *line)?;
    }
    Ok(())
}

/// The demand of all group lines, where the whole has this order and the parameters have these names.
pub(crate) fn read_groups(
    alloc: Global,
    opts: &ModelOpts,
    known: &NameSet,
    order: u32,
    lines: &[NumLine<'_>],
) -> Result<Demand, ModelFault>
    requires separator { opts.now.marks.separator < 128 }
    requires few { length known.now ≤ 256 }
    ensures { Gives (read_groups opts.now known.now order (map line_seen lines.now)) (λ next. next) result }
{
    let mut demand = Demand {
        order,
        subs: OwnedList::new(alloc),
        relations: OwnedList::new(alloc),
    };
    add_groups(alloc, opts, known, &mut demand, lines)?;
    Ok(demand)
}
