ghost use Rattle.std.specs.Prelude.{◌≡◌, ◌≢◌, ◌<◌, ◌≤◌, ◌++◌, ◌∷◌, ℕ, false, true, [], length, take, drop, slice_index_or, All, IfOk, IfSome, OnOk, None};
ghost use Rattle.cov_model.specs.believed.Rows.{is_assigned, with_value};
ghost use Rattle.cov_model.specs.believed.Sound.{param_at};
ghost use Rattle.cov_model.specs.believed.Tuples.{cells_of};
ghost use Rattle.definitions.specs.believed.Search.{breaks_a_rule, constrained_params};
ghost use Rattle.live_sets.specs.Trail.{IsSince, mark_at};
ghost use Rattle.refutation.specs.Proofs.{meant};
ghost use Rattle.feasibility.specs.Live.{HasShape, ShowsFailure};
ghost use Rattle.feasibility.specs.Refuting.{Closes, HasNoLeaf, IsPath};
ghost use Rattle.feasibility.specs.Solving.{IsReady};
ghost use Rattle.feasibility.specs.Tree.{IsListed, constrained_at};
ghost use Rattle.full_search.specs.Closing.{IsClosed, IsFirstLeaf, IsLeafBetween, IsOpen, KeepsRoom, TellsOf, ValueClosed, tree_of};
ghost use Rattle.full_search.specs.Reasons.{Grows, HasNoRow, IsPart};
ghost use Rattle.full_search.specs.Searching.{HasRoom};
ghost use Rattle.full_search.specs.Witnesses.{IsWitness};

use crate::branching::place_to_branch;
use crate::reason::{add_members, add_reason, clear};
use crate::searching::stuck_param;
use crate::witness::Witness;
use cov_model::{Cells, ParamNo, Tuple, ValueNo};
use feasibility::Refuter;
use live_sets::LiveSets;
use refutation::TreeToken;
use value_text::NoMemory;

// What came of a value of the parameter that a node branches on.
#[derive(Debug, Drop, Clone, Copy, PartialEq, Eq)]
enum Closed {
    // Its tree was added.
    Added,
    // Its tree refutes the node: the reason doesn't speak of the parameter.
    Whole,
}

// The leaf that is possible on the path with a value of a parameter more, if one is: the first of them.
fn leaf_with(
    refuter: &Refuter<'_>,
    p: ParamNo,
    v: ValueNo,
    cells: &mut Cells,
    sets: &LiveSets,
) -> Option<TreeToken>
    requires parameter { p < length refuter.now.model.params }
    requires value { v < length (param_at refuter.now.model.params p).values }
    requires free { is_assigned cells.old p ≡ false }
    requires path { IsPath refuter.now cells.old }
    requires unbroken { breaks_a_rule refuter.now.model cells.old ≡ false }
    requires shape { HasShape refuter.now.model sets.now.live }
    requires told { TellsOf refuter.now.model cells.old sets.now p v }
    ensures leaf { IfSome result (λ token. IsFirstLeaf refuter.now (with_value cells.old p v) (meant token)) }
    ensures live { result ≡ None → mark_at sets.now.live p v ≡ true }
    ensures leafless { result ≡ None → HasNoLeaf refuter.now (with_value cells.old p v) }
    ensures same { cells.new ≡ cells.old }
{
    refuter.assert_invariant();
    if !sets.is_live(p, v) {
        if refuter.is_negative(p, v) {
            return Some(TreeToken::ByNegative);
        }
        let rule = refuter.first_no_with(p, v, cells).unwrap();
        return Some(TreeToken::ByRule(rule));
    }
    match refuter.first_cited_with(p, v, cells) {
        Some(number) => Some(TreeToken::ByOmission(number)),
        None => None,
    }
}

// Adds to the reason the value that the path gives a parameter, but not that of the one that was branched on.
fn add_value(q: ParamNo, p: ParamNo, cells: &Cells, why: &mut Cells)
    requires parameter { q < length cells.now }
    requires grows { Grows cells.now p why.old why.old }
    ensures grows { Grows cells.now p why.old why.new }
    ensures value { q ≢ p → slice_index_or why.new q None ≡ slice_index_or cells.now q None }
{
    if q != p {
        if let Some(w) = cells.get(q) {
            why.set_cell(q, w);
        }
    }
}

// Adds to the reason the values that the path gives the parameters of a tuple, but not that of the parameter that
// was branched on.
fn add_tuple(tuple: &Tuple, p: ParamNo, cells: &Cells, why: &mut Cells)
    requires grows { Grows cells.now p why.old why.old }
    ensures grows { Grows cells.now p why.old why.new }
    ensures values { (q : ℕ) → q ≢ p → is_assigned (cells_of (length cells.now) tuple.now) q ≡ true
        → slice_index_or why.new q None ≡ slice_index_or cells.now q None }
{
    for (q, _) in tuple.as_slice() {
        if (*q as usize) < cells.len() {
            add_value(*q, p, cells, why);
        }
    }
}

// Adds to the reason what a leaf speaks of, but for the parameter that was branched on.
fn add_token(
    refuter: &Refuter<'_>,
    token: TreeToken,
    p: ParamNo,
    v: ValueNo,
    cells: &Cells,
    why: &mut Cells,
)
    requires parameter { p < length refuter.now.model.params }
    requires value { v < length (param_at refuter.now.model.params p).values }
    requires free { is_assigned cells.now p ≡ false }
    requires path { IsPath refuter.now cells.now }
    requires leaf { IsFirstLeaf refuter.now (with_value cells.now p v) (meant token) }
    requires grows { Grows cells.now p why.old why.old }
    ensures grows { Grows cells.now p why.old why.new }
    ensures leaf { IsLeafBetween refuter.now why.new cells.now p v (meant token) }
{
    refuter.assert_invariant();
    let _ = v;
    match token {
        TreeToken::ByRule(rule) => {
            add_members(refuter.tree(), rule, p, cells, why);
        }
        TreeToken::ByOmission(number) => {
            let tuple = &refuter.omissions().as_slice()[number as usize - 1].tuple;
            add_tuple(tuple, p, cells, why);
        }
        TreeToken::ByNegative | TreeToken::Branch(_) => {}
    }
}

// Takes away the tokens from a place on and before another.
fn cut(tokens: &mut Vec<TreeToken>, from: usize, to: usize)
    requires ordered { from ≤ to }
    requires within { to ≤ length tokens.old.items }
    ensures { tokens.new.items ≡ take from tokens.old.items ++ drop to tokens.old.items }
{
    let len = tokens.len();
    tokens.as_mut_slice().copy_within(to..len, from);
    tokens.truncate(from + (len - to));
}

// Puts the tree of a path that no leaf is possible on and whose node doesn't fail. No row contains the path.
#[cycle(closes)]
fn close(
    refuter: &Refuter<'_>,
    cells: &mut Cells,
    sets: &mut LiveSets,
    witness: &mut Witness,
    whys: &mut [Cells],
    tokens: &mut Vec<TreeToken>,
) -> Result<(), NoMemory>
    requires open { IsOpen refuter.now cells.old sets.old witness.old }
    requires room { HasRoom cells.old whys.old }
    ensures closed { OnOk result (IsClosed refuter.now cells.old (slice_index_or whys.new 0 []) tokens.old.items tokens.new.items) }
    ensures keeps { KeepsRoom refuter.now cells.old witness.new whys.old whys.new }
    ensures cells { cells.new ≡ cells.old }
    ensures sets { sets.new ≡ sets.old }
{
    refuter.assert_invariant();
    let i = place_to_branch(refuter.tree(), cells, sets, witness);
    let p = refuter.tree().constrained_at(i).param;
    let start = tokens.len();
    tokens.push(TreeToken::Branch(p))?;
    let (own, below) = whys.split_at_mut(1);
    let why = &mut own[0];
    clear(why);
    for v in 0..refuter.count_of(p) {
        let before = tokens.len();
        match close_value(refuter, i, v, cells, sets, witness, why, below, tokens)? {
            Closed::Added => {}
            Closed::Whole => {
                cut(tokens, start, before);
                return Ok(());
            }
        }
    }
    Ok(())
}

// Puts the tree of such a path with one value more of the constrained parameter at a place.
#[cycle(closes)]
fn close_value(
    refuter: &Refuter<'_>,
    i: usize,
    v: ValueNo,
    cells: &mut Cells,
    sets: &mut LiveSets,
    witness: &mut Witness,
    why: &mut Cells,
    below: &mut [Cells],
    tokens: &mut Vec<TreeToken>,
) -> Result<Closed, NoMemory>
    requires place { i < length (constrained_params refuter.now.model) }
    requires free { is_assigned cells.old (constrained_at refuter.now.model i) ≡ false }
    requires value { v < length (param_at refuter.now.model.params (constrained_at refuter.now.model i)).values }
    requires open { IsOpen refuter.now cells.old sets.old witness.old }
    requires room { HasRoom (with_value cells.old (constrained_at refuter.now.model i) v) below.old }
    requires grows { Grows cells.old (constrained_at refuter.now.model i) why.old why.old }
    ensures closed { IfOk result (ValueClosed refuter.now cells.old (constrained_at refuter.now.model i) v why.old why.new tokens.old.items tokens.new.items) }
    ensures keeps { KeepsRoom refuter.now cells.old witness.new below.old below.new }
    ensures long { length why.new ≡ length why.old }
    ensures cells { cells.new ≡ cells.old }
    ensures sets { sets.new ≡ sets.old }
{
    refuter.assert_invariant();
    let p = refuter.tree().constrained_at(i).param;
    if let Some(token) = leaf_with(refuter, p, v, cells, sets) {
        tokens.push(token)?;
        add_token(refuter, token, p, v, cells, why);
        return Ok(Closed::Added);
    }
    let len = sets.trail_len();
    witness.put(refuter.tree(), i, v);
    let closed = close_live(refuter, i, v, cells, sets, witness, below, tokens);
    sets.undo(len);
    cells.clear_cell(p);
    closed?;
    let reason = &below[0];
    if reason.get(p).is_none() {
        why.copy_from(reason);
        return Ok(Closed::Whole);
    }
    add_reason(refuter.tree(), p, v, cells, reason, why);
    Ok(Closed::Added)
}

// Puts the tree of such a path with a live value more, on which no leaf is possible. The cells have this value
// then, and values were taken away.
#[cycle(closes)]
fn close_live(
    refuter: &Refuter<'_>,
    i: usize,
    v: ValueNo,
    cells: &mut Cells,
    sets: &mut LiveSets,
    witness: &mut Witness,
    whys: &mut [Cells],
    tokens: &mut Vec<TreeToken>,
) -> Result<(), NoMemory>
    requires place { i < length (constrained_params refuter.now.model) }
    requires free { is_assigned cells.old (constrained_at refuter.now.model i) ≡ false }
    requires value { v < length (param_at refuter.now.model.params (constrained_at refuter.now.model i)).values }
    requires open { IsOpen refuter.now cells.old sets.old witness.old }
    requires kept { IsWitness (tree_of refuter.now) witness.old }
    requires part { IsPart (with_value cells.old (constrained_at refuter.now.model i) v) witness.old.row }
    requires path { IsPath refuter.now (with_value cells.old (constrained_at refuter.now.model i) v) }
    requires unbroken { breaks_a_rule refuter.now.model (with_value cells.old (constrained_at refuter.now.model i) v) ≡ false }
    requires leafless { HasNoLeaf refuter.now (with_value cells.old (constrained_at refuter.now.model i) v) }
    requires room { HasRoom (with_value cells.old (constrained_at refuter.now.model i) v) whys.old }
    ensures closed { OnOk result (IsClosed refuter.now (with_value cells.old (constrained_at refuter.now.model i) v) (slice_index_or whys.new 0 [])
        tokens.old.items tokens.new.items) }
    ensures keeps { KeepsRoom refuter.now (with_value cells.old (constrained_at refuter.now.model i) v) witness.new whys.old whys.new }
    ensures cells { cells.new ≡ (with_value cells.old (constrained_at refuter.now.model i) v) }
    ensures since { IsSince sets.old sets.new }
{
    if refuter.tree().enter(i, v, cells, sets) {
        return close(refuter, cells, sets, witness, whys, tokens);
    }
    close_stuck(refuter, cells, sets, &mut whys[0], tokens)
}

// Branches on a parameter without a live value: each of its values is a leaf.
fn close_stuck(
    refuter: &Refuter<'_>,
    cells: &mut Cells,
    sets: &LiveSets,
    why: &mut Cells,
    tokens: &mut Vec<TreeToken>,
) -> Result<(), NoMemory>
    requires path { IsPath refuter.now cells.old }
    requires unbroken { breaks_a_rule refuter.now.model cells.old ≡ false }
    requires leafless { HasNoLeaf refuter.now cells.old }
    requires shows { ShowsFailure refuter.now.model refuter.now.lists cells.old sets.now }
    requires long { length why.old ≡ length cells.old }
    ensures closed { OnOk result (IsClosed refuter.now cells.old why.new tokens.old.items tokens.new.items) }
    ensures long { length why.new ≡ length why.old }
    ensures same { cells.new ≡ cells.old }
{
    refuter.assert_invariant();
    let q = stuck_param(refuter.tree(), cells, sets);
    tokens.push(TreeToken::Branch(q))?;
    clear(why);
    for v in 0..refuter.count_of(q) {
        let token = leaf_with(refuter, q, v, cells, sets).unwrap();
        tokens.push(token)?;
        add_token(refuter, token, q, v, cells, why);
    }
    Ok(())
}

// Puts the tree of a path whose node fails, as the sets show: a leaf if one is possible, else a branch on a
// parameter without a live value.
fn close_failing(
    refuter: &Refuter<'_>,
    cells: &mut Cells,
    sets: &LiveSets,
    whys: &mut [Cells],
    tokens: &mut Vec<TreeToken>,
) -> Result<(), NoMemory>
    requires path { IsPath refuter.now cells.old }
    requires shows { ShowsFailure refuter.now.model refuter.now.lists cells.old sets.now }
    requires room { HasRoom cells.old whys.old }
    ensures closes { OnOk result (Closes refuter.now (cells.old ∷ []) (length tokens.new.items) tokens.old.items tokens.new.items) }
    ensures as_many { length whys.new ≡ length whys.old }
    ensures long { All (λ why. length why ≡ length cells.old) whys.new }
    ensures same { cells.new ≡ cells.old }
{
    refuter.assert_invariant();
    if let Some(rule) = refuter.first_no(cells) {
        tokens.push(TreeToken::ByRule(rule))?;
        return Ok(());
    }
    if let Some(number) = refuter.first_cited(cells) {
        tokens.push(TreeToken::ByOmission(number))?;
        return Ok(());
    }
    close_stuck(refuter, cells, sets, &mut whys[0], tokens)
}

// Puts the tree of the tuple, of which the cells are a copy, given whether the node without values fails. No row
// serves the tuple.
pub(crate) fn close_tuple(
    refuter: &Refuter<'_>,
    fails: bool,
    cells: &mut Cells,
    sets: &mut LiveSets,
    witness: &mut Witness,
    whys: &mut [Cells],
    tokens: &mut Vec<TreeToken>,
) -> Result<(), NoMemory>
    requires path { IsPath refuter.now cells.old }
    requires listed { IsListed refuter.now.lists cells.old }
    requires ready { IsReady refuter.now.model refuter.now.lists fails sets.old }
    requires kept { fails ≡ false → IsWitness (tree_of refuter.now) witness.old }
    requires none { HasNoRow (tree_of refuter.now) cells.old }
    requires room { HasRoom cells.old whys.old }
    ensures closes { OnOk result (Closes refuter.now (cells.old ∷ []) (length tokens.new.items) tokens.old.items tokens.new.items) }
    ensures kept { fails ≡ false → IsWitness (tree_of refuter.now) witness.new }
    ensures as_many { length whys.new ≡ length whys.old }
    ensures long { All (λ why. length why ≡ length cells.old) whys.new }
    ensures cells { cells.new ≡ cells.old }
    ensures sets { sets.new ≡ sets.old }
{
    if fails {
        return close_failing(refuter, cells, sets, whys, tokens);
    }
    let len = sets.trail_len();
    let closed = close_started(refuter, cells, sets, witness, whys, tokens);
    sets.undo(len);
    closed
}

// The same where that node doesn't fail. Values were taken away then.
fn close_started(
    refuter: &Refuter<'_>,
    cells: &mut Cells,
    sets: &mut LiveSets,
    witness: &mut Witness,
    whys: &mut [Cells],
    tokens: &mut Vec<TreeToken>,
) -> Result<(), NoMemory>
    requires path { IsPath refuter.now cells.old }
    requires listed { IsListed refuter.now.lists cells.old }
    requires ready { IsReady refuter.now.model refuter.now.lists false sets.old }
    requires kept { IsWitness (tree_of refuter.now) witness.old }
    requires none { HasNoRow (tree_of refuter.now) cells.old }
    requires room { HasRoom cells.old whys.old }
    ensures closes { OnOk result (Closes refuter.now (cells.old ∷ []) (length tokens.new.items) tokens.old.items tokens.new.items) }
    ensures kept { IsWitness (tree_of refuter.now) witness.new }
    ensures as_many { length whys.new ≡ length whys.old }
    ensures long { All (λ why. length why ≡ length cells.old) whys.new }
    ensures cells { cells.new ≡ cells.old }
    ensures since { IsSince sets.old sets.new }
{
    refuter.assert_invariant();
    if !refuter.tree().start(cells, sets) {
        return close_failing(refuter, cells, sets, whys, tokens);
    }
    if let Some(number) = refuter.first_cited(cells) {
        tokens.push(TreeToken::ByOmission(number))?;
        return Ok(());
    }
    witness.put_all(refuter.tree(), cells);
    close(refuter, cells, sets, witness, whys, tokens)
}
