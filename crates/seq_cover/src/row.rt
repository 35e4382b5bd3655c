//! A row of a suite, place by place.
ghost use Rattle.std.specs.Prelude.{◌≡◌, ◌<◌, ◌≤◌, ◌∷◌, ◌++◌, ◌+◌, ◌*◌, ◌||◌, ◌⊎◌, [], ℕ, List, All};
ghost use Rattle.std.specs.Prelude.{true, false, not, nat_lt, length, is_some, slice_index, IfOk, IfSome};
ghost use Rattle.seq_check.specs.EventSets.{AreBack, Tells, in_set};
ghost use Rattle.seq_check.specs.believed.Orders.{is_had};
ghost use Rattle.seq_cover.specs.Building.{ArePlaced, ExistBelow, IsOnce, open_gain};
ghost use Rattle.seq_cover.specs.believed.OrderGrowth.{built_from, can_be_placed, gain, next_placed};

use seq_check::{Arrows, EventSet, NoList, OpenSequences};
use std::alloc::Global;
use value_text::{NoMemory, OwnedList};

// Whether an event isn't placed yet, and every event with an arrow to it is. The arrows are turned round.
#[inline]
fn can_be_placed(back: &Arrows, placed: EventSet, event: u16) -> bool
    requires { event < 64 }
    ensures value { (pairs : List (ℕ × ℕ)) (row : List ℕ) → AreBack back.now pairs → ExistBelow 64 pairs → ArePlaced placed row → result ≡ can_be_placed pairs row event }
    ensures left { result ≡ true → in_set placed event ≡ false }
{
    if placed.has(event) {
        return false;
    }
    back.ends(event).without(placed).first().is_none()
}

// Whether an event with this gain is better than the best so far, which has the most.
fn is_better(best: Option<u16>, most: u32, gained: u32) -> bool
    ensures { result ≡ (not (is_some best) || nat_lt most gained) }
{
    match best {
        Some(_) => most < gained,
        None => true,
    }
}

// The next event of a row, if one can be placed: the first of those of the greatest gain. The gains are those of the
// events behind the row.
fn next_placed(back: &Arrows, placed: EventSet, gains: &[u32]) -> Option<u16>
    requires { length gains.now ≤ 64 }
    ensures value { (pairs : List (ℕ × ℕ)) (rows : List (List ℕ)) (row : List ℕ) (len : ℕ) → AreBack back.now pairs → ExistBelow 64 pairs → ArePlaced placed row →
        ((event : ℕ) → event < length gains.now → slice_index gains.now event ≡ gain len rows row event) →
        result ≡ next_placed (length gains.now) len pairs rows row }
    ensures below { IfSome result (λ event. event < length gains.now) }
    ensures left { IfSome result (λ event. in_set placed event ≡ false) }
{
    let mut best = None;
    let mut most = 0;
    for event in 0..gains.len() as u16 {
        if !can_be_placed(back, placed, event) {
            continue;
        }
        let gained = gains[event as usize];
        if !is_better(best, most, gained) {
            continue;
        }
        best = Some(event);
        most = gained;
    }
    best
}

// By how much the gain of an event rises where another is placed behind a row.
#[inline]
fn raised(opened: &OpenSequences, len: u32, placed: EventSet, event: u16, last: u16) -> u32
    requires len { opened.now.len ≡ len }
    requires lens { (len ≡ 2) ⊎ (len ≡ 3) }
    requires event { event < 64 }
    requires last { last < 64 }
    ensures value { (row : List ℕ) → ArePlaced placed row → IsOnce row → open_gain opened.now row last + result ≡ open_gain opened.now (row ++ event ∷ []) last }
    ensures few { result ≤ 64 }
{
    if len == 2 {
        u32::from(opened.is_open(&[event], last))
    } else {
        opened.firsts(event, last).common(placed).count()
    }
}

// Raises the gains where an event is placed behind a row.
fn raise(opened: &OpenSequences, len: u32, placed: EventSet, event: u16, gains: &mut [u32])
    requires len { opened.now.len ≡ len }
    requires lens { (len ≡ 2) ⊎ (len ≡ 3) }
    requires event { event < 64 }
    requires count { length gains.old ≤ 64 }
    requires few { All (λ gain. gain ≤ 64 * 64) gains.old }
    ensures long { length gains.new ≡ length gains.old }
    ensures value { (row : List ℕ) (last : ℕ) → ArePlaced placed row → IsOnce row → last < length gains.old →
        slice_index gains.old last ≡ open_gain opened.now row last → slice_index gains.new last ≡ open_gain opened.now (row ++ event ∷ []) last }
    ensures few { (last : ℕ) → last < length gains.old → slice_index gains.new last ≤ slice_index gains.old last + 64 }
{
    for last in 0..gains.len() as u16 {
        gains[last as usize] += raised(opened, len, placed, event, last);
    }
}

/// A row, built place by place from the open sequences, for arrows between events below a number. The arrows are
/// turned round.
///
/// # Errors
///
/// `NoMemory` where memory was refused.
pub(crate) fn build_row(
    alloc: Global,
    back: &Arrows,
    opened: &OpenSequences,
    len: u32,
    count: u16,
) -> Result<NoList, NoMemory>
    requires len { opened.now.len ≡ len }
    requires lens { (len ≡ 2) ⊎ (len ≡ 3) }
    requires count { count ≤ 64 }
    ensures value { IfOk result (λ row. (pairs : List (ℕ × ℕ)) (rows : List (List ℕ)) → AreBack back.now pairs → ExistBelow 64 pairs →
        Tells opened.now count (λ s. not (is_had rows s)) → row ≡ built_from count len pairs rows count []) }
    ensures few { IfOk result (λ row. length row ≤ 64) }
{
    let mut gains = vec![in alloc; 0; count as usize]?;
    let mut row = OwnedList::new(alloc);
    let mut placed = EventSet::none();
    for turn in 0..count {
        let Some(event) = next_placed(back, placed, gains.as_slice()) else {
            return Ok(row);
        };
        raise(opened, len, placed, event, gains.as_mut_slice());
        placed = placed.with(event);
        row.push(event)?;
    }
    Ok(row)
}
