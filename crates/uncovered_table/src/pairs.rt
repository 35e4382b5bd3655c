ghost use Rattle.std.specs.Prelude.{◌≡◌, ◌==◌, [], Option, Some, if◌then◌else◌, ◌*◌, ◌+◌, ◌<◌, ◌≤◌, ◌⊎◌, ℕ, All, IfOk, IfSome, None, length, map, replicate, slice_index_or, sum_by, take, true};
ghost use Rattle.cov_model.specs.believed.Sound.{param_at};
ghost use Rattle.definitions.specs.SliceRows.{IsOfSlice};
ghost use Rattle.uncovered_table.specs.Bits.{InPlay, all_cleared, cleared, first_bit, held_bit, sets_in_play, value_held};
ghost use Rattle.uncovered_table.specs.Digits.{cell_digit, own_values, with_digit};
ghost use Rattle.definitions.specs.believed.Demand.{demanded_sets};
ghost use Rattle.uncovered_table.specs.Masks.{AreAll, AreBegins, AreWithout, IsCleared, IsMask, begin_at, restricted};
ghost use Rattle.uncovered_table.specs.Pairs.{AreKept, ArePartners, HasPairs, IsBlockPair, IsOtherMember, IsPartner, Matched, common_count, digit_count};
ghost use Rattle.uncovered_table.specs.Places.{slice_places};
ghost use Rattle.uncovered_table.specs.Prepared.{AreReady};
ghost use Rattle.uncovered_table.specs.Words.{bit_in};
ghost use Rattle.tuple_index.specs.Places.{RisesFrom};

use crate::held::{clear_held, from_value};
use crate::prepared::ColumnLines;
use crate::sets::SliceSets;
use crate::words::{WORD_BITS, clear_bit, count_common, set_bit, set_bits, used};
use bit_table::BitTable;
use cov_model::{Cells, ParamNo, ValueNo};
use std::alloc::Global;
use value_text::NoMemory;

// The number of words of a mask.
const MASK_WORDS: usize = 128;

// The most values of a column whose tuples are kept as pairs.
const MOST_VALUES: u32 = 32;

// The open tuples of the sets in play for a column, where each of these has one other member: a block of
// bits for each digit of the column, and in it a bit for each digit of each of these members.
#[derive(Drop)]
pub(crate) struct PairBits {
    // The other member of each set in play, in order.
    pub(crate) partners: Vec<ParamNo>,
    pub(crate) blocks: Vec<Vec<u64>>,
}

// The first words.
fn first_words(words: &[u64], count: usize) -> &[u64]
    requires { count ≤ length words.now }
    ensures { result.now ≡ take count words.now }
{
    &words[..count]
}

// As many blocks as this one.
fn copies(alloc: Global, block: &[u64], count: u32) -> Result<Vec<Vec<u64>>, NoMemory>
    ensures { IfOk result (λ blocks. map (λ list. list.items) blocks.items ≡ replicate count block.now) }
{
    let mut blocks = Vec::new(alloc);
    for _ in 0..count {
        let mut copy = Vec::new(alloc);
        copy.extend_from_slice(block)?;
        blocks.push(copy)?;
    }
    Ok(blocks)
}

// How many bits the block of a digit has in common with a mask, where there is a digit.
fn count_pairs(pairs: &PairBits, mask: &[u64], digit: Option<u16>) -> u32
    requires digit { IfSome digit (λ d. d < length pairs.now.blocks.items) }
    requires mask { length mask.now ≡ 128 }
    requires short { (d : ℕ) → length (slice_index_or (map (λ block. block.items) pairs.now.blocks.items) d []) ≤ 128 }
    ensures { result ≡ common_count (map (λ block. block.items) pairs.now.blocks.items) mask.now digit }
{
    match digit {
        Some(d) => {
            let block = &pairs.blocks[d as usize];
            count_common(block.as_slice(), mask)
        }
        None => 0,
    }
}

// Sets the bit of a digit, where there is one.
fn put_digit(mask: &mut [u64], begin: u32, digit: Option<u16>)
    requires { IfSome digit (λ d. begin + d < 64 * length mask.old) }
    ensures long { length mask.new ≡ length mask.old }
    ensures none { digit ≡ None → mask.new ≡ mask.old }
    ensures some { (d : ℕ) → digit ≡ Some d → (k : ℕ) → bit_in mask.new k ≡ (if k == begin + d then 1 else bit_in mask.old k) }
{
    if let Some(d) = digit {
        set_bit(mask, begin as usize + d as usize);
    }
}

// Of two parameters the one that is not the column.
fn other_of(first: ParamNo, second: ParamNo, column: ParamNo) -> ParamNo
    ensures { result ≡ (if first == column then second else first) }
{
    if first == column { second } else { first }
}

// The member beside the column, where it is one alone and not below a number.
fn other_member(members: &[ParamNo], column: ParamNo, next: u32) -> Option<ParamNo>
    ensures { IfSome result (IsOtherMember members.now column next) }
{
    if members.len() != 2 {
        return None;
    }
    let p = other_of(members[0], members[1], column);
    if u32::from(p) < next {
        return None;
    }
    Some(p)
}

impl<'a> SliceSets<'a> {
    // Where the bits of each parameter begin in a mask, and where those of the last one end.
    pub(crate) fn begins(&self, alloc: Global) -> Result<Vec<u32>, NoMemory>
        ensures { IfOk result (λ begins. AreBegins (digit_count self.now.model self.now.slice) (length self.now.model.params) begins.items) }
    {
        self.assert_invariant();
        let mut begins = Vec::new(alloc);
        let mut begin: u32 = 0;
        begins.push(begin)?;
        let count = self.part.param_count();
        for p in 0..count {
            begin += self.part.value_count(p as ParamNo);
            begins.push(begin)?;
        }
        Ok(begins)
    }

    // Puts the mask of the digits that cells give some parameters.
    fn put_mask(
        &self,
        begins: &[u32],
        params: &[ParamNo],
        cells: &[Option<ValueNo>],
        mask: &mut [u64],
    )
        requires begins { AreBegins (digit_count self.now.model self.now.slice) (length self.now.model.params) begins.now }
        requires exist { All (λ p. p < length self.now.model.params) params.now }
        requires cells { IsOfSlice self.now.model self.now.slice cells.now }
        requires fits { begin_at (digit_count self.now.model self.now.slice) (length self.now.model.params) ≤ 64 * length mask.old }
        requires none { (k : ℕ) → bit_in mask.old k ≡ 0 }
        ensures long { length mask.new ≡ length mask.old }
        ensures mask { IsMask (digit_count self.now.model self.now.slice)
            (restricted params.now (cell_digit (own_values self.now.model self.now.slice) cells.now)) (length self.now.model.params) (bit_in mask.new) }
    {
        self.assert_invariant();
        for k in 0..params.len() {
            let p = params[k];
            let begin = begins[p as usize];
            put_digit(mask, begin, self.digit_in(cells, p));
        }
    }

    // How many digits a parameter has.
    #[inline]
    fn digit_count(&self, begins: &[u32], p: ParamNo) -> u32
        requires begins { AreBegins (digit_count self.now.model self.now.slice) (length self.now.model.params) begins.now }
        requires param { p < length self.now.model.params }
        ensures { result ≡ digit_count self.now.model self.now.slice p }
    {
        let _ = self;
        begins[p as usize + 1] - begins[p as usize]
    }

    // The bit of the tuple of a set of two parameters that has these digits: the digit of the one that is
    // declared first counts for more.
    #[inline]
    fn pair_bit(
        &self,
        begins: &[u32],
        set: u32,
        first: u32,
        column: ParamNo,
        digit: u16,
        p: ParamNo,
        other: u16,
    ) -> u32
        requires begins { AreBegins (digit_count self.now.model self.now.slice) (length self.now.model.params) begins.now }
        requires column { column < length self.now.model.params }
        requires partner { IsPartner self.now.model self.now.slice column set p }
        requires first { first ≡ first_bit self.now.model self.now.slice set }
        requires digit { digit < digit_count self.now.model self.now.slice column }
        requires other { other < digit_count self.now.model self.now.slice p }
        ensures value { (digits : ℕ → Option ℕ) → digits column ≡ Some digit → digits p ≡ Some other
            → held_bit self.now.model self.now.slice digits set ≡ Some result }
        ensures within { result < length (slice_places self.now.model self.now.slice) }
    {
        self.assert_invariant();
        let _ = set;
        if p < column {
            first + u32::from(other) * self.digit_count(begins, column) + u32::from(digit)
        } else {
            first + u32::from(digit) * self.digit_count(begins, p) + u32::from(other)
        }
    }

    // The other member of each set in play for a column, where each has one and they rise.
    fn partners(&self, alloc: Global, column: ParamNo) -> Result<Option<Vec<ParamNo>>, NoMemory>
        requires { column < length self.now.model.params }
        ensures { IfOk result (λ found. IfSome found (λ partners. ArePartners self.now.model self.now.slice column (sets_in_play self.now.model self.now.slice column) partners.items)) }
    {
        self.assert_invariant();
        let in_play = self.in_play(column);
        let mut partners = Vec::new(alloc);
        let mut next: u32 = 0;
        for k in 0..in_play.len() {
            let members = self.part.members(in_play[k]);
            let p = match other_member(members, column, next) {
                Some(p) => p,
                None => return Ok(None),
            };
            next = u32::from(p) + 1;
            partners.push(p)?;
        }
        Ok(Some(partners))
    }

    // Sets the bits of all digits of some parameters.
    fn put_all(&self, begins: &[u32], params: &[ParamNo], mask: &mut [u64])
        requires begins { AreBegins (digit_count self.now.model self.now.slice) (length self.now.model.params) begins.now }
        requires exist { All (λ p. p < length self.now.model.params) params.now }
        requires fits { begin_at (digit_count self.now.model self.now.slice) (length self.now.model.params) ≤ 64 * length mask.old }
        requires none { (k : ℕ) → bit_in mask.old k ≡ 0 }
        ensures long { length mask.new ≡ length mask.old }
        ensures all { AreAll (digit_count self.now.model self.now.slice) params.now (bit_in mask.new) }
    {
        let _ = self;
        for k in 0..params.len() {
            let p = params[k];
            let from = begins[p as usize];
            let to = begins[p as usize + 1];
            set_bits(mask, from as usize, to as usize);
        }
    }

    // The pairs of a column, where the block of a digit has no more words than there are sets in play.
    fn column_pairs(
        &self,
        alloc: Global,
        column: ParamNo,
        begins: &[u32],
    ) -> Result<Option<PairBits>, NoMemory>
        requires column { column < length self.now.model.params }
        requires begins { AreBegins (digit_count self.now.model self.now.slice) (length self.now.model.params) begins.now }
        requires fits { begin_at (digit_count self.now.model self.now.slice) (length self.now.model.params) ≤ 64 * 128 }
        ensures { IfOk result (λ found. IfSome found (HasPairs self.now.model self.now.slice (replicate (length (slice_places self.now.model self.now.slice)) true) column)) }
    {
        self.assert_invariant();
        let count = self.part.value_count(column);
        let found = self.partners(alloc, column)?;
        let partners = match found {
            Some(partners) => partners,
            None => return Ok(None),
        };
        let mut mask = [0; MASK_WORDS];
        self.put_all(begins, partners.as_slice(), &mut mask);
        let words = used(&mask);
        if count > MOST_VALUES || words > partners.len() {
            return Ok(None);
        }
        let block = first_words(&mask, words);
        let blocks = copies(alloc, block, count)?;
        Ok(Some(PairBits { partners, blocks }))
    }

    // Those pairs, where a mask has room for all digits.
    fn pairs_if(
        &self,
        alloc: Global,
        end: u32,
        column: ParamNo,
        begins: &[u32],
    ) -> Result<Option<PairBits>, NoMemory>
        requires column { column < length self.now.model.params }
        requires begins { AreBegins (digit_count self.now.model self.now.slice) (length self.now.model.params) begins.now }
        requires end { end ≡ begin_at (digit_count self.now.model self.now.slice) (length self.now.model.params) }
        ensures { IfOk result (λ found. IfSome found (HasPairs self.now.model self.now.slice (replicate (length (slice_places self.now.model self.now.slice)) true) column)) }
    {
        if end as usize <= WORD_BITS * MASK_WORDS {
            self.column_pairs(alloc, column, begins)
        } else {
            Ok(None)
        }
    }

    // The pairs of each column that keeps some.
    pub(crate) fn all_pairs(
        &self,
        alloc: Global,
        begins: &[u32],
    ) -> Result<Vec<Option<PairBits>>, NoMemory>
        requires { AreBegins (digit_count self.now.model self.now.slice) (length self.now.model.params) begins.now }
        ensures { IfOk result (λ columns. AreKept self.now.model self.now.slice (replicate (length (slice_places self.now.model self.now.slice)) true) (length self.now.model.params) columns.items) }
    {
        self.assert_invariant();
        let count = self.part.param_count();
        let end = begins[count];
        let mut columns = Vec::new(alloc);
        for p in 0..count {
            let pairs = self.pairs_if(alloc, end, p as ParamNo, begins)?;
            columns.push(pairs)?;
        }
        Ok(columns)
    }
}

// Puts the counts of open tuples that cells contain with as many values of a column as there are scores,
// from one value on.
pub(crate) fn put_pair_counts(
    sets: &SliceSets<'_>,
    pairs: &PairBits,
    begins: &[u32],
    bits: &BitTable,
    cells: &Cells,
    column: ParamNo,
    from: ValueNo,
    scores: &mut [u32],
)
    requires cells { IsOfSlice sets.now.model sets.now.slice cells.now }
    requires column { column < length sets.now.model.params }
    requires values { from + length scores.old ≤ length (param_at sets.now.model.params column).values }
    requires begins { AreBegins (digit_count sets.now.model sets.now.slice) (length sets.now.model.params) begins.now }
    requires pairs { HasPairs sets.now.model sets.now.slice bits.now column pairs.now }
    ensures long { length scores.new ≡ length scores.old }
    ensures each { (i : ℕ) → i < length scores.old → slice_index_or scores.new i 0
        ≡ sum_by (value_held sets.now.model sets.now.slice bits.now cells.now column (from + i)) (sets_in_play sets.now.model sets.now.slice column) }
{
    sets.assert_invariant();
    let _ = bits;
    let mut mask = [0; MASK_WORDS];
    sets.put_mask(
        begins,
        pairs.partners.as_slice(),
        cells.as_slice(),
        &mut mask,
    );
    let digits = from_value(sets.digits(column), from);
    for i in 0..scores.len() {
        let digit = digits[i];
        scores[i] = count_pairs(pairs, &mask, digit);
    }
}

// Clears the bit of the tuple of a set of two parameters that cells contain, with this digit in the column,
// and its bit in the block of the digit. The first bit of the set is the one at place `k`, and is read only
// where the tuple is open.
fn clear_pair(
    sets: &SliceSets<'_>,
    begins: &[u32],
    set: u32,
    firsts: &[u32],
    k: usize,
    p: ParamNo,
    cells: &[Option<ValueNo>],
    column: ParamNo,
    digit: u16,
    bits: &mut BitTable,
    block: &mut Vec<u64>,
)
    requires begins { AreBegins (digit_count sets.now.model sets.now.slice) (length sets.now.model.params) begins.now }
    requires partner { IsPartner sets.now.model sets.now.slice column set p }
    requires within { k < length firsts.now }
    requires first { slice_index_or firsts.now k 0 ≡ first_bit sets.now.model sets.now.slice set }
    requires cells { IsOfSlice sets.now.model sets.now.slice cells.now }
    requires column { column < length sets.now.model.params }
    requires digit { digit < digit_count sets.now.model sets.now.slice column }
    requires bits { length bits.old ≡ length (slice_places sets.now.model sets.now.slice) }
    requires none { (e : ℕ) → cell_digit (own_values sets.now.model sets.now.slice) cells.now p ≡ Some e
        → bit_in block.old.items (begin_at (digit_count sets.now.model sets.now.slice) p + e) ≡ 0
        → cleared (held_bit sets.now.model sets.now.slice (with_digit (cell_digit (own_values sets.now.model sets.now.slice) cells.now) column digit) set) bits.old
        ≡ bits.old }
    ensures bits { bits.new ≡ cleared (held_bit sets.now.model sets.now.slice
        (with_digit (cell_digit (own_values sets.now.model sets.now.slice) cells.now) column digit) set) bits.old }
    ensures block { AreWithout (digit_count sets.now.model sets.now.slice) (cell_digit (own_values sets.now.model sets.now.slice) cells.now) p
        block.old.items block.new.items }
{
    match sets.digit_in(cells, p) {
        Some(other) => {
            let begin = begins[p as usize];
            if clear_bit(block, begin as usize + other as usize) {
                bits.clear(sets.pair_bit(begins, set, firsts[k], column, digit, p, other));
            }
        }
        None => {}
    }
}

// Clears these bits for each set in play for the column, by their other members.
fn clear_partners(
    sets: &SliceSets<'_>,
    begins: &[u32],
    partners: &[ParamNo],
    cells: &[Option<ValueNo>],
    column: ParamNo,
    digit: u16,
    bits: &mut BitTable,
    block: &mut Vec<u64>,
)
    requires begins { AreBegins (digit_count sets.now.model sets.now.slice) (length sets.now.model.params) begins.now }
    requires rise { RisesFrom 0 (length sets.now.model.params) partners.now }
    requires partners { Matched (IsBlockPair sets.now.model sets.now.slice column digit bits.old block.old.items)
        (sets_in_play sets.now.model sets.now.slice column) partners.now }
    requires cells { IsOfSlice sets.now.model sets.now.slice cells.now }
    requires column { column < length sets.now.model.params }
    requires digit { digit < digit_count sets.now.model sets.now.slice column }
    requires bits { length bits.old ≡ length (slice_places sets.now.model sets.now.slice) }
    ensures bits { bits.new ≡ all_cleared sets.now.model sets.now.slice
        (with_digit (cell_digit (own_values sets.now.model sets.now.slice) cells.now) column digit) bits.old
        (sets_in_play sets.now.model sets.now.slice column) }
    ensures block { IsCleared (digit_count sets.now.model sets.now.slice)
        (restricted partners.now (cell_digit (own_values sets.now.model sets.now.slice) cells.now)) block.old.items block.new.items }
{
    let demanded = sets.in_play(column);
    let firsts = sets.firsts(column);
    for k in 0..demanded.len() {
        let p = partners[k];
        clear_pair(
            sets,
            begins,
            demanded[k],
            firsts,
            k,
            p,
            cells,
            column,
            digit,
            bits,
            block,
        );
    }
}

// Clears the bits of the tuples that cells contain, with this digit in the column, where pairs are kept.
fn clear_pairs(
    sets: &SliceSets<'_>,
    pairs: &mut PairBits,
    begins: &[u32],
    bits: &mut BitTable,
    cells: &Cells,
    column: ParamNo,
    digit: u16,
)
    requires cells { IsOfSlice sets.now.model sets.now.slice cells.now }
    requires column { column < length sets.now.model.params }
    requires digit { digit < length (own_values sets.now.model sets.now.slice column) }
    requires bits { length bits.old ≡ length (slice_places sets.now.model sets.now.slice) }
    requires begins { AreBegins (digit_count sets.now.model sets.now.slice) (length sets.now.model.params) begins.now }
    requires pairs { HasPairs sets.now.model sets.now.slice bits.old column pairs.old }
    ensures bits { bits.new ≡ all_cleared sets.now.model sets.now.slice
        (with_digit (cell_digit (own_values sets.now.model sets.now.slice) cells.now) column digit) bits.old
        (sets_in_play sets.now.model sets.now.slice column) }
    ensures pairs { HasPairs sets.now.model sets.now.slice (all_cleared sets.now.model sets.now.slice
        (with_digit (cell_digit (own_values sets.now.model sets.now.slice) cells.now) column digit) bits.old
        (sets_in_play sets.now.model sets.now.slice column)) column pairs.new }
{
    sets.assert_invariant();
    let block = &mut pairs.blocks[digit as usize];
    clear_partners(
        sets,
        begins,
        pairs.partners.as_slice(),
        cells.as_slice(),
        column,
        digit,
        bits,
        block,
    );
}

// Clears those bits, by the pairs where they are kept, else by the lines of the sets.
fn clear_kept(
    sets: &SliceSets<'_>,
    kept: &mut Option<PairBits>,
    lines: Option<&ColumnLines>,
    begins: &[u32],
    bits: &mut BitTable,
    cells: &Cells,
    column: ParamNo,
    digit: u16,
)
    requires cells { IsOfSlice sets.now.model sets.now.slice cells.now }
    requires column { column < length sets.now.model.params }
    requires digit { digit < length (own_values sets.now.model sets.now.slice column) }
    requires bits { length bits.old ≡ length (slice_places sets.now.model sets.now.slice) }
    requires lines { IfSome lines (λ made. AreReady sets.now.model sets.now.slice bits.old column made.now) }
    requires begins { AreBegins (digit_count sets.now.model sets.now.slice) (length sets.now.model.params) begins.now }
    requires pairs { IfSome kept.old (HasPairs sets.now.model sets.now.slice bits.old column) }
    ensures bits { bits.new ≡ all_cleared sets.now.model sets.now.slice
        (with_digit (cell_digit (own_values sets.now.model sets.now.slice) cells.now) column digit) bits.old
        (sets_in_play sets.now.model sets.now.slice column) }
    ensures pairs { IfSome kept.new (HasPairs sets.now.model sets.now.slice (all_cleared sets.now.model sets.now.slice
        (with_digit (cell_digit (own_values sets.now.model sets.now.slice) cells.now) column digit) bits.old
        (sets_in_play sets.now.model sets.now.slice column)) column) }
{
    match kept {
        Some(pairs) => clear_pairs(sets, pairs, begins, bits, cells, column, digit),
        None => clear_held(sets, lines, bits, cells, column, digit),
    }
}

// Clears those bits, and keeps the pairs of each column.
pub(crate) fn clear_column(
    sets: &SliceSets<'_>,
    columns: &mut Vec<Option<PairBits>>,
    lines: Option<&ColumnLines>,
    begins: &[u32],
    bits: &mut BitTable,
    cells: &Cells,
    column: ParamNo,
    digit: u16,
)
    requires cells { IsOfSlice sets.now.model sets.now.slice cells.now }
    requires column { column < length sets.now.model.params }
    requires digit { digit < length (own_values sets.now.model sets.now.slice column) }
    requires bits { length bits.old ≡ length (slice_places sets.now.model sets.now.slice) }
    requires lines { IfSome lines (λ made. AreReady sets.now.model sets.now.slice bits.old column made.now) }
    requires begins { AreBegins (digit_count sets.now.model sets.now.slice) (length sets.now.model.params) begins.now }
    requires kept { AreKept sets.now.model sets.now.slice bits.old (length sets.now.model.params) columns.old.items }
    ensures bits { bits.new ≡ all_cleared sets.now.model sets.now.slice
        (with_digit (cell_digit (own_values sets.now.model sets.now.slice) cells.now) column digit) bits.old
        (sets_in_play sets.now.model sets.now.slice column) }
    ensures kept { AreKept sets.now.model sets.now.slice (all_cleared sets.now.model sets.now.slice
        (with_digit (cell_digit (own_values sets.now.model sets.now.slice) cells.now) column digit) bits.old
        (sets_in_play sets.now.model sets.now.slice column)) (length sets.now.model.params) columns.new.items }
{
    sets.assert_invariant();
    let kept = &mut columns[column as usize];
    clear_kept(sets, kept, lines, begins, bits, cells, column, digit);
}

// Forgets the pairs of the column for which a set is in play.
pub(crate) fn forget_pairs(sets: &SliceSets<'_>, columns: &mut Vec<Option<PairBits>>, set: u32)
    requires set { set < length (demanded_sets sets.now.model) }
    requires long { length columns.old.items ≡ length sets.now.model.params }
    ensures long { length columns.new.items ≡ length columns.old.items }
    ensures own { (p : ℕ) → InPlay sets.now.model sets.now.slice p set → slice_index_or columns.new.items p None ≡ None }
    ensures others { (p : ℕ) → (slice_index_or columns.new.items p None ≡ None) ⊎ (slice_index_or columns.new.items p None ≡ slice_index_or columns.old.items p None) }
{
    match sets.part.play_column(set) {
        Some(p) => columns[p as usize] = None,
        None => {}
    }
}
