ghost use Rattle.std.specs.Prelude.{◌≡◌, ◌<◌, ℕ, [], IfOk, IfSome, None, OnOk, Some, if◌then◌else◌, length, map, replicate, true};
ghost use Rattle.cov_model.specs.believed.Valid.{param_numbers};
ghost use Rattle.definitions.specs.believed.Demand.{demanded_sets};
ghost use Rattle.uncovered_table.specs.Bits.{sets_in_play};
ghost use Rattle.uncovered_table.specs.Digits.{HasAllValues};
ghost use Rattle.uncovered_table.specs.Kept.{AreBegins, AreTablesOf, digits_of, firsts_of, play_column, with_set};

use crate::part::SlicePart;
use cov_model::ParamNo;
use std::alloc::Global;
use value_text::NoMemory;

// What is kept of the demanded sets of a slice and of its values.
#[derive(Drop)]
pub(crate) struct SliceTables {
    // Where the bits of each set begin, and where those of the last one end.
    pub(crate) begins: Vec<u32>,
    // For each column the sets in play that have tuples in the slice.
    pub(crate) plays: Vec<Vec<u32>>,
    // And their first bits, side by side for those who walk over these sets.
    pub(crate) firsts: Vec<Vec<u32>>,
    // For each parameter the digits of its values.
    pub(crate) digits: Vec<Vec<Option<u16>>>,
    // Whether each value of each parameter is its own digit, so that none is looked up.
    pub(crate) plain: bool,
}

// As many empty lists.
fn empty_lists(alloc: Global, count: usize) -> Result<Vec<Vec<u32>>, NoMemory>
    ensures { IfOk result (λ lists. map (λ list. list.items) lists.items ≡ replicate count []) }
{
    let mut lists = Vec::new(alloc);
    for _ in 0..count {
        lists.push(Vec::new(alloc))?;
    }
    Ok(lists)
}

// Adds a set to the list of its column, if it has one.
fn push_set(lists: &mut Vec<Vec<u32>>, column: Option<ParamNo>, set: u32) -> Result<(), NoMemory>
    requires { IfSome column (λ p. p < length lists.old.items) }
    ensures { OnOk result (map (λ list. list.items) lists.new.items ≡ with_set column set (map (λ list. list.items) lists.old.items)) }
{
    if let Some(p) = column {
        lists[p as usize].push(set)?;
    }
    Ok(())
}

// The next digit, for a value of the slice.
fn digit_if(own: bool, next: u16) -> Option<u16>
    ensures { result ≡ (if own then Some next else None) }
{
    if own { Some(next) } else { None }
}

impl<'a> SlicePart<'a> {
    // Where the bits of each set begin, and where those of the last one end.
    fn bit_begins(&self, alloc: Global) -> Result<Vec<u32>, NoMemory>
        ensures { IfOk result (λ begins. AreBegins self.now.model self.now.slice (length (demanded_sets self.now.model)) begins.items) }
    {
        self.assert_invariant();
        let count = self.set_count();
        let mut begins = Vec::with_capacity(alloc, count as usize + 1)?;
        let mut begin: u32 = 0;
        begins.push(begin)?;
        for set in 0..count {
            begin += self.ranks(set).1;
            begins.push(begin)?;
        }
        Ok(begins)
    }

    // The column for which a set is in play, if it has a tuple in the slice.
    pub(crate) fn play_column(&self, set: u32) -> Option<ParamNo>
        requires { set < length (demanded_sets self.now.model) }
        ensures value { result ≡ play_column self.now.model self.now.slice set }
        ensures own { IfSome result (λ p. p < length self.now.model.params) }
    {
        if self.ranks(set).1 > 0 {
            self.last_column(set)
        } else {
            None
        }
    }

    // For each column the sets in play that have tuples in the slice.
    fn plays(&self, alloc: Global) -> Result<Vec<Vec<u32>>, NoMemory>
        ensures { IfOk result (λ lists. map (λ list. list.items) lists.items ≡ map (sets_in_play self.now.model self.now.slice)
            (param_numbers self.now.model)) }
    {
        let mut lists = empty_lists(alloc, self.param_count())?;
        for set in 0..self.set_count() {
            push_set(&mut lists, self.play_column(set), set)?;
        }
        Ok(lists)
    }

    // The first bits of the sets in play for a column.
    fn firsts_of(
        &self,
        alloc: Global,
        begins: &[u32],
        column: ParamNo,
        sets: &[u32],
    ) -> Result<Vec<u32>, NoMemory>
        requires begins { AreBegins self.now.model self.now.slice (length (demanded_sets self.now.model)) begins.now }
        requires sets { sets.now ≡ sets_in_play self.now.model self.now.slice column }
        ensures { IfOk result (λ firsts. firsts.items ≡ firsts_of self.now.model self.now.slice column) }
    {
        let mut firsts = Vec::with_capacity(alloc, sets.len())?;
        for set in sets {
            firsts.push(begins[*set as usize])?;
        }
        Ok(firsts)
    }

    // Those of each column.
    fn firsts(
        &self,
        alloc: Global,
        begins: &[u32],
        plays: &[Vec<u32>],
    ) -> Result<Vec<Vec<u32>>, NoMemory>
        requires begins { AreBegins self.now.model self.now.slice (length (demanded_sets self.now.model)) begins.now }
        requires plays { map (λ list. list.items) plays.now ≡ map (sets_in_play self.now.model self.now.slice) (param_numbers self.now.model) }
        ensures { IfOk result (λ lists. map (λ list. list.items) lists.items ≡ map (firsts_of self.now.model self.now.slice) (param_numbers self.now.model)) }
    {
        self.assert_invariant();
        let mut lists = Vec::new(alloc);
        for p in 0..self.param_count() {
            let firsts = self.firsts_of(alloc, begins, p as ParamNo, plays[p].as_slice())?;
            lists.push(firsts)?;
        }
        Ok(lists)
    }

    // The digits of the values of a parameter.
    fn digits_of(&self, alloc: Global, p: ParamNo) -> Result<Vec<Option<u16>>, NoMemory>
        requires { p < length self.now.model.params }
        ensures { IfOk result (λ digits. digits.items ≡ digits_of self.now.model self.now.slice p) }
    {
        self.assert_invariant();
        let mut digits = Vec::new(alloc);
        let mut next: u16 = 0;
        for v in 0..self.all_values(p) {
            let own = self.has_value(p, v);
            digits.push(digit_if(own, next))?;
            next += u16::from(own);
        }
        Ok(digits)
    }

    // The digits of the values of each parameter.
    fn digits(&self, alloc: Global) -> Result<Vec<Vec<Option<u16>>>, NoMemory>
        ensures { IfOk result (λ lists. map (λ list. list.items) lists.items ≡ map (digits_of self.now.model self.now.slice) (param_numbers self.now.model)) }
    {
        self.assert_invariant();
        let mut lists = Vec::new(alloc);
        for p in 0..self.param_count() {
            let digits = self.digits_of(alloc, p as ParamNo)?;
            lists.push(digits)?;
        }
        Ok(lists)
    }

    // Whether all values of each parameter are in the slice.
    fn is_plain(&self) -> bool
        ensures { result ≡ true → (p : ℕ) → p < length self.now.model.params → HasAllValues self.now.model self.now.slice p }
    {
        self.assert_invariant();
        for p in 0..self.param_count() {
            if !self.has_all_values(p as ParamNo) {
                return false;
            }
        }
        true
    }

    // The tables of the slice.
    pub(crate) fn tables(&self, alloc: Global) -> Result<SliceTables, NoMemory>
        ensures { IfOk result (λ tables. AreTablesOf self.now tables.begins.items (map (λ list. list.items) tables.plays.items)
            (map (λ list. list.items) tables.firsts.items) (map (λ list. list.items) tables.digits.items) tables.plain) }
    {
        let begins = self.bit_begins(alloc)?;
        let plays = self.plays(alloc)?;
        let firsts = self.firsts(alloc, begins.as_slice(), plays.as_slice())?;
        let digits = self.digits(alloc)?;
        Ok(SliceTables {
            begins,
            plays,
            firsts,
            digits,
            plain: self.is_plain(),
        })
    }
}
