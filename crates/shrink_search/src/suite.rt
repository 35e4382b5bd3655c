use crate::best::BestRows;
use crate::counts::{Counts, Entered, Left};
use crate::open::OpenPlaces;
use crate::tuples::{Member, SliceTuples, Target};
use crate::values::Digit;
use crate::words::Words;
use cov_model::ParamNo;
use std::alloc::Global;
use value_text::NoMemory;

// The rows of a slice, and what they serve.
pub(crate) struct Suite<'t> {
    tuples: &'t SliceTuples,
    // how many rows there is room for, and how many there are
    room: usize,
    count: usize,
    params: usize,
    // the digits by parameter and row, and the same by row and parameter: rows are searched by the first, and a change of
    // a row goes by the second
    digits: Vec<Digit>,
    by_row: Vec<Digit>,
    // by row and parameter: how many tuples no other row serves that have the row's value of the parameter
    needed: Vec<u32>,
    // by row: how many tuples no other row serves
    alone: Vec<u32>,
    // by parameter and row: whether the value has to stay; empty where none has to
    fixed: Vec<bool>,
    // by row: whether one of its values has to stay
    held: Vec<bool>,
    // by row: the number of the given row that it was
    origins: Vec<u32>,
    counts: Counts,
    open_places: OpenPlaces,
    open: u32,
}

// Its parts are dropped here, and not anew wherever a search may end.
impl Drop for Suite<'_> {
    fn drop(self) {
        let Suite {
            tuples: _,
            room: _,
            count: _,
            params: _,
            digits: _,
            by_row: _,
            needed: _,
            alone: _,
            fixed: _,
            held: _,
            origins: _,
            counts: _,
            open_places: _,
            open: _,
        } = self;
    }
}

// The number of a row in 16 bits, which is enough for as many as there may be.
fn number_of(row: usize) -> u16 {
    (row & 0xffff) as u16
}

// One more.
fn raise(numbers: &mut Vec<u32>, at: usize) {
    if let Some(number) = numbers.get_mut(at) {
        *number = number.saturating_add(1);
    }
}

// One less.
fn lower(numbers: &mut Vec<u32>, at: usize) {
    if let Some(number) = numbers.get_mut(at) {
        *number = number.saturating_sub(1);
    }
}

// The item at a place becomes that at another one.
fn copy_item<T: Copy>(items: &mut Vec<T>, from: usize, to: usize) {
    if from < items.len() && to < items.len() {
        items[to] = items[from];
    }
}

impl<'t> Suite<'t> {
    // Room for so many rows, all with the first values, and none there yet.
    pub(crate) fn new(
        alloc: Global,
        tuples: &'t SliceTuples,
        params: usize,
        room: usize,
        fixes: bool,
    ) -> Result<Suite<'t>, NoMemory> {
        let cells = params.saturating_mul(room);
        let fixable = if fixes { cells } else { 0 };
        Ok(Suite {
            tuples,
            room,
            count: 0,
            params,
            digits: vec![in alloc; 0; cells]?,
            by_row: vec![in alloc; 0; cells]?,
            needed: vec![in alloc; 0; cells]?,
            alone: vec![in alloc; 0; room]?,
            fixed: vec![in alloc; false; fixable]?,
            held: vec![in alloc; false; room]?,
            origins: vec![in alloc; 0; room]?,
            counts: Counts::new(alloc, tuples.size())?,
            open_places: OpenPlaces::new(alloc, tuples.size())?,
            open: 0,
        })
    }

    // The number of rows.
    #[inline]
    pub(crate) fn count(&self) -> usize {
        self.count
    }

    // How many places that have to be served aren't.
    #[inline]
    pub(crate) fn open(&self) -> u32 {
        self.open
    }

    // The number of parameters.
    pub(crate) fn params(&self) -> ParamNo {
        self.params.min(ParamNo::MAX as usize) as ParamNo
    }

    // Where the numbers of a parameter begin.
    #[inline]
    fn column(&self, p: ParamNo) -> usize {
        (p as usize).wrapping_mul(self.room)
    }

    // Where the numbers of a row begin.
    #[inline]
    fn line(&self, row: usize) -> usize {
        row.wrapping_mul(self.params)
    }

    // The digit of a parameter in a row.
    #[inline]
    pub(crate) fn digit(&self, p: ParamNo, row: usize) -> Digit {
        match self.digits.get(self.column(p).wrapping_add(row)) {
            Some(digit) => *digit,
            None => 0,
        }
    }

    // How many tuples no other row serves that have the value of a parameter in a row.
    #[inline]
    pub(crate) fn needed(&self, p: ParamNo, row: usize) -> u32 {
        match self.needed.get(self.line(row).wrapping_add(p as usize)) {
            Some(number) => *number,
            None => 0,
        }
    }

    // The one value of a tuple that a row lacks, if it lacks exactly one.
    #[inline]
    pub(crate) fn lacking(&self, targets: &[Target], row: usize) -> Option<Target> {
        let mut lacking = None;
        for target in targets {
            if self.digit(target.param, row) != target.digit {
                if lacking.is_some() {
                    return None;
                }
                lacking = Some(*target);
            }
        }
        lacking
    }

    // Whether the value of a parameter in a row has to stay.
    pub(crate) fn is_fixed(&self, p: ParamNo, row: usize) -> bool {
        match self.fixed.get(self.column(p).wrapping_add(row)) {
            Some(fixed) => *fixed,
            None => false,
        }
    }

    // The number of the given row that a row was.
    pub(crate) fn origin(&self, row: usize) -> u32 {
        match self.origins.get(row) {
            Some(origin) => *origin,
            None => 0,
        }
    }

    // Whether a row repeats another one, once a parameter whose change loses no tuple has this digit. A row that alone
    // serves a tuple doesn't: the other one would serve it too.
    pub(crate) fn is_repeated(&self, p: ParamNo, row: usize, digit: Digit) -> bool {
        self.alone.get(row).copied().unwrap_or(0) == 0
            && (0..self.count).any(|other| other != row && self.is_repetition(p, row, digit, other))
    }

    // Whether a row is another one, once a parameter has this digit.
    fn is_repetition(&self, p: ParamNo, row: usize, digit: Digit, other: usize) -> bool {
        self.digit(p, other) == digit
            && (0..self.params()).all(|q| q == p || self.digit(q, row) == self.digit(q, other))
    }

    // Copies the rows.
    pub(crate) fn keep(&self, best: &mut BestRows) {
        best.copy_from(self.digits.as_slice(), self.origins.as_slice(), self.count);
    }

    // Puts a row behind the others, which was the given row of this number. Its digits are put by `put`.
    pub(crate) fn push(&mut self, origin: u32) {
        if let Some(own) = self.origins.get_mut(self.count) {
            *own = origin;
            self.count = self.count.saturating_add(1);
        }
    }

    // Puts a digit into a row whose places don't count yet.
    pub(crate) fn put(&mut self, p: ParamNo, row: usize, digit: Digit) {
        let at = self.column(p).wrapping_add(row);
        if let Some(own) = self.digits.get_mut(at) {
            *own = digit;
        }
        let at = self.line(row).wrapping_add(p as usize);
        if let Some(own) = self.by_row.get_mut(at) {
            *own = digit;
        }
    }

    // The value of a parameter in a row has to stay.
    pub(crate) fn fix(&mut self, p: ParamNo, row: usize) {
        let at = self.column(p).wrapping_add(row);
        if let Some(fixed) = self.fixed.get_mut(at) {
            *fixed = true;
        }
        if let Some(held) = self.held.get_mut(row) {
            *held = true;
        }
    }

    // Counts what the rows serve: what they don't serve now has never to be served. Tells the greatest number of
    // tuples of one set that they serve.
    pub(crate) fn begin(&mut self) -> u32 {
        let mut most = 0;
        for set in 0..self.tuples.set_count() {
            most = most.max(self.count_set(set));
        }
        self.counts.excuse();
        most
    }

    // Counts the rows that serve the tuples of a set. Tells how many of them are served.
    fn count_set(&mut self, set: u32) -> u32 {
        let tuples = self.tuples;
        let (base, members) = tuples.set(set);
        for row in 0..self.count {
            let place = self.place(base, members, row);
            let _ = self.counts.enter(place, number_of(row));
        }
        for row in 0..self.count {
            let place = self.place(base, members, row);
            if self.counts.is_single(place) {
                self.raise_need(members, row);
            }
        }
        self.counts.served(base, tuples.end(set))
    }

    // The number of rows with a value that has to stay.
    pub(crate) fn held_count(&self) -> u32 {
        let mut count: u32 = 0;
        for held in self.held.as_slice() {
            if *held {
                count = count.saturating_add(1);
            }
        }
        count
    }

    // The place of the tuple of a set that a row serves, by the set's first place and its members.
    #[inline]
    fn place(&self, base: u32, members: &[Member], row: usize) -> u32 {
        let line = self.line(row);
        let mut place = base;
        for member in members {
            let digit = match self.by_row.get(line.wrapping_add(member.param as usize)) {
                Some(digit) => u32::from(*digit),
                None => 0,
            };
            place = place.wrapping_add(digit.wrapping_mul(member.stride));
        }
        place
    }

    // A row alone serves its tuple of a set with these members.
    #[inline]
    fn raise_need(&mut self, members: &[Member], row: usize) {
        raise(&mut self.alone, row);
        let line = self.line(row);
        for member in members {
            raise(&mut self.needed, line.wrapping_add(member.param as usize));
        }
    }

    // A row doesn't alone serve its tuple of a set with these members any more.
    #[inline]
    fn lower_need(&mut self, members: &[Member], row: usize) {
        lower(&mut self.alone, row);
        let line = self.line(row);
        for member in members {
            lower(&mut self.needed, line.wrapping_add(member.param as usize));
        }
    }

    // A row ceases to serve a place of a set with these members.
    #[inline]
    fn leave(&mut self, members: &[Member], place: u32, row: usize) -> Result<(), NoMemory> {
        match self.counts.leave(place, number_of(row)) {
            Left::Open => {
                self.open = self.open.saturating_add(1);
                self.open_places.add(place)?;
                self.lower_need(members, row);
            }
            Left::Single(other) => self.raise_need(members, other as usize),
            Left::Shared => {}
        }
        Ok(())
    }

    // A row comes to serve a place of a set with these members.
    #[inline]
    fn enter(&mut self, members: &[Member], place: u32, row: usize) {
        match self.counts.enter(place, number_of(row)) {
            Entered::Single => {
                self.open = self.open.saturating_sub(1);
                self.raise_need(members, row);
            }
            Entered::NotSingle(other) => self.lower_need(members, other as usize),
            Entered::Shared => {}
        }
    }

    // Gives a parameter another digit in a row.
    pub(crate) fn change(&mut self, p: ParamNo, row: usize, digit: Digit) -> Result<(), NoMemory> {
        let tuples = self.tuples;
        let Some(sets) = tuples.sets_of(p) else {
            return Ok(());
        };
        let steps = u32::from(digit).wrapping_sub(u32::from(self.digit(p, row)));
        for number in 0..sets.len() {
            let (base, members) = sets.set(number);
            let stride = match members.first() {
                Some(own) => own.stride,
                None => 0,
            };
            let place = self.place(base, members, row);
            self.leave(members, place, row)?;
            self.enter(members, place.wrapping_add(steps.wrapping_mul(stride)), row);
        }
        self.put(p, row, digit);
        Ok(())
    }

    // Whether a row alone serves no tuple, and none of its values has to stay.
    pub(crate) fn is_spare(&self, row: usize) -> bool {
        self.alone.get(row).copied() == Some(0) && self.held.get(row).copied() == Some(false)
    }

    // The first of the rows of which the fewest tuples are served by no other row; none where each row has a value
    // that has to stay.
    pub(crate) fn least_needed(&self) -> Option<usize> {
        let mut least = None;
        for row in 0..self.count {
            if self.held.get(row).copied().unwrap_or(true) {
                continue;
            }
            let alone = self.alone.get(row).copied().unwrap_or(0);
            least = match least {
                Some((_, fewest)) if fewest <= alone => least,
                _ => Some((row, alone)),
            };
        }
        match least {
            Some((row, _)) => Some(row),
            None => None,
        }
    }

    // Takes a row away. The last row gets its number.
    pub(crate) fn remove(&mut self, row: usize) -> Result<(), NoMemory> {
        let tuples = self.tuples;
        for set in 0..tuples.set_count() {
            let (base, members) = tuples.set(set);
            let place = self.place(base, members, row);
            self.leave(members, place, row)?;
        }
        let last = self.count.saturating_sub(1);
        if row != last {
            self.move_row(last, row);
        }
        self.count = last;
        Ok(())
    }

    // A row gets another number, in place of the row that had it.
    fn move_row(&mut self, from: usize, to: usize) {
        let tuples = self.tuples;
        for set in 0..tuples.set_count() {
            let (base, members) = tuples.set(set);
            let place = self.place(base, members, from);
            self.counts.renumber(place, number_of(from), number_of(to));
        }
        for p in 0..self.params() {
            let digit = self.digit(p, from);
            self.put(p, to, digit);
            let column = self.column(p);
            copy_item(
                &mut self.fixed,
                column.wrapping_add(from),
                column.wrapping_add(to),
            );
            let (source, target) = (self.line(from), self.line(to));
            copy_item(
                &mut self.needed,
                source.wrapping_add(p as usize),
                target.wrapping_add(p as usize),
            );
        }
        copy_item(&mut self.alone, from, to);
        copy_item(&mut self.held, from, to);
        copy_item(&mut self.origins, from, to);
    }

    // A random open place.
    pub(crate) fn draw(&mut self, words: &mut Words) -> Option<u32> {
        self.open_places.draw(&self.counts, words)
    }
}
