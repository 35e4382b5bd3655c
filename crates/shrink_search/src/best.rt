use crate::values::Digit;
use std::alloc::Global;
use value_text::NoMemory;

// The fewest rows so far that serve what the given ones serve: as in the suite, the digits of a parameter stand side
// by side.
#[derive(Drop)]
pub(crate) struct BestRows {
    digits: Vec<Digit>,
    origins: Vec<u32>,
    params: usize,
    room: usize,
    count: usize,
}

// Copies so many items from a place on to the same place.
fn copy_part<T: Copy>(from: &[T], to: &mut Vec<T>, begin: usize, count: usize) {
    let end = begin.saturating_add(count);
    if end <= from.len() && end <= to.len() {
        to.as_mut_slice()[begin..end].copy_from_slice(&from[begin..end]);
    }
}

impl BestRows {
    // Room for so many rows, and none there.
    pub(crate) fn new(alloc: Global, params: usize, room: usize) -> Result<BestRows, NoMemory> {
        Ok(BestRows {
            digits: vec![in alloc; 0; params.saturating_mul(room)]?,
            origins: vec![in alloc; 0; room]?,
            params,
            room,
            count: 0,
        })
    }

    // Becomes these rows: so many, where there is room for more.
    pub(crate) fn copy_from(&mut self, digits: &[Digit], origins: &[u32], count: usize) {
        for p in 0..self.params {
            let begin = p.wrapping_mul(self.room);
            copy_part(digits, &mut self.digits, begin, count);
        }
        copy_part(origins, &mut self.origins, 0, count);
        self.count = count;
    }

    // The number of rows.
    pub(crate) fn count(&self) -> usize {
        self.count
    }

    // The digit of a parameter in a row.
    pub(crate) fn digit(&self, p: usize, row: usize) -> Digit {
        match self.digits.get(p.wrapping_mul(self.room).wrapping_add(row)) {
            Some(digit) => *digit,
            None => 0,
        }
    }

    // The number of the given row that a row was.
    pub(crate) fn origin(&self, row: usize) -> u32 {
        match self.origins.get(row) {
            Some(origin) => *origin,
            None => 0,
        }
    }
}
