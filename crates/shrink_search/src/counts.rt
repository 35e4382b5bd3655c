use std::alloc::Global;
use value_text::NoMemory;

// How many rows serve a place, and the exclusive or of their numbers: of one row its number.
#[derive(Clone, Copy)]
struct Count {
    rows: u16,
    numbers: u16,
}

// What the leaving of a row made of a place.
#[derive(Drop)]
pub(crate) enum Left {
    // No row serves it.
    Open,
    // This row alone serves it.
    Single(u16),
    // More rows serve it, or none has to.
    Shared,
}

// What the coming of a row made of a place.
#[derive(Drop)]
pub(crate) enum Entered {
    // The row alone serves it.
    Single,
    // This row served it alone before.
    NotSingle(u16),
    // More rows served it before, or none has to.
    Shared,
}

// The rows that serve each place, as counts. A place that needn't be served counts two rows more.
#[derive(Drop)]
pub(crate) struct Counts {
    counts: Vec<Count>,
}

impl Counts {
    // No row serves a place.
    pub(crate) fn new(alloc: Global, size: u32) -> Result<Counts, NoMemory> {
        let none = Count {
            rows: 0,
            numbers: 0,
        };
        let counts = vec![in alloc; none; size as usize]?;
        Ok(Counts { counts })
    }

    // A row comes to serve a place.
    #[inline]
    pub(crate) fn enter(&mut self, place: u32, row: u16) -> Entered {
        let Some(count) = self.counts.get_mut(place as usize) else {
            return Entered::Shared;
        };
        let before = count.numbers;
        count.rows = count.rows.saturating_add(1);
        count.numbers = before ^ row;
        match count.rows {
            1 => Entered::Single,
            2 => Entered::NotSingle(before),
            _ => Entered::Shared,
        }
    }

    // A row ceases to serve a place.
    #[inline]
    pub(crate) fn leave(&mut self, place: u32, row: u16) -> Left {
        let Some(count) = self.counts.get_mut(place as usize) else {
            return Left::Shared;
        };
        count.rows = count.rows.saturating_sub(1);
        count.numbers = count.numbers ^ row;
        match count.rows {
            0 => Left::Open,
            1 => Left::Single(count.numbers),
            _ => Left::Shared,
        }
    }

    // A row that serves a place gets another number.
    pub(crate) fn renumber(&mut self, place: u32, from: u16, to: u16) {
        if let Some(count) = self.counts.get_mut(place as usize) {
            count.numbers = count.numbers ^ from ^ to;
        }
    }

    // Whether no row serves a place that has to be served.
    pub(crate) fn is_open(&self, place: u32) -> bool {
        match self.counts.get(place as usize) {
            Some(count) => count.rows == 0,
            None => false,
        }
    }

    // Whether one row alone serves a place.
    pub(crate) fn is_single(&self, place: u32) -> bool {
        match self.counts.get(place as usize) {
            Some(count) => count.rows == 1,
            None => false,
        }
    }

    // How many places of a range are served.
    pub(crate) fn served(&self, from: u32, to: u32) -> u32 {
        let mut served: u32 = 0;
        for place in from..to {
            if !self.is_open(place) {
                served = served.saturating_add(1);
            }
        }
        served
    }

    // The places that no row serves needn't be served.
    pub(crate) fn excuse(&mut self) {
        for count in self.counts.as_mut_slice() {
            if count.rows == 0 {
                count.rows = 2;
            }
        }
    }
}
