use crate::counts::Counts;
use crate::words::Words;
use bit_table::BitTable;
use std::alloc::Global;
use value_text::NoMemory;

// The places that may be open: each open one is listed, perhaps with others, and none twice.
#[derive(Drop)]
pub(crate) struct OpenPlaces {
    places: Vec<u32>,
    unlisted: BitTable,
}

impl OpenPlaces {
    // No place of so many.
    pub(crate) fn new(alloc: Global, size: u32) -> Result<OpenPlaces, NoMemory> {
        Ok(OpenPlaces {
            places: Vec::new(alloc),
            unlisted: BitTable::all_set(alloc, size)?,
        })
    }

    // Lists a place, unless it is listed.
    pub(crate) fn add(&mut self, place: u32) -> Result<(), NoMemory> {
        if place < self.unlisted.len() && self.unlisted.is_set(place) {
            self.places.push(place)?;
            self.unlisted.clear(place);
        }
        Ok(())
    }

    // A random one of the listed places that are open. The others that are drawn are taken out.
    pub(crate) fn draw(&mut self, counts: &Counts, words: &mut Words) -> Option<u32> {
        for _ in 0..self.places.len() {
            let at = words.below(self.places.len());
            let place = *self.places.get(at)?;
            if counts.is_open(place) {
                return Some(place);
            }
            self.take_out(at, place);
        }
        None
    }

    // Takes the place out that stands there.
    fn take_out(&mut self, at: usize, place: u32) {
        if at < self.places.len() {
            let _ = self.places.swap_remove(at);
        }
        if place < self.unlisted.len() {
            self.unlisted.set(place);
        }
    }
}
