ghost use Rattle.std.specs.Prelude.{◌≡◌, ◌<◌, ◌≤◌, ◌∷◌, ◌++◌, [], true, false, length, slice_index_or, IfOk, IfSome};
ghost use Rattle.std.specs.List.{count_by};
ghost use Rattle.live_sets.specs.Trail.{live_count, mark_at, undone, with_mark};

use bit_table::BitTable;
use std::alloc::Global;
use std::marker::Model;
use value_text::NoMemory;

// A value of a parameter that was taken away.
#[derive(Drop, Clone, Copy)]
pub(crate) struct Taken {
    // The number of the parameter.
    pub(crate) param: u16,
    // The number of its value.
    pub(crate) value: u16,
}

/// For each parameter its live values. A value that is taken away is written on a trail, and going
/// back puts the values of the trail's end back. (This project's rule.)
#[derive(Drop)]
pub struct LiveSets {
    sets: Vec<BitTable>,
    places: Vec<Taken>,
    used: usize,
}

impl Model for LiveSets {
    ghost use Rattle.std.specs.Prelude.{◌+◌, ◌≤◌, take, length};
    ghost use Rattle.live_sets.specs.Trail.{LiveView, live_count};

    ghost Value = { LiveView };

    ghost view = { λ a. record { live = a.sets.items; trail = take a.used a.places.items } };

    ghost invariant = { λ a. a.used + live_count a.sets.items ≤ length a.places.items };
}

// How many values are live.
fn count_all(sets: &[BitTable]) -> Option<usize>
    ensures { IfSome result (λ count. count ≡ live_count sets.now) }
{
    let mut count = 0usize;
    for set in sets {
        count = count.checked_add(set.count() as usize)?;
    }
    Some(count)
}

impl LiveSets {
    /// These sets, with an empty trail. All room is taken here.
    ///
    /// # Errors
    ///
    /// `NoMemory` where there is no room.
    pub fn new(alloc: Global, sets: Vec<BitTable>) -> Result<LiveSets, NoMemory>
        ensures { IfOk result (λ all. all ≡ record { live = sets.items; trail = [] }) }
    {
        let Some(count) = count_all(sets.as_slice()) else {
            return Err(NoMemory);
        };
        let blank = Taken { param: 0, value: 0 };
        let places = vec![in alloc; blank; count]?;
        Ok(LiveSets {
            sets,
            places,
            used: 0,
        })
    }

    /// Whether a value is live.
    #[inline]
    pub fn is_live(&self, q: u16, w: u16) -> bool
        requires parameter { q < length self.now.live }
        requires value { w < length (slice_index_or self.now.live q []) }
        ensures { result ≡ mark_at self.now.live q w }
    {
        let set = &self.sets[q as usize];
        set.is_set(w as u32)
    }

    /// How many values of a parameter are live.
    #[inline]
    pub fn count(&self, q: u16) -> u32
        requires { q < length self.now.live }
        ensures { result ≡ count_by (λ mark. mark) (slice_index_or self.now.live q []) }
    {
        let set = &self.sets[q as usize];
        set.count()
    }

    /// The length of the trail.
    #[inline]
    pub fn trail_len(&self) -> usize
        ensures { result ≡ length self.now.trail }
    {
        self.used
    }

    /// Takes a live value away.
    #[inline]
    pub fn take_away(&mut self, q: u16, w: u16)
        requires parameter { q < length self.old.live }
        requires value { w < length (slice_index_or self.old.live q []) }
        requires live { mark_at self.old.live q w ≡ true }
        ensures { self.new ≡ record { live = with_mark self.old.live q w false; trail = self.old.trail ++ record { param = q; value = w } ∷ [] } }
    {
        let set = &mut self.sets[q as usize];
        set.clear(w as u32);
        self.places[self.used] = Taken { param: q, value: w };
        self.used += 1;
    }

    /// Goes back to where the trail had this length: puts the values after it back.
    pub fn undo(&mut self, len: usize)
        requires { len ≤ length self.old.trail }
        ensures { self.new ≡ undone self.old len }
    {
        while self.used > len {
            self.used -= 1;
            let taken = self.places[self.used];
            put_back(&mut self.sets, taken);
        }
    }
}

// Puts a value back.
#[inline]
fn put_back(sets: &mut Vec<BitTable>, taken: Taken)
    ensures { sets.new.items ≡ with_mark sets.old.items taken.param taken.value true }
{
    if (taken.param as usize) < sets.len() {
        let set = &mut sets[taken.param as usize];
        if (taken.value as u32) < set.len() {
            set.set(taken.value as u32);
        }
    }
}
