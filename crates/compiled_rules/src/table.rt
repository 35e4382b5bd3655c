ghost use Rattle.std.specs.Prelude.{◌≡◌, ◌<◌, ◌++◌, ◌∷◌, [], false, length, slice_index_or, slice_set, take, IfOk, OnOk};

use bit_table::BitTable;
use std::alloc::Global;
use std::marker::Model;
use value_text::NoMemory;

/// What holds and what doesn't, a bit each, to which more is added. Contracts see the list.
#[derive(Drop)]
pub(crate) struct TruthTable {
    alloc: Global,
    bits: BitTable,
    used: u32,
}

impl Model for TruthTable {
    ghost use Rattle.std.specs.Prelude.{◌≤◌, Bool, List, length, take};

    ghost Value = { List Bool };

    ghost view = { λ a. take a.used a.bits };

    ghost invariant = { λ a. a.used ≤ length a.bits };
}

// Marks a place, or takes its mark away.
fn put(bits: &mut BitTable, place: u32, holds: bool)
    requires { place < length bits.old }
    ensures { bits.new ≡ slice_set bits.old place holds }
{
    if holds {
        bits.set(place);
    } else {
        bits.clear(place);
    }
}

// A longer table that begins with the marks of this one.
fn longer(alloc: Global, bits: &BitTable) -> Result<BitTable, NoMemory>
    ensures longer { IfOk result (λ more. length bits.now < length more) }
    ensures same { IfOk result (λ more. take (length bits.now) more ≡ bits.now) }
{
    let count = bits.len();
    let size = count.saturating_add(count / 2 + 64);
    if size == count {
        return Err(NoMemory);
    }
    let mut more = BitTable::all_set(alloc, size)?;
    for i in 0..count {
        put(&mut more, i, bits.is_set(i));
    }
    Ok(more)
}

impl TruthTable {
    /// An empty table.
    ///
    /// # Errors
    ///
    /// `NoMemory` where there is no room.
    pub(crate) fn new(alloc: Global) -> Result<TruthTable, NoMemory>
        ensures { IfOk result (λ table. table ≡ []) }
    {
        let bits = BitTable::all_set(alloc, 64)?;
        Ok(TruthTable {
            alloc,
            bits,
            used: 0,
        })
    }

    /// How many there are.
    pub(crate) fn len(&self) -> u32
        ensures { result ≡ length self.now }
    {
        self.used
    }

    /// What stands at a place; what is past the end doesn't hold.
    #[inline]
    pub(crate) fn holds(&self, place: usize) -> bool
        ensures { result ≡ slice_index_or self.now place false }
    {
        place < self.used as usize && self.bits.is_set(place as u32)
    }

    /// Adds one at the end.
    ///
    /// # Errors
    ///
    /// `NoMemory` where there is no room, or 2^32 - 1 are there.
    pub(crate) fn push(&mut self, holds: bool) -> Result<(), NoMemory>
        ensures { OnOk result (self.new ≡ self.old ++ holds ∷ []) }
    {
        let place = self.used;
        let Some(used) = place.checked_add(1) else {
            return Err(NoMemory);
        };
        if place == self.bits.len() {
            self.bits = longer(self.alloc, &self.bits)?;
        }
        put(&mut self.bits, place, holds);
        self.used = used;
        Ok(())
    }
}
