ghost use Rattle.std.specs.Prelude.{◌≡◌, ◌<◌, ◌&&◌, ◌||◌, ◌==◌, ℕ, false, All, IfOk};
ghost use Rattle.seq_check.specs.EventSets.{AreBack, AreOf, in_set, in_set_at};

use crate::event_set::EventSet;
use std::alloc::Global;
use std::marker::Model;
use value_text::NoMemory;

/// Arrows between events, which are numbered below 64: for each event the set of those that an arrow leads to.
/// Contracts see the sets.
#[derive(Drop)]
pub struct Arrows {
    ends: Vec<EventSet>,
}

impl Model for Arrows {
    ghost use Rattle.std.specs.Prelude.{◌≡◌, List, length};
    ghost use Rattle.seq_check.specs.declared.event_set.EventSet.{EventSet};

    ghost Value = { List EventSet };

    ghost view = { λ arrows. arrows.ends.items };

    ghost invariant = { λ arrows. length arrows.ends.items ≡ 64 };
}

impl Arrows {
    /// No arrows.
    ///
    /// # Errors
    ///
    /// `NoMemory` where memory was refused.
    pub fn new(alloc: Global) -> Result<Arrows, NoMemory>
        ensures { IfOk result (λ arrows. (first second : ℕ) → in_set_at arrows first second ≡ false) }
    {
        match vec![in alloc; EventSet::none(); 64] {
            Ok(ends) => Ok(Arrows { ends }),
            Err(_) => Err(NoMemory),
        }
    }

    /// The arrows of these pairs.
    ///
    /// # Errors
    ///
    /// `NoMemory` where memory was refused.
    pub fn of(alloc: Global, pairs: &[(u16, u16)]) -> Result<Arrows, NoMemory>
        requires { All (λ pair. (pair.0 < 64) × (pair.1 < 64)) pairs.now }
        ensures { IfOk result (λ arrows. AreOf arrows pairs.now) }
    {
        let mut arrows = Arrows::new(alloc)?;
        for pair in pairs {
            arrows.add(pair.0, pair.1);
        }
        Ok(arrows)
    }

    /// The arrows of these pairs, turned round.
    ///
    /// # Errors
    ///
    /// `NoMemory` where memory was refused.
    pub fn back(alloc: Global, pairs: &[(u16, u16)]) -> Result<Arrows, NoMemory>
        requires { All (λ pair. (pair.0 < 64) × (pair.1 < 64)) pairs.now }
        ensures { IfOk result (λ arrows. AreBack arrows pairs.now) }
    {
        let mut arrows = Arrows::new(alloc)?;
        for pair in pairs {
            arrows.add(pair.1, pair.0);
        }
        Ok(arrows)
    }

    /// Adds an arrow.
    #[inline]
    pub fn add(&mut self, from: u16, to: u16)
        requires from { from < 64 }
        requires to { to < 64 }
        ensures { (first second : ℕ) → in_set_at self.new first second ≡ (in_set_at self.old first second || ((from == first) && (to == second))) }
    {
        let at = from as usize;
        let ends = self.ends[at].with(to);
        self.ends[at] = ends;
    }

    /// Adds arrows from an event to each of some others.
    #[inline]
    pub fn add_all(&mut self, from: u16, to: EventSet)
        requires { from < 64 }
        ensures { (first second : ℕ) → in_set_at self.new first second ≡ (in_set_at self.old first second || ((from == first) && in_set to second)) }
    {
        let at = from as usize;
        let ends = self.ends[at].union(to);
        self.ends[at] = ends;
    }

    /// The same arrows again.
    ///
    /// # Errors
    ///
    /// `NoMemory` where memory was refused.
    pub fn copy(&self, alloc: Global) -> Result<Arrows, NoMemory>
        ensures { IfOk result (λ arrows. arrows ≡ self.now) }
    {
        let ends = Vec::from_slice(alloc, self.ends.as_slice())?;
        Ok(Arrows { ends })
    }

    /// The events that an arrow leads to from an event.
    #[inline]
    pub fn ends(&self, from: u16) -> EventSet
        requires { from < 64 }
        ensures { (event : ℕ) → in_set result event ≡ in_set_at self.now from event }
    {
        self.ends[from as usize]
    }
}
