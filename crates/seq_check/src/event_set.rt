ghost use Rattle.std.specs.Prelude.{◌≡◌, ◌≤◌, ◌<◌, ◌&&◌, ◌||◌, ◌==◌, ℕ, true, false, not, IfNone, IfSome};
ghost use Rattle.seq_check.specs.EventSets.{in_set, size_of};

/// A set of events, which are numbered below 64.
#[derive(Debug, Clone, Copy, PartialEq, Eq)]
pub struct EventSet {
    bits: u64,
}

impl EventSet {
    /// No event.
    pub fn none() -> EventSet
        ensures { (event : ℕ) → in_set result event ≡ false }
    {
        EventSet { bits: 0 }
    }

    /// Every event.
    pub fn all() -> EventSet
        ensures { (event : ℕ) → event < 64 → in_set result event ≡ true }
    {
        EventSet { bits: u64::MAX }
    }

    /// Whether an event is in the set.
    #[inline]
    pub fn has(self, event: u16) -> bool
        requires { event < 64 }
        ensures { result ≡ in_set self event }
    {
        (self.bits >> event) & 1 == 1
    }

    /// The set with an event besides.
    #[inline]
    pub fn with(self, event: u16) -> EventSet
        requires { event < 64 }
        ensures { (other : ℕ) → in_set result other ≡ (in_set self other || (event == other)) }
    {
        EventSet {
            bits: self.bits | (1 << event),
        }
    }

    /// The events of this set and of another.
    #[inline]
    pub fn union(self, other: EventSet) -> EventSet
        ensures { (event : ℕ) → in_set result event ≡ (in_set self event || in_set other event) }
    {
        EventSet {
            bits: self.bits | other.bits,
        }
    }

    /// The events of this set that are in another too.
    #[inline]
    pub fn common(self, other: EventSet) -> EventSet
        ensures { (event : ℕ) → in_set result event ≡ (in_set self event && in_set other event) }
    {
        EventSet {
            bits: self.bits & other.bits,
        }
    }

    /// The events of this set that aren't in another.
    #[inline]
    pub fn without(self, other: EventSet) -> EventSet
        ensures { (event : ℕ) → event < 64 → in_set result event ≡ (in_set self event && not (in_set other event)) }
    {
        EventSet {
            bits: self.bits & !other.bits,
        }
    }

    /// The number of events.
    #[inline]
    pub fn count(self) -> u32
        ensures value { result ≡ size_of self }
        ensures few { result ≤ 64 }
    {
        self.bits.count_ones()
    }

    /// The least event; `None` exactly where there is none.
    #[inline]
    pub fn first(self) -> Option<u16>
        ensures none { IfNone result ((event : ℕ) → event < 64 → in_set self event ≡ false) }
        ensures some { IfSome result (λ least. (least < 64) × (in_set self least ≡ true) × ((event : ℕ) → event < least → in_set self event ≡ false)) }
    {
        if self.bits == 0 {
            None
        } else {
            Some(self.bits.trailing_zeros() as u16)
        }
    }
}
