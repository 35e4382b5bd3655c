use std::sync::atomic::{AtomicBool, Ordering};
use worker_gate::Gate;

// How often a worker looks whether the other has come, before it goes on alone.
const MOST_LOOKS: u32 = 1 << 28;

// One of the two workers: whether it has come, and whether it then saw that the other has come too.
#[derive(Drop)]
struct Visitor {
    has_come: AtomicBool,
    has_met: AtomicBool,
}

impl Visitor {
    fn new() -> Visitor {
        Visitor {
            has_come: AtomicBool::new(false),
            has_met: AtomicBool::new(false),
        }
    }

    // Comes, and waits for the other, though not for ever. Only the first time counts: later the other may have
    // come and gone.
    fn meet(&self, other: &Visitor) {
        if self.has_come.swap(true, Ordering::SeqCst) {
            return;
        }
        for _ in 0..MOST_LOOKS {
            if other.has_come.load(Ordering::SeqCst) {
                self.has_met.store(true, Ordering::SeqCst);
                return;
            }
        }
    }
}

/// A gate of two workers, at which each waits, though not for ever, until the other has come. One thread that does
/// both workers' work, in whichever order, leaves the first of them waiting in vain.
#[derive(Drop)]
pub struct Meeting {
    first: Visitor,
    second: Visitor,
}

impl Meeting {
    /// The gate before a worker comes.
    pub fn new() -> Meeting {
        Meeting {
            first: Visitor::new(),
            second: Visitor::new(),
        }
    }

    /// Whether each worker saw, when it came for the first time, that the other had come.
    pub fn has_met(&self) -> bool {
        self.first.has_met.load(Ordering::SeqCst) && self.second.has_met.load(Ordering::SeqCst)
    }
}

impl Gate for Meeting {
    fn come(&self, worker: u32) {
        if worker == 1 {
            self.first.meet(&self.second);
        } else {
            self.second.meet(&self.first);
        }
    }
}
