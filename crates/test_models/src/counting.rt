use std::sync::atomic::{AtomicU32, AtomicU64, Ordering};
use worker_gate::Gate;

/// The numbers of workers that tests try: one, two, a few, and the most.
pub const WORKERS: &[u32] = &[1, 2, 7, 64];

/// A gate that keeps which workers come.
#[derive(Drop)]
pub struct Counting {
    // The bit of each number that came.
    numbers: AtomicU64,
    // How many came.
    count: AtomicU32,
}

impl Counting {
    /// The gate before a worker comes.
    pub fn new() -> Counting {
        Counting {
            numbers: AtomicU64::new(0),
            count: AtomicU32::new(0),
        }
    }

    /// Whether the numbers from 1 to this came, and none from there to 64.
    pub fn has_all(&self, workers: u32) -> bool {
        workers > 0
            && workers <= 64
            && self.numbers.load(Ordering::SeqCst) == u64::MAX >> (64 - workers)
    }

    /// Whether these came once each.
    pub fn has_each_once(&self, workers: u32) -> bool {
        self.has_all(workers) && self.count.load(Ordering::SeqCst) == workers
    }
}

impl Gate for Counting {
    fn come(&self, worker: u32) {
        self.count.fetch_add(1, Ordering::SeqCst);
        if worker > 0 && worker <= 64 {
            self.numbers.fetch_or(1 << (worker - 1), Ordering::SeqCst);
        }
    }
}
