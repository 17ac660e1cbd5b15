use crate::clock::Clock;
use std::sync::atomic::{AtomicU64, Ordering};

/// A clock that stands still until it is told to rest. It starts at 0.
#[derive(Drop)]
pub struct MemoryClock {
    moment: AtomicU64,
}

impl MemoryClock {
    /// A clock at 0.
    pub fn new() -> Self {
        MemoryClock {
            moment: AtomicU64::new(0),
        }
    }
}

impl Clock for MemoryClock {
    // It gives every moment: what it says is for tests to see.
    ghost gave = { λ clock moment. Unit {0} };

    fn now(&self) -> u64 {
        self.moment.load(Ordering::SeqCst)
    }

    /// Moves the clock to that moment, where it is later.
    fn rest(&self, until: u64) {
        let _before = self.moment.fetch_max(until, Ordering::SeqCst);
    }
}
