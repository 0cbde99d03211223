// Counts that threads wait for.
use std::sync::Wait;
use std::sync::atomic::{AtomicU64, Ordering};

/// Who waits looks at the low half of a count.
const LOW_HALF: u64 = 1 << 32;

/// A count that threads raise, and that others wait for. Who waits sleeps.
#[derive(Drop)]
pub(crate) struct Signal {
    count: AtomicU64,
    waiting: AtomicU64,
}

impl Signal {
    /// A count of 0.
    pub(crate) fn new() -> Signal {
        Signal {
            count: AtomicU64::new(0),
            waiting: AtomicU64::new(0),
        }
    }

    /// The count so far.
    pub(crate) fn count(&self) -> u64 {
        self.count.load(Ordering::SeqCst)
    }

    /// Adds one to the count, and wakes who waits for it.
    pub(crate) fn raise(&self) {
        self.count.fetch_add(1, Ordering::SeqCst);
        if self.waiting.load(Ordering::SeqCst) > 0 {
            self.count.wake_all();
        }
    }

    /// Waits while the count is this one; it may also come back sooner.
    pub(crate) fn wait_past<X: Wait>(&self, rt: &X, seen: u64) {
        self.waiting.fetch_add(1, Ordering::SeqCst);
        if self.count() == seen {
            self.count.park(rt, (seen % LOW_HALF) as u32);
        }
        self.waiting.fetch_sub(1, Ordering::SeqCst);
    }
}
