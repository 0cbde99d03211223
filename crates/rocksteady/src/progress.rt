// What is shown of a drive while it runs.
use rk_drive::Watch;
use rk_outside::{Gate, Point};
use std::sync::atomic::{AtomicU8, AtomicU64, Ordering};
use std::time::Clock;

/// Means no master in the list of owners.
const NOBODY: u8 = 0;

/// A gate that holds up nobody and, if it is asked to, writes a line a second to standard error: how many calls are answered, and in how
/// many lanes which master owns the table.
#[derive(Drop)]
pub(crate) struct Progress<'a, X> {
    rt: &'a X,
    is_shown: bool,
    /// The second of the clock in which the last line was due.
    second: AtomicU64,
    owners: [AtomicU8; 8],
}

impl<'a, X: Clock + Eprint> Progress<'a, X> {
    /// The progress of a drive that has yet to begin.
    pub(crate) fn new(rt: &'a X, is_shown: bool) -> Progress<'a, X> {
        Progress {
            rt,
            is_shown,
            second: AtomicU64::new(second_of(rt)),
            owners: [
                AtomicU8::new(NOBODY),
                AtomicU8::new(NOBODY),
                AtomicU8::new(NOBODY),
                AtomicU8::new(NOBODY),
                AtomicU8::new(NOBODY),
                AtomicU8::new(NOBODY),
                AtomicU8::new(NOBODY),
                AtomicU8::new(NOBODY),
            ],
        }
    }

    // Whether another second has begun since this was asked last.
    fn is_due(&self) -> bool {
        let second = second_of(self.rt);
        self.second.swap(second, Ordering::SeqCst) != second
    }

    // In how many lanes this is the owner of the table.
    fn lanes_of(&self, master: u8) -> u8 {
        let mut count: u8 = 0;
        for owner in &self.owners {
            if owner.load(Ordering::SeqCst) == master {
                count = count.saturating_add(1);
            }
        }
        count
    }
}

// The second in which the clock is; 0 if it cannot be read.
fn second_of<X: Clock>(rt: &X) -> u64 {
    match rt.monotonic() {
        Ok(time) => time.as_secs(),
        Err(_) => 0,
    }
}

impl<'a, X: Clock + Eprint> Gate for Progress<'a, X> {
    fn at(&self, _lane: u8, _point: Point) {}
}

impl<'a, X: Clock + Eprint> Watch for Progress<'a, X> {
    fn answered(&self, count: u64, all: u64) {
        if self.is_shown && self.is_due() {
            let first = self.lanes_of(1);
            let second = self.lanes_of(2);
            let nobody = self.lanes_of(NOBODY);
            // A line that cannot be written is left out.
            let _ = eprintln!(self.rt;
                "answered {count} of {all}; lanes owned by master 1: {first}, by master 2: {second}, by none: {nobody}"
            );
        }
    }

    fn owned(&self, lane: u8, master: Option<u8>) {
        if let Some(owner) = self.owners.get(usize::from(lane)) {
            owner.store(master.unwrap_or(NOBODY), Ordering::SeqCst);
        }
    }
}
