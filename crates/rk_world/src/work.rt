use rk_types::{Call, Ended, Held, Listed, Outcome};

/// A call that a master served, with its outcome.
#[derive(Drop)]
pub struct Served {
    pub call: Call,
    pub outcome: Outcome,
}

/// A segment of a master's log that a rebuild reads.
#[derive(Clone, Copy, PartialEq, Eq)]
pub struct Reading {
    pub master: u8,
    pub segment: u32,
}

/// A piece of a master's log that a rebuild of a tablet made at this term: the entries from the place `first` on and before
/// the place `past`. They count for nothing until the coordinator takes the rebuild.
#[derive(Clone, Copy)]
pub struct Mark {
    pub master: u8,
    pub first: u64,
    pub past: u64,
    pub tablet: u32,
    pub term: u64,
}

/// What a rebuild adds to its log: items that are copied, by rising version, a number above each version, and the last
/// end of each client, in the order of the logs that record them.
#[derive(Drop)]
pub struct Merged {
    pub copies: Listed<Held>,
    pub floor: u64,
    pub ends: Listed<Ended>,
}
