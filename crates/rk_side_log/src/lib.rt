//! The side logs of a target that pulls a tablet: what each of its workers replayed, spelled into segments as it comes.
//!
//! It builds on `rk_world`, whose definitions say what a replay does and how a worker's items fill segments. What it
//! promises: contracts see [`SideLogs`] as the items of each worker; [`SideLogs::replay`] does to the records and to the
//! worker's items what the definitions' replay does to a master, and changes nothing if memory runs out;
//! [`SideLogs::seal`] hands out the segments that the definitions cut, without taking memory. No value is kept twice:
//! the segments are all that there is of the items.
//!
//! The laws are in `proofs/Headlines.antt`: what a replay is on a master that has the tablet, and that side segments
//! are packed: they have all items, in order, and none is empty, too long, or short enough to be joined with the next.
#![tactic(auto)]

pub use side_logs::{SideLogs, WORKERS};

mod replay;
mod side_log;
mod side_logs;
