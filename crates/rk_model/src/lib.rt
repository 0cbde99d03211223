//! The map machine, and what a history owes to it and to its callers. It builds on rk_types.
//!
//! It says which outcomes a call may have at one map, when a history of records is legal, how the journals of the lanes
//! merge into one history, and when that is ordered with what the callers keep. [`replays`] finds exactly the first
//! record that is not allowed. Nothing here knows of counters, logs or tables.
//!
//! The laws are in `proofs/Headlines.antt`: histories join; each key is by itself, and another key does not mind; reads
//! change nothing; journals merge into one history, legal ones into a legal one, in which the latest record is last and
//! an unaccepted read is left out; and an empty history is ordered, and stays so when a call is asked and when it is
//! answered.
#![tactic(auto)]

pub use line::Line;
pub use replay::replays;

mod line;
mod replay;
