//! How a master that rebuilds a tablet gathers what the logs of a lineage hold, and merges it.
//!
//! It builds on `rk_world`, whose definitions say what is read next, what counts, and what is merged; code here does
//! just that. What it promises: [`Gather::next`] returns the segment that is read next, [`Gather::take`] takes that and
//! no other, and [`Gather::merge`] makes what a rebuild adds to its log: copies of the newest items that its own entries
//! lack, a floor, and the last end of each client. A call that finds no memory changes nothing. [`counted_entries`]
//! returns what counts of the rebuilding master's own entries.
#![tactic(auto)]

pub use gather::Gather;
pub use material::{counted_entries, lend_each, named};

mod copies;
mod ends;
mod floor;
mod gather;
mod material;
mod member;
mod merging;
mod reading;
