//! The log of one master in one lane: entries cut into main segments, side segments beside them, and how much of each
//! segment each backup is known to hold.
//!
//! It builds on `rk_types`, `rk_entry` and `rk_segment`. What it promises: contracts see [`MasterLog`] as its entries,
//! its side segments and the known lengths; main segments hold the spellings of the entries, and an entry that does not
//! fit into the last one begins the next; an entry is committed exactly when every backup is known to hold it and all
//! before it, and stays so; a refusal and want of memory change nothing.
//!
//! The laws are in `proofs/Headlines.antt`: what is committed is held by all, and stays so; known lengths never fall;
//! and entries fill segments, from which they are read back.
#![tactic(auto)]

pub use copied::MOST_BACKUPS;
pub use log::MasterLog;
pub use overreach::Overreach;
pub use piece::Piece;

mod copied;
mod cursor;
mod ends;
mod log;
mod overreach;
mod piece;
mod reading;
