//! What lanes behind locks and the clients that go from lane to lane count together: as many records are accepted by lanes as clients got
//! receipts, as many calls were asked of lanes as clients counted, and the eight lanes are numbered from 0 to 7.
//!
//! It builds on std alone, whose ledgers carry sums across threads. What it promises: a [`Tally`], which lies under one lock, raises the
//! share of a lane and that of a client together, and in the end shows that shares that were brought together agree. In `proofs`,
//! `Powers` and `Ordered` say why eight lanes whose powers of nine add up are those of 0 to 7, each once.
#![tactic(auto)]

pub use double_entry::{DoubleEntry, Opened};
pub use roster::Roster;
pub use tally::Tally;

mod double_entry;
mod roster;
mod tally;
