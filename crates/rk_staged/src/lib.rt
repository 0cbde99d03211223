//! What waits at a master until all backups hold it: the entries that are staged, the oldest first, with what is kept of the
//! newest staged item of each record, and the calls that they answer.
//!
//! What it promises: [`StagedEntries`] hands entries out in the order in which they came, and says of a record in one search
//! what the newest of its staged items is like; [`StagedCalls`] keeps calls by the places of their entries, and says in one
//! search whether a client's call is among them. After want of memory the calls are as they were.
#![tactic(auto)]

pub use staged_calls::StagedCalls;
pub use staged_entries::{Kept, StagedEntries};

mod call_counts;
mod staged_calls;
mod staged_entries;
