//! The workload of a drive, and what the drive writes of it.
//!
//! It builds on `rk_types`. What it promises: [`call`] is the call that the definition of the workload names, and [`count`] and
//! [`push_results`] are the counts and the lines of theirs; only want of memory is free.
#![tactic(auto)]

pub use calls::{TABLE, TABLET, call};
pub use summary::{Counts, Summary, count, push_results};

mod calls;
mod summary;
mod words;
