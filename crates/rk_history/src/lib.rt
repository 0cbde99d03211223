//! The history of a cluster: the journals of its lanes merged into one, and receipts held against them.
//!
//! It builds on `rk_model`, whose definitions say what a merged history is and when a receipt is recorded. What it
//! promises: [`merge`] answers just the merged history of the definitions, and [`audit`] finds exactly the first receipt
//! that the journals do not bear out. That receipts agree with a history that is ordered with them is the law in
//! `proofs/Headlines.antt`.
#![tactic(auto)]

pub use auditing::{Disagree, audit};
pub use merging::merge;

mod auditing;
mod merging;
