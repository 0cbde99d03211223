//! How a drive ends: the lanes and sessions that were gathered come to rest, the receipts are held against the journals, and the outcome is
//! written.
//!
//! It builds on `rk_settle`, `rk_history`, `rk_lines` and `rk_workload`. What it promises: [`conclude`] settles just as the definitions of
//! `rk_settle` say, what it writes is the text that `specs` defines of the cluster at rest, its status says what the audit found, and the
//! replicas of the lanes come back in their places.
#![tactic(auto)]

pub use ending::conclude;
pub use results::owner_in;

mod auditing;
mod ending;
mod reporting;
mod results;
