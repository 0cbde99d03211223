//! `drive`: clients make the calls of a workload on threads, while a tablet moves from one master to another, and a master crashes if that
//! is asked for.
//!
//! It builds on `rk_shared_lanes`, whose lanes the workers share, on `rk_dispatch`, which hands pulled records to workers of their own, and
//! on `rk_conclude`, which brings the lanes to rest in the end, audits the receipts and writes the outcome.
#![tactic(auto)]

pub use driving::drive;
pub use plan::{Crash, Plan};
pub use watch::Watch;
pub use words::{MOST_CALLS, MOST_CLIENTS, MOST_KEYS, plan_of};

mod board;
mod calling;
mod conducting;
mod driving;
mod plan;
mod replaying;
mod signal;
mod start;
mod turning;
mod watch;
mod words;
mod workers;
