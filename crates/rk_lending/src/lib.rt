//! How the replicas of a run are lent to its cluster, and given back.
//!
//! It builds on `rk_cluster`. What it promises: [`lend`] takes the replicas of so many backups out of those of a run, and keeps room for
//! them; [`give_back`] takes no memory, and puts what each lane then has back at the places that it had, before the replicas kept.
#![tactic(auto)]

pub use lending::{Kept, REPLICAS, give_back, lend};

mod lending;
