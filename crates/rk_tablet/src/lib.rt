//! What a master has of one tablet: its handover, the last ends of its clients, what it pulls, and what a rebuild gathers.
//!
//! It builds on `rk_world`, whose definitions say what a tablet becomes, and on the crates of the parts that a tablet has:
//! `rk_transfer`, `rk_done`, `rk_priority`, `rk_pull`, `rk_side_log` and `rk_rebuild`. What it promises: contracts see a
//! [`TabletLane`] by its fields, and each method makes of the tablet that these represent, `tablet_of`, just what the
//! definitions do; [`fresh_mutation`] and [`fresh_read`] choose what the definitions choose for a call that is not known yet.
//! No method walks over records or a log.
#![tactic(auto)]

pub use choice::{Seen, fresh_mutation, fresh_read, is_mutation, outcome_of};
pub use gathering::completions_of;
pub use tablet_lane::{MOST_VERSIONS, TabletLane, half_of};

mod choice;
mod gathering;
mod pulling;
mod tablet_lane;
