//! The coordinator of one lane: its rows of tablets, which masters it noticed dead, and what sources reported of the
//! tablets that move.
//!
//! It builds on `rk_world`, whose definitions say what a coordinator does. What it promises: contracts see a
//! [`CoordinatorLane`] as the coordinator of the definitions; what it makes of a message, what it does on its turn, and
//! how a tablet is added, moved or split and a crash noticed is exactly what they say; an error changes nothing.
#![tactic(auto)]

pub use coordinator_lane::CoordinatorLane;
pub use handled::Handled;

mod coordinator_lane;
mod handled;
mod told;
