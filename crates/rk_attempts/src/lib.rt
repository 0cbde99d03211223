//! What a worker does in one lane while it has the lane's lock: a client's attempt for its call, a turn of the lane's nodes, and the replay
//! of one message.
//!
//! It builds on `rk_lane`. In `specs`, `attempt_on`, `turn_on` and `replay_on` say which events these are, one after the other, and what
//! they make of a lane and a session; `Came` says so of a lane in code. What it promises: [`numbers_with`] and [`first_with`] find the
//! messages that each of them takes, and [`heard`] says which refusals of a lane end it.
#![tactic(auto)]

pub use attempt::{Attempt, Short};
pub use hearing::heard;
pub use selection::{Selection, first_with, is_there, numbers_with};

mod attempt;
mod hearing;
mod selection;
