//! Lanes behind locks, and clients that go from lane to lane.
//!
//! It builds on `rk_lane`, on the work that is done in a lane (`rk_attempts`), on the laws of lanes that are stepped apart
//! (`rk_laws_lanes`), and on the books of `rk_shared`. What it promises: whenever a lane's lock is free, its shares count the calls that it
//! was asked, no count of faults of its replicas has fallen, and, if its replicas report what they store, the lane is sound or spent and
//! the accepted records are counted too ([`KeptLane`]); a client's shares count its receipts and its calls, and under that premise its
//! session is orderly ([`Pass`]). An attempt, a turn and a replay do in a lane what the definitions say, or nothing ([`SharedLanes`]). Once
//! all passes are back, the lanes and the sessions come out, and what they count agrees ([`SharedLanes::gather`]).
#![tactic(auto)]

pub use kept::KeptLane;
pub use pass::Pass;
pub use shared::{Gathered, SharedLanes};
pub use sharing::{Blanks, share};

mod attempting;
mod counting;
mod gathering;
mod kept;
mod pass;
mod shared;
mod sharing;
mod working;
