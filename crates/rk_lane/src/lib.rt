//! One lane of the cluster: its masters, its coordinator, its backups over any replicas, the wire between them, and its
//! ledger; and how an event, a client's turn or an answer changes all of these at once.
//!
//! It builds on the crates of the nodes and on the laws of well formed lanes. What it promises: contracts see a [`Lane`] as
//! a world of the definitions, and each event, turn and answer makes of it just what the definitions do; a refusal changes
//! nothing, and after want of memory in an event the lane is spent, with its journal as it was. A message that was looked up
//! already comes to a lane by value, as an [`Arrival`], and is not looked up again.
#![tactic(auto)]

pub use lane::Lane;
pub use messages::Arrival;

mod backing;
mod changes;
mod coordinating;
mod copies;
mod delivering;
mod events;
mod finishing;
mod lane;
mod masters;
mod messages;
mod notices;
mod parts;
mod resending;
mod resting;
mod seen;
mod sends;
mod short;
mod splits;
mod turns;
mod visiting;
mod working;
