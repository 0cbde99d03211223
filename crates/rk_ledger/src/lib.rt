//! The ledger of a lane: what its clients asked, the journal of what was carried out, the last requests, and the marks of
//! rebuilds that are not reported yet.
//!
//! It builds on `rk_world`, whose definitions say what a ledger is. What it promises: contracts see a [`LedgerLane`] as the
//! ledger of the definitions, and each call of it does just what they say; a call that finds no memory changes nothing.
//! Once a client is added it asks and is accepted without memory. No call walks over the journal: what there is of a call is
//! found by client and seq.
#![tactic(auto)]

pub use ledger_lane::LedgerLane;

mod asked;
mod call_index;
mod clients;
mod fill;
mod journal;
mod ledger_lane;
mod recording;
