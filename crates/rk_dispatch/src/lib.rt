//! A queue of parcels, through which the workers that take turns hand pull replies to those that replay them.
//!
//! It builds on `rk_types` and on the ruled array queue of `crossbeam_queue`. What it promises, whatever the number of threads
//! and however they come to run: the parcels given are those taken and those left in the queue, each as often ([`Parcels`]). A
//! parcel comes back only if the queue was full at a moment of the call, and none is there to take only if it was empty at
//! one. A call that waits for another thread keeps its promise if it returns.
#![tactic(auto)]

pub use account::{Account, Audit, Balance, Gives, Parts, Takes};
pub use parcels::{ParcelPass, Parcels};
pub use workers::exchange;

mod account;
mod parcels;
mod workers;
