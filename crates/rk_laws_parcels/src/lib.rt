//! Laws of parcels: a parcel that is replayed twice, or by two workers, delivers its message once.
//!
//! It builds on the definitions of the protocol (`rk_world`). The lanes need not be sound. It has no code: the headline laws are in
//! `proofs/Headlines.antt`.
#![tactic(auto)]
