//! The invariant of a lane: what holds of its world between any two small changes, part by part, and the conditions of these changes.
//!
//! It builds on the definitions of `rk_world`, one file per part in `specs`; that changes keep it is proved in `rk_inv_base`.
#![tactic(auto)]
