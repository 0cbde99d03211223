//! Runs of a cluster: in every run each lane stays sound, the journals of all lanes make one history, and who has something left to do
//! sends a message on its turn.
//!
//! It builds on the laws of lanes (`rk_inv_lanes`). It has no code: the headline laws are in `proofs/Headlines.antt`.
//!
//! In `proofs/duties`, `Fitting` and `Asking` are about the turns of clients, `Reports`, `Rows` and `Turns` about the coordinator,
//! `Noticing` about notices of crashes, `Going` about what stays in a lane whatever happens, `Adding` about clients that were added, and
//! `Runs` about runs.
#![tactic(auto)]
