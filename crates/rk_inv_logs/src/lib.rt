//! A sound lane stays sound when the next entry of a log is applied; what a rebuild has read of logs is the truth of its row and a first
//! part of its rest; and the ends that it merged make the records of that part.
//!
//! It builds on `rk_inv_base`, `rk_inv_tablets` and `rk_inv_rows`. It has no code: the headline laws are in `proofs/Headlines.antt`.
//!
//! In `proofs/read`, `ReadLog` says what is read of a log, `ReadMember` what counts of it, and `ReadBack` what pieces of rebuilds that
//! were given up record; it goes through the lineages.
//!
//! In `proofs/made`, `MadeOf` shows which ends have a place in a merge, and that other rows stay as they are, and `RebuiltEnds` what they
//! make, also over views.
#![tactic(auto)]
