//! One lane of a backup: it keeps the segments of the masters' logs, byte for byte. It builds on rk_outside.
//!
//! A backup takes bytes that begin where bytes are stored, or at their end, and that agree with them as far as both go.
//! So what it stores of a segment only grows at its end, and no stored byte ever changes, whatever comes late, twice or
//! out of order. All of this holds over any replica, and after a failure some first part of the new bytes is stored.
#![tactic(auto)]

pub use lane::BackupLane;

mod agree;
mod lane;
