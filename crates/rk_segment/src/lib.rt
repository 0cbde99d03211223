//! One segment of a log: a number, and bytes that grow at their end alone.
//!
//! It builds on `rk_types` and std. What it promises: a new segment has taken all the memory that it will ever need,
//! bytes are refused exactly when they would pass `rk_types::SEGMENT_BYTES`, and a refusal changes nothing.
#![tactic(auto)]

pub use segment::{Full, Segment};

mod segment;
