//! What a run writes: answers, tablets, records, histories and refusals as lines of text.
//!
//! It builds on `rk_types`, `rk_model` and `rk_tablet_map`. What it promises: each function puts exactly the lines of its
//! definition at the end of a text; only want of memory is free. A line ends with a line feed, its numbers are decimal,
//! and an empty value is left out with the blank before it. Records are ordered by the bytes of their keys: the laws in
//! `proofs/Headlines.antt` say that this is one order of them, and which.
#![tactic(auto)]

pub use differences::push_difference;
pub use history::{push_entry, push_history};
pub use lines::{push_all_said, push_refused, push_said};
pub use records::{push_record, push_records};
pub use tablets::push_tablet;

mod differences;
mod history;
mod lines;
mod records;
mod tablets;
mod words;
