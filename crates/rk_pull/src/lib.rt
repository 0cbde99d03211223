//! Pulling the records of a range from the table of another master, batch by batch. It builds on rk_types and rk_table.
//!
//! [`batch`] is what a source answers at a token: the items of one batch and the token behind them. [`Progress`] is
//! how far the pulls of a target have come: the token up to which it has all items. It awaits the batch that was asked
//! for at that very token alone, so that a batch that comes late or twice can be recognized.
#![tactic(auto)]

pub use batches::{BATCH_BYTES, batch};
pub use progress::Progress;

mod batches;
mod progress;
