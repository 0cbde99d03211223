//! A backup as a node of a lane: what it makes of the messages that masters send it, over any replica.
//!
//! It builds on `rk_backup` and on `rk_world`, whose definitions say what a backup does. What it promises:
//! [`take_append`] and [`take_read`] answer just what the definitions do, by what the call of the replica came to, and
//! if the replica reports its segments these are the definitions' afterwards. A device that fails loses the message; after
//! want of memory nothing has changed.
#![tactic(auto)]

pub use append::take_append;
pub use read::take_read;

mod append;
mod read;
