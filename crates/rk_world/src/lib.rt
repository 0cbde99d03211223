//! The whole protocol as data: what each node knows, and what it does with a message, on its turn, at a crash and after
//! it. The definitions are in `specs`, one file per subject; here are the few types that they share with code.
//!
//! It builds on the crates whose types and definitions the protocol speaks of, and promises nothing by itself: code is
//! proved to do what it says, and laws are proved of it.
#![tactic(auto)]

pub use choice::Choice;
pub use error::{MoveError, StepError};
pub use event::{Event, Seen, Taken};
pub use ledger::LastCall;
pub use work::{Mark, Merged, Reading, Served};

mod choice;
mod error;
mod event;
mod ledger;
mod work;
