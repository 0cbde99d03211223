//! The completions of a tablet: how each client's last call ended, so that a call that comes again is not carried out
//! again.
//!
//! It builds on `rk_types`. What it promises: contracts see [`Completions`] as a map from a client to its last
//! completion, beside the room for more clients; [`Completions::look`] answers by the seq of the last completion alone;
//! of two completions of a client [`Completions::note`] leaves the one with the greater seq, and on a tie the one that
//! is there; a call that finds no memory changes nothing.
#![tactic(auto)]

pub use completion::{Completion, Look};
pub use completions::Completions;

mod completion;
mod completions;
