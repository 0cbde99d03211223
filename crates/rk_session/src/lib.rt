//! A client's session: it asks one call at a time, says on its turn what to send for it, and takes from each message
//! what that says of the call.
//!
//! It builds on `rk_world`, whose definitions say what a client does. What it promises: contracts see a [`Session`] as
//! the session of the definitions, and each call of it does just what they say; a call that finds no memory changes
//! nothing; [`Session::accept`] takes no memory, since [`Session::ask`] reserved all that an answer needs.
#![tactic(auto)]

pub use error::AskError;
pub use session::{MOST_REQUESTS, Session};

mod cached_ranges;
mod error;
mod lane_ranges;
mod session;
