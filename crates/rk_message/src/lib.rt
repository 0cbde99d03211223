//! The messages that clients, the coordinator, masters and backups send each other, the one frame that spells each of
//! them, and the wire that carries them.
//!
//! It builds on `rk_types` and `rk_entry`. What it promises: [`encode_frame`] writes the frame of a message, and
//! [`decode_frame`] reads a message exactly when its frame begins the bytes, and otherwise names the first fault from
//! the left; no frame begins another; a duplicate equals what it was made from. The laws of frames are in
//! `proofs/Headlines.antt`: a frame is read again, whatever follows it, and takes as many bytes as are counted; and no
//! frame begins another.
//!
//! A [`Wire`] numbers messages from 1, in the order in which they are sent, hands each out until it is forgotten, and
//! counts the bytes of their frames without walking over them. Contracts see the messages by number, and how many
//! were sent. What it promises: the next number is free, so each names one message; a message stays as it was sent; only
//! [`Wire::forget`] takes it away; want of memory and a number without a message change nothing.
#![tactic(auto)]

pub use calls::{Located, Lookup, Reply, Request};
pub use frame::{decode_frame, encode_frame, frame_len};
pub use framed::Frame;
pub use handover::{Grant, Prepare, Ready, Tenure, Transfer};
pub use kind::Kind;
pub use message::{Body, Message};
pub use missing::{NoMessage, WireError};
pub use pulling::{Got, Pull, Pulled, Want};
pub use rebuilding::{CopySegment, ReadSegment, Rebuild, Rebuilt};
pub use replication::{Append, Stored};
pub use wire::Wire;

mod calls;
mod fields;
mod frame;
mod framed;
mod handover;
mod kind;
mod message;
mod missing;
mod pulling;
mod rebuilding;
mod replication;
mod texts;
mod wire;
