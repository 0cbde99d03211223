//! The words that every crate of the project shares: keys, values, calls, outcomes, log items, nodes and lineages.
//!
//! It builds on std alone. What it promises: a [`Key`] and a [`Value`] are text within their limits, and a refusal
//! says exactly what is wrong; [`hash`], [`lane_of`] and [`bucket_of`] are the numbers of their definitions; a
//! duplicate equals what it was made from. What holds keys and values is plain public data, which contracts see as it
//! is written here, with the list of bytes in place of a key or a value.
#![tactic(auto)]

pub use call::{Answer, Call, End, Ended, Op, Outcome};
pub use hashing::{BUCKETS, LANES, bucket_of, hash, lane_of};
pub use held::{Held, LONGEST_SHORT_VALUE, LONGEST_SPELLED, SEGMENT_BYTES, Token};
pub use history::{Placed, Receipt};
pub use limits::{MOST_BACKUPS, MOST_CLIENTS, MOST_MASTERS, MOST_TABLES, MOST_TABLETS, REPLICAS};
pub use lineage::Member;
pub use listed::Listed;
pub use memory::NoMemory;
pub use node::{Node, Parcel, Said};
pub use numbered::Numbered;
pub use range::Range;
pub use reach::Reach;
pub use status::Status;
pub use text::{Key, LONGEST_KEY, LONGEST_VALUE, TextError, Value};

mod call;
mod hashing;
mod held;
mod history;
mod limits;
mod lineage;
mod listed;
mod memory;
mod node;
mod numbered;
mod range;
mod reach;
mod status;
mod text;
