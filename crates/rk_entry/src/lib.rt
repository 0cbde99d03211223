//! The entries of a log, and the one spelling that each of them has.
//!
//! It builds on `rk_types` and `byteorder`. What it promises: [`encode`] writes the spelling of an entry; [`decode`]
//! reads an entry exactly when its spelling begins the bytes, whatever follows, and otherwise names the first fault
//! from the left; no spelling begins another; [`entries`] reads the entries that follow one another. The readers and
//! writers of single fields in [`fields`] serve other formats that are made of the same fields.
//!
//! The laws are in `proofs/Headlines.antt`: each entry has one spelling, what is spelled is read again, and an item
//! gives the length of its entry.
#![tactic(auto)]

pub use entry::{Carried, Entry, Joined, Refused};
pub use error::{
    BAD_BODY_LENGTH, BAD_CHOICE, BAD_KEY, BAD_KIND, BAD_MARK, BAD_NUMBER, BAD_VALUE, DecodeError,
};
pub use kind::{
    CARRIED_BYTES, END_BYTES, HEAD_BYTES, JOINED_BYTES, Kind, LONGEST_BODY, OBJECT_BYTES,
    REFUSED_BYTES, TOMBSTONE_BYTES, is_list, is_within,
};
pub use lists::FIRST_SIDE_SEGMENT;
pub use reading::decode;
pub use sequence::entries;
pub use writing::{encode, entry_len, put_entry};

mod entry;
mod error;
pub mod fields;
mod head;
mod kind;
mod lists;
mod mark;
mod reading;
mod sequence;
mod writing;
