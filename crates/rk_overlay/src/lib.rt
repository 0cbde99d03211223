//! The newest items of lists: of one record, and of each record of two lists together.
//!
//! It builds on `rk_types`. What it promises: [`newest`] gives the place of the item of a record that has the greatest
//! version, the first such place if several have it, and none exactly when the list has no item of the record.
//! [`overlay`] gives the newest item of each record of two lists in order, tombstones like others; it is made of [`take_in`]
//! and [`in_order`], which serve lists that are not at hand as a whole.
//!
//! The laws are in `proofs/Headlines.antt`: what the newest items and the live records of a list are, that lists and
//! overlays join, that an overlay has just the newest items, and that neither order nor repeats matter in a plain list.
#![tactic(auto)]

pub use layers::{Newest, in_order, overlay, take_in};
pub use search::newest;

mod layers;
mod search;
