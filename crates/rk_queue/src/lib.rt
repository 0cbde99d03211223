//! A queue of values under numbers that rise, as a wire keeps its messages: each value that comes has a greater number
//! than those that are there, and any of them may go.
//!
//! It builds on `rk_types`. What it promises: contracts see a [`Queue`] as the map by number of `rk_types`;
//! [`Queue::push`] takes no search; what is found under a number, by [`Queue::get`], by [`Queue::remove`] and by a walk
//! along [`Queue::iter`], is what the map has there; a call that finds no memory changes nothing.
#![tactic(auto)]

pub use queue::Queue;

mod queue;
