//! The tests over the bytes of entries and of frames, in a crate of their own: proving them takes as long as proving the other
//! tests below `rk_world`.
//!
//! A module has the tests of one crate, but for [`wire`], which has those of what is on the wire. What tests show, and no contract
//! says, is that calls succeed while there is memory, and that the definitions mean what was meant: expected values were worked out
//! apart from the code.
#![tactic(auto)]

#[cfg(test)]
mod comparing;
#[cfg(test)]
mod entry;
#[cfg(test)]
mod message;
#[cfg(test)]
mod wire;
