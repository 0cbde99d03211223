//! The tests over the public surface of the crates below `rk_world`, in one crate so that each of these is compiled once.
//!
//! A module has the tests of one crate. [`items`] is what they are made of, and what `rk_tests_nodes` is made of too. What
//! tests show, and no contract says, is that calls succeed while there is memory, and that the definitions mean what was
//! meant: expected values were worked out apart from the code.
#![tactic(auto)]

#[cfg(test)]
mod comparing;
#[cfg(test)]
mod done;
#[cfg(test)]
mod history;
pub mod items;
#[cfg(test)]
mod log;
#[cfg(test)]
mod model;
#[cfg(test)]
mod outside;
#[cfg(test)]
mod overlay;
#[cfg(test)]
mod priority;
#[cfg(test)]
mod pull;
#[cfg(test)]
mod script;
#[cfg(test)]
mod segment;
#[cfg(test)]
mod table;
#[cfg(test)]
mod tablet_map;
#[cfg(test)]
mod transfer;
#[cfg(test)]
mod types;
