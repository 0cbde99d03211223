//! The tests of what no script shows of a lane, a client that has seen the greatest stamps, and of the calls that wait at a master.
//!
//! A module has the tests of one crate. What several of them are made of is in [`rk_tests::items`].
#![tactic(auto)]

#[cfg(test)]
mod comparing;
#[cfg(test)]
mod lane;
#[cfg(test)]
mod staged;
