//! The tests of what backups store, and of what masters rebuild and replay, over the public surface of the crates that do it. The other
//! nodes are tested in lanes, by the scripts that the built program plays; `rk_tests_lane` has what no script shows of a lane.
//!
//! A module has the tests of one crate. What several of them are made of is in [`rk_tests::items`].
#![tactic(auto)]

#[cfg(test)]
mod backup_node;
#[cfg(test)]
mod comparing;
#[cfg(test)]
mod rebuild;
#[cfg(test)]
mod side_log;
