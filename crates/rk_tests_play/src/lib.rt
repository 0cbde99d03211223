//! The tests of whole scripts over devices that fail: what is written then, how the run ends, and what is left in the replicas.
//!
//! [`playing`] has what scripts are played with. What the built program writes over devices that do not fail is tested outside the
//! prover (`.ci/scripts`), on the scripts of `tests/`.
#![tactic(auto)]

#[cfg(test)]
mod devices;
#[cfg(test)]
mod playing;
