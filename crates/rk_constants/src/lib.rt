//! The constants of the code that definitions cite, each by its number or by examples on both sides of its limit. All else is proved
//! whatever that number is, so without these laws a wrong one would go unseen.
//!
//! Left out are the constants that a law or an example of their own crate pins: the byte counts of entries and frames, which are the
//! lengths of what is spelled, and the numbers of kinds. Limits that are numbers in the definitions need no law; those of worn lanes
//! and sessions are here since no small test comes near them. The crate has no code: its laws are in `proofs/Headlines.antt`.
#![tactic(auto)]
