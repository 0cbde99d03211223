//! What is well formed: every event, and what clients do, keeps a lane well formed, and how far it may raise numbers and logs.
//!
//! It builds on the definitions of `rk_world`. It has no code: the headline laws are in `proofs/Headlines.antt`. Its proofs are in
//! folders by subject: maps by number, room, bytes of logs, masters, the coordinator, and lanes.
#![tactic(auto)]
