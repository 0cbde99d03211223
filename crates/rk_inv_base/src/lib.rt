//! The base of all laws of the invariant of a lane: a new lane is sound, and stays so under the small changes of calls, logs, pulls,
//! steady roles, rows and rebuilds.
//!
//! It builds on the definitions of the invariant (`rk_sound`). It has no code: the headline laws are in `proofs/Headlines.antt`. Its
//! proofs are in folders by what changes, a file a change; below these a file a part of the invariant. `views` has what serves all of
//! them, and `example` a small world that is sound.
#![tactic(auto)]
