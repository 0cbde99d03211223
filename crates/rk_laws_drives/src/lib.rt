//! What a drive leaves: lanes that were gathered, with the sessions of its clients, stay ready while the cluster that they make settles,
//! and have one history in the end.
//!
//! A drive runs clients on threads, each lane behind a lock; when all clients have ended, the lanes and the sessions make a cluster. What
//! `rk_laws_lanes` says of such a cluster is said here of the one that it settles to. This crate builds on those laws and on the
//! courses of `rk_settle`. It has no code: the headline laws are in `proofs/Headlines.antt`. Beside it, `Events` and
//! `Visits` say what an event and a client's visit leave of a ready cluster, `Working` so of all that occurs while nobody asks a new
//! call; `Courses` says that no more than that occurs in the course of a settling command, `Settling` what follows for the cluster, and
//! `Histories` that its lanes have one history.
#![tactic(auto)]
