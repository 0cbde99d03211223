//! Scripts: what is played is a run of a new cluster, the commands that settle end, and the replies of a text are the receipts of the
//! clients.
//!
//! It builds on the laws of runs (`rk_runs`). It has no code: the headline laws are in `proofs/Headlines.antt`.
//!
//! `play`: the cluster that a script leaves is what its occurrences make of a new one, and each of them may occur when it does. So the
//! laws of runs speak of what the program writes.
//!
//! `settle`: from a cluster to which a run of a new one has led, and in which each client with a session was added in each lane, `settle`
//! comes after finitely many moves to its end, and the cluster is at rest there; or it stops, since a lane is worn or replicas have failed
//! in too many rounds. Once a script has ended, each client with a session was added so, and a run has led there. A wire empties, who has
//! something left to do sends on its turn, and no lane can send for ever before it is worn. In an exchange each delivery leaves fewer to be
//! made. What a tablet waits for has not come, so who is to bring it sends; and each order of the coordinator for a migration whose parties
//! live does what it is for. A lane refuses no client that joins, since its clients are just those with sessions.
//!
//! `answers`: what a script writes is made of pieces: what clients said, what a command shows, and a refusal; and the replies among them
//! are, client by client and in their order, just the receipts of the sessions at the end.
#![tactic(auto)]
