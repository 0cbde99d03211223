//! A sound lane stays sound under the changes of a master's tablets: one is made ready or rebuilt, granted, sealed or merged, or the
//! master crashes. And what is so of each lane from its start on: backups report what they store, and what targets sealed is there.
//!
//! It builds on `rk_inv_base`, and for crashes and merges on `rk_inv_wellformed`. It has no code: the headline laws are in
//! `proofs/Headlines.antt`.
//!
//! In `proofs/ready` one class, `Yielding`, serves both orders. In `proofs/crash`, `Groups`, `FirstRead` and `LogRead` say what is read of
//! a log, `MergeTells` what a merge records of it, `PieceRows`, `OwnPiece` and `ReadTold` what marked pieces and what was gathered record
//! of a row, `MarksTold` that a crash makes nothing of that new, and `Crashed` goes through the parts. In `proofs/merge`, `Pieces` says
//! that a marked piece is not seen, `Collected` that what is merged is recorded by its row, and `Merged` goes through the parts. In
//! `proofs/seal`, `SideNumbers` says that no Joined names a side segment that is not there, so that more of them change nothing that
//! counts, `SidesCut` that a lane stays sound when a master cuts more side segments, `SidesJoined` that it does when a target takes what it
//! pulled from such segments, and `Sealed` puts both together. In `proofs/steady`, `Sealed` is about the small changes of a master,
//! `Requests`, `Commits`, `Handovers`, `Pulls` and `Rebuilds` about what it makes of each message, `Steps` and `Turns` about all of them
//! and its turn, `Walks` lifts what each part keeps to the events of a lane and to its clients, and `Lanes` has the laws.
#![tactic(auto)]
