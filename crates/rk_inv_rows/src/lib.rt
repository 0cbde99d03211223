//! A sound lane stays sound when a row takes another lineage or is split; and what a finished migration leaves.
//!
//! It builds on `rk_inv_base`. It has no code: the headline laws are in `proofs/Headlines.antt`.
//!
//! In `proofs/lineage`, `LineageSays` is the class of the changes that give a row another lineage, and `JoinedTaken` says what a target
//! has once it has joined. `RebuiltTaken` is the law of a rebuild that is taken, under a condition over lists (`specs/lineage/Rebuilt`)
//! that `rk_inv_events` shows of rebuilds.
//!
//! In `proofs/split`, `HalfOfRow` has what counts of a log for a half, what that records of its keys, and that truth and rest of an owned
//! row go on for a half of it. `Splitting` is a row that is split in a sound view, with what masters have before and after;
//! `HalvedMessages` shows what messages say then, `RowSplit` the whole view, and `Split` a world whose tablet is split.
//!
//! In `proofs/finished`, `JoinedDelivered` says what a target that has joined leaves and what the delivery makes, `Unowned` what the
//! coordinator makes of a row that moves, and `OnlyJoined` what each event makes of it.
#![tactic(auto)]
