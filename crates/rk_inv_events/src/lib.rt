//! Each event keeps a lane sound: it makes only small changes, each under the condition of its law.
//!
//! It builds on the laws of small changes (`rk_inv_base`, `rk_inv_tablets`, `rk_inv_rows`, `rk_inv_logs`). It has no code: the headline
//! laws are in `proofs/Headlines.antt`. It has a folder for each kind of event or message, and `steps` joins them.
//!
//! In `proofs/pulls`, `Sources` says what a source may answer to a Pull or a Want: its records are the scan of what counts for its row.
//! `Targets` says what is there at a target once it is found in its records, and what replayed items and a Got leave, `Passing` what a
//! batch leaves, and `Batches` what a Pulled does. In `proofs/write`, `Ending` has what a master knows of the call and finds of its key,
//! and its version, `Choosing` how it ends, and `Staging` puts them together. In `proofs/rebuilt`, what the master that rebuilt a row read
//! is the truth of the row and a first part of its rest (`rk_inv_logs`, `proofs/read`), and the ends that it merged make the records of
//! just that part (`proofs/made`); that part is served, call by call, and then the master's own entries and its piece take the place
//! of all that was read.
#![tactic(auto)]
