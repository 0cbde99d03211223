//! Corollaries for one lane: nothing outgrows its limit, what comes late changes nothing, the stored logs of a quiet lane give the map, a
//! wire from which messages are delivered is empty in the end, and what is held is applied.
//!
//! It builds on `rk_inv_events` and the crates below it. It has no code: the headline laws are in `proofs/Headlines.antt`. Only those
//! of room and of what backups store need a sound lane.
//!
//! In `proofs/room`: masters have records of what is logged in their lane alone (`RecordLanes`), and a target replays nothing else
//! (`Pulled`), each item once at most; so a replay brings no more bytes than all logs have (`Replays`), and neither do the copies of a
//! rebuild (`Copied`). Each entry fits a segment (`FittingLanes`). So a lane has room after each event (`Events`).
//!
//! In `proofs/stands`, `Standing` says that a log of which all is applied is stored whole and read back, that what counts of it is then
//! the row's truth, and goes through the rows and the backups; `Telling` says which backups report what they store.
//!
//! In `proofs/applied`, `Logs` is about a log that grows and what backups report of it, and finds the backup that lacks bytes if not all
//! is held; `Commits` is about what a master makes of each message and on its turn, `Lanes` about lanes, and `Sends` about what the
//! backup that lacks bytes is sent.
#![tactic(auto)]
