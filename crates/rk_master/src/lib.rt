//! A master in one lane: what it makes of clients' requests, of what backups report, of what other masters ask and
//! answer, and of the coordinator's orders that hand a tablet over or rebuild it.
//!
//! It builds on `rk_world`, whose definitions say what a master does, and on `rk_tablet`, which is what it has of one tablet.
//! What it promises: [`MasterLane::handle`] makes of a message just what the definitions do: the master after it, what it
//! sends, which calls it served, and which piece of its log a rebuild made. On its [`MasterLane::turn`] it sends each backup
//! what that lacks, and does for each tablet what its role asks for. Neither requests nor commits nor turns walk over the
//! log, the staged calls or the clients, and no pull over the records: tablets are looked at, and all else is found by
//! searches. After want of memory within a change a master is spent, and answers no more.
#![tactic(auto)]

pub use master_lane::MasterLane;
pub use staging::MOST_LOG_BYTES;
pub use work::Worked;

mod commit;
mod duties;
mod effects;
mod master_lane;
mod messages;
mod orders;
mod own_entries;
mod pulled;
mod pulls;
mod rebuilds;
mod requests;
mod splits;
mod staging;
mod state;
mod stored;
mod sums;
mod tablets;
mod turn;
mod waiting;
mod work;
