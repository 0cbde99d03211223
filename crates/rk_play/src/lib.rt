//! Scripts played: every command of the language, over eight lanes of messages, migrations, crashes and rebuilds.
//!
//! It builds on `rk_cluster` and `rk_settle`, on `rk_script` and `rk_lines`. A script played is a value of the definitions: the
//! text that it writes, piece by piece, its status, and the cluster at its end. What [`play`] promises: what is written is that
//! text, the status is that status, the code reported of a refusal is the code written, and the replicas report what the backups
//! of that cluster store.
#![tactic(auto)]

pub use error::PlayError;
pub use playing::play;
pub use report::Report;

mod coming;
mod commands;
mod end;
mod error;
mod playing;
mod reading;
mod report;
mod run;
mod setting;
mod settling;
mod shows;
