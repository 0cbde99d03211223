//! The commands that settle a cluster, or bring one call or one migration on: which occurrences each of them makes, one after the other.
//!
//! It builds on `rk_cluster`. A command is a list of tasks, and a course does them move by move: each move makes one occurrence, or none,
//! or unfolds a task into smaller ones. What it promises: when [`settle`], [`serve`], [`priority`] and [`advance`] end, what they made of
//! the cluster and what clients said is just what the course of the definitions comes to, after some moves; when they stop, it is where
//! that course stops, and the caller has what clients said up to there; and when [`settle`] ends, its cluster is at rest. No bound on the
//! moves of a command is given: it stops after 2^64 - 1 of them.
//! [`serve_code`], [`priority_code`] and [`advance_code`] say beforehand why a command is to be refused, if it is.
//!
//! The law that settled clusters are at rest, said of the definitions alone, is in `proofs/Headlines.antt`.
#![tactic(auto)]

pub use codes::{advance_code, is_tablet, priority_code, serve_code};
pub use commands::{advance, priority, serve, settle};
pub use error::SettleError;
pub use looks::row_at;

mod acts;
mod advancing;
mod codes;
mod commands;
mod course;
mod error;
mod exchange;
mod hastening;
mod looks;
mod reaching;
mod serving;
mod settling;
mod task;
mod tasks;
mod topic;
mod unfolding;
