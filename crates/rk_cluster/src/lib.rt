//! Eight lanes and the sessions of the clients that act in them: what each call of a user does there, and with which code it
//! is refused.
//!
//! It builds on `rk_lane`, `rk_session` and the definitions of `rk_world`. Its own definitions are in `specs`: what a call
//! looks at (`Looks`), its codes in the order in which they are tested (`Codes`), the events that it makes (`Makes`), and
//! what comes of these (`Acted`).
#![tactic(auto)]

pub use cluster::Cluster;
pub use code::Code;
pub use delivering::Delivered;
pub use error::ClusterError;

mod admissions;
mod cluster;
mod code;
mod dealing;
mod delivering;
mod error;
mod looks;
mod saying;
mod sessions;
mod steps;
mod turning;
mod visits;
