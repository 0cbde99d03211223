//! The handover of a tablet between masters: the role that a master has for a tablet, and the moves that change it.
//!
//! It builds on `rk_types`. What it promises: each move answers whether it applied, by the table of roles and terms that
//! its definition is; where it applied the handover is the one of that definition, and else nothing has changed. No move
//! takes memory.
#![tactic(auto)]

pub use handover::Handover;
pub use role::Role;

mod handover;
mod role;
