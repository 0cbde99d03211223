//! The hashes that a tablet asks its former master for before all others, since calls wait for their records.
//!
//! It builds on `rk_types`. What it promises: contracts see a [`Wanted`] as three lists, the hashes that are resolved,
//! outstanding and wanted; no hash is in two of them or twice in one, so none is asked for in two batches; a batch
//! has at most 16 hashes, and is resolved by exactly its own hashes. Only [`Wanted::want`] takes memory.
#![tactic(auto)]

pub use wanted::{BATCH_HASHES, Wanted};

mod wanted;
