//! A table of a master in hash buckets.
//!
//! It builds on rk_types, rk_table and slab. [`BucketTable`] is a `RecordTable`: its items lie in the cells of one slab,
//! linked to chains, each in scan order. A bucket has one chain at first, and two, four and more once there are more than
//! four items for each chain; the high bits of an item's hash say which one of its bucket is its own. So a look-up and an
//! insertion walk along a few cells, and a scan visits the chains from its token's bucket on. The chains and the free
//! cells together are all cells of the slab, each once, which the type keeps.
#![tactic(auto)]

pub use table::BucketTable;

mod cell;
mod chains;
mod drops;
mod hashed;
mod rest;
mod scans;
mod seek;
mod splice;
mod spread;
mod table;
