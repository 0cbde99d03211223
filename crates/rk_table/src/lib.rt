//! The tables of a master: the newest item of each key, in scan order.
//!
//! It builds on rk_types. [`RecordTable`] is what a table promises, of the list of its items alone: what is found at a
//! key, when an item is put, and which items a scan hands out from a token on. [`SortedTable`] is a table. The laws in
//! `proofs/Headlines.antt` say, of any list in scan order, that a table is one map from keys to items: newer items
//! replace older ones, and dropped ranges are gone; and that scans go on where the last one stopped, so that those from
//! the first token to the end hand out each live item of a range once, in order. So they hold of every table.
#![tactic(auto)]

pub use sorted::SortedTable;
pub use table::{END, FIRST, RecordTable};

mod search;
mod slot;
mod sorted;
mod table;
mod walk;
