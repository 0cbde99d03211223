//! The tablet map: which tablet has which key hashes, and the term and the phase of each tablet.
//!
//! It builds on `rk_types`. What it promises: contracts see a [`TabletMap`] as its rows by rising tablet; the ranges of
//! one table never meet; each change of the rows is that of its definition, a split leaves the union of the ranges as it
//! was, and a refusal says exactly what is wrong and changes nothing; to locate a hash takes no memory.
#![tactic(auto)]

pub use error::MapError;
pub use phase::Phase;
pub use row::Row;
pub use tablet_map::TabletMap;

mod error;
mod phase;
mod row;
mod tablet_map;
