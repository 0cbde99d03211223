//! The outside of a cluster: where a script comes from, where its answers go, where backups keep
//! their segments, and where a test can hold up a thread; each with doubles in memory.
//!
//! It builds on rk_types. Each trait counts its faults: the count never falls, and an error comes only
//! if it rose, so that nobody can blame the outside for a fault of their own. Reading a whole input
//! and writing a whole text are two loops here, proved once for all crates above.
#![tactic(auto)]

mod fault;
mod gate;
mod memory_replica;
mod reading;
mod replica;
mod segment_store;
mod sink;
mod source;
mod standard;
mod writing;

pub use fault::Failed;
pub use gate::{Gate, OpenGate, Point};
pub use memory_replica::MemoryReplica;
pub use reading::{PIECE, ReadError, read_all};
pub use replica::{Lost, Replica};
pub use sink::{MemorySink, Sink};
pub use source::{MemorySource, Source};
pub use standard::{StdSink, StdSource};
pub use writing::put_all;
