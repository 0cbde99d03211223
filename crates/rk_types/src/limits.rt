use crate::hashing::LANES;

/// Most masters that a cluster has.
pub const MOST_MASTERS: u8 = 8;

/// Most backups that a cluster has.
pub const MOST_BACKUPS: u8 = 4;

/// Most tables that a cluster holds at one time.
pub const MOST_TABLES: u8 = 8;

/// Most tablets that a cluster holds at one time, of all its tables together.
pub const MOST_TABLETS: u8 = 16;

/// Most clients that ever take part in a run.
pub const MOST_CLIENTS: u8 = 64;

/// How many replicas a cluster's backups have at most: one for each backup and lane.
pub const REPLICAS: usize = MOST_BACKUPS as usize * LANES as usize;
