ghost use Rattle.std.specs.Prelude.{◌≡◌, IfOk};

pub use reading::{read_grant, read_last_ends, read_prepare, read_ready, read_transfer};
pub use writing::{
    grant_len, put_ends, put_grant, put_prepare, put_ready, put_transfer, transfer_len,
};

mod reading;
mod writing;

use crate::fields::{COUNT_BYTES, RANGE_BYTES, TENURE_BYTES};
use rk_types::{Ended, Listed, NoMemory, Range};

/// Bytes of a Prepare: the tenure and the range.
pub const PREPARE_BYTES: u32 = TENURE_BYTES + RANGE_BYTES;

/// Bytes of a Ready: the tenure and the place.
pub const READY_BYTES: u32 = TENURE_BYTES + 8;

/// Bytes of a Transfer but for its ends: the tenure, the floor and the count.
pub const TRANSFER_BYTES: u32 = TENURE_BYTES + 8 + COUNT_BYTES;

/// Bytes of a Grant but for its ends: the tenure, the source, the floor and the count.
pub const GRANT_BYTES: u32 = TENURE_BYTES + 1 + 8 + COUNT_BYTES;

/// A tablet at one of its terms.
#[derive(Clone, Copy, PartialEq, Eq)]
pub struct Tenure {
    pub tablet: u32,
    pub term: u64,
}

/// The target of a move is to make ready for the tablet.
#[derive(Clone, Copy, PartialEq, Eq)]
pub struct Prepare {
    pub tenure: Tenure,
    pub range: Range,
}

/// The target is ready: from this place of its log on, its entries count for the tablet.
#[derive(Clone, Copy, PartialEq, Eq)]
pub struct Ready {
    pub tenure: Tenure,
    pub place: u64,
}

/// The source has stopped: a number above each version that it made, and how each client's last call ended.
#[derive(Drop, PartialEq, Eq)]
pub struct Transfer {
    pub tenure: Tenure,
    pub floor: u64,
    pub ends: Listed<Ended>,
}

/// The target may serve: the master to pull from, and what the source reported.
#[derive(Drop, PartialEq, Eq)]
pub struct Grant {
    pub tenure: Tenure,
    pub source: u8,
    pub floor: u64,
    pub ends: Listed<Ended>,
}

impl Transfer {
    /// A message of its own with the same parts.
    pub fn duplicate(&self) -> Result<Transfer, NoMemory>
        ensures { IfOk result (λ transfer. transfer ≡ self.now) }
    {
        Ok(Transfer {
            tenure: self.tenure,
            floor: self.floor,
            ends: self.ends.duplicate()?,
        })
    }
}

impl Grant {
    /// A message of its own with the same parts.
    pub fn duplicate(&self) -> Result<Grant, NoMemory>
        ensures { IfOk result (λ grant. grant ≡ self.now) }
    {
        Ok(Grant {
            tenure: self.tenure,
            source: self.source,
            floor: self.floor,
            ends: self.ends.duplicate()?,
        })
    }
}
