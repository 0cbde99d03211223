ghost use Rattle.std.specs.Prelude.{◌≡◌, IfOk};

pub use reading::{read_copy, read_read_segment, read_rebuild, read_rebuilt};
pub use writing::{
    copy_len, put_copy, put_read_segment, put_rebuild, put_rebuilt, rebuild_len, rebuilt_len,
};

mod elements;
mod reading;
mod writing;

use crate::fields::{COUNT_BYTES, RANGE_BYTES, TENURE_BYTES};
use crate::handover::Tenure;
use rk_types::{Ended, Listed, Member, NoMemory, Range};

/// Bytes of a member of a lineage: the master and the place.
pub const MEMBER_BYTES: u32 = 1 + 8;

/// Bytes of a Rebuild but for its lineage: the tenure, the range and the count of members.
pub const REBUILD_BYTES: u32 = TENURE_BYTES + RANGE_BYTES + COUNT_BYTES;

/// Bytes of a Read: the tenure, the master and the segment.
pub const READ_SEGMENT_BYTES: u32 = TENURE_BYTES + 1 + 4;

/// The number in a Copy that says that the segment was never written.
pub const MISSING: u8 = 0;

/// The number in a Copy that says that bytes of the segment follow.
pub const PRESENT: u8 = 1;

/// Bytes of a Copy but for those of the segment: the tenure, the master, the segment, whether it was ever written, and
/// the count of its bytes.
pub const COPY_BYTES: u32 = TENURE_BYTES + 1 + 4 + 1 + COUNT_BYTES;

/// Bytes of a Rebuilt but for its ends: the tenure, the place and the count of ends.
pub const REBUILT_BYTES: u32 = TENURE_BYTES + 8 + COUNT_BYTES;

/// A master is to rebuild the tablet from the logs of its lineage, the oldest first.
#[derive(Drop, PartialEq, Eq)]
pub struct Rebuild {
    pub tenure: Tenure,
    pub range: Range,
    pub lineage: Listed<Member>,
}

/// A rebuilding master asks for a segment of a master's log.
#[derive(Clone, Copy, PartialEq, Eq)]
pub struct ReadSegment {
    pub tenure: Tenure,
    pub master: u8,
    pub segment: u32,
}

/// What is kept of that segment; none if it was never written.
#[derive(Drop, PartialEq, Eq)]
pub struct CopySegment {
    pub tenure: Tenure,
    pub master: u8,
    pub segment: u32,
    pub bytes: Option<Listed<u8>>,
}

/// The tablet is rebuilt: from this place of the master's log on, its entries count for the tablet, and these calls
/// ended in the logs that it was rebuilt from, in their order.
#[derive(Drop, PartialEq, Eq)]
pub struct Rebuilt {
    pub tenure: Tenure,
    pub place: u64,
    pub ends: Listed<Ended>,
}

impl Rebuild {
    /// A message of its own with the same parts.
    pub fn duplicate(&self) -> Result<Rebuild, NoMemory>
        ensures { IfOk result (λ rebuild. rebuild ≡ self.now) }
    {
        Ok(Rebuild {
            tenure: self.tenure,
            range: self.range,
            lineage: self.lineage.duplicate()?,
        })
    }
}

impl CopySegment {
    /// A message of its own with the same parts.
    pub fn duplicate(&self) -> Result<CopySegment, NoMemory>
        ensures { IfOk result (λ copy. copy ≡ self.now) }
    {
        Ok(CopySegment {
            tenure: self.tenure,
            master: self.master,
            segment: self.segment,
            bytes: match &self.bytes {
                Some(bytes) => Some(bytes.duplicate()?),
                None => None,
            },
        })
    }
}

impl Rebuilt {
    /// A message of its own with the same parts.
    pub fn duplicate(&self) -> Result<Rebuilt, NoMemory>
        ensures { IfOk result (λ rebuilt. rebuilt ≡ self.now) }
    {
        Ok(Rebuilt {
            tenure: self.tenure,
            place: self.place,
            ends: self.ends.duplicate()?,
        })
    }
}
