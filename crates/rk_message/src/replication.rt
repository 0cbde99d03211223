ghost use Rattle.std.specs.Prelude.{◌≡◌, IfOk};

pub use reading::{read_append, read_stored};
pub use writing::{append_len, put_append, put_stored};

mod reading;
mod writing;

use rk_types::{Listed, NoMemory};

/// Bytes of an Append but for its bytes: the segment, the place and the count.
pub const APPEND_BYTES: u32 = 4 + 4 + 4;

/// Bytes of a Stored: the segment and the length.
pub const STORED_BYTES: u32 = 4 + 4;

/// A master hands a backup bytes of a segment, from the place `at` of the segment on.
#[derive(Drop, PartialEq, Eq)]
pub struct Append {
    pub segment: u32,
    pub at: u32,
    pub bytes: Listed<u8>,
}

/// A backup reports how many bytes of a segment it keeps.
#[derive(Clone, Copy, PartialEq, Eq)]
pub struct Stored {
    pub segment: u32,
    pub length: u32,
}

impl Append {
    /// A message of its own with the same parts.
    pub fn duplicate(&self) -> Result<Append, NoMemory>
        ensures { IfOk result (λ append. append ≡ self.now) }
    {
        Ok(Append {
            segment: self.segment,
            at: self.at,
            bytes: self.bytes.duplicate()?,
        })
    }
}
