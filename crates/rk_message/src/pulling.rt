ghost use Rattle.std.specs.Prelude.{◌≡◌, IfOk};

pub use reading::{read_got, read_pull, read_pulled, read_want};
pub use writing::{got_len, pulled_len, put_got, put_pull, put_pulled, put_want, want_len};

mod elements;
mod entries;
mod reading;
mod writing;

use crate::fields::{COUNT_BYTES, TENURE_BYTES, TOKEN_BYTES};
use crate::handover::Tenure;
use rk_entry::{Entry, HEAD_BYTES, TOMBSTONE_BYTES};
use rk_types::{Listed, NoMemory, Token};

/// Bytes of a Pull: the tenure and the token.
pub const PULL_BYTES: u32 = TENURE_BYTES + TOKEN_BYTES;

/// Bytes of a Pulled but for its entries: the tenure, two tokens and the count of entries.
pub const PULLED_BYTES: u32 = TENURE_BYTES + TOKEN_BYTES + TOKEN_BYTES + COUNT_BYTES;

/// Bytes of a hash.
pub const HASH_BYTES: u32 = 8;

/// Bytes of a Want but for its hashes: the tenure and their count.
pub const WANT_BYTES: u32 = TENURE_BYTES + COUNT_BYTES;

/// Bytes of a Got but for its hashes and its entries: the tenure and two counts.
pub const GOT_BYTES: u32 = TENURE_BYTES + COUNT_BYTES + COUNT_BYTES;

/// Bytes of the shortest entry: a tombstone whose key has one byte.
pub const SHORTEST_ENTRY: u32 = HEAD_BYTES + TOMBSTONE_BYTES + 1;

/// The target asks for the batch of records that begins at a token.
#[derive(Clone, Copy, PartialEq, Eq)]
pub struct Pull {
    pub tenure: Tenure,
    pub token: Token,
}

/// The batch that begins at `token`, and the token of the next one.
#[derive(Drop, PartialEq, Eq)]
pub struct Pulled {
    pub tenure: Tenure,
    pub token: Token,
    pub next: Token,
    pub entries: Listed<Entry>,
}

/// The target asks for the records with these hashes before all others.
#[derive(Drop, PartialEq, Eq)]
pub struct Want {
    pub tenure: Tenure,
    pub hashes: Listed<u64>,
}

/// All records with these hashes.
#[derive(Drop, PartialEq, Eq)]
pub struct Got {
    pub tenure: Tenure,
    pub hashes: Listed<u64>,
    pub entries: Listed<Entry>,
}

impl Pulled {
    /// A message of its own with the same parts.
    pub fn duplicate(&self) -> Result<Pulled, NoMemory>
        ensures { IfOk result (λ pulled. pulled ≡ self.now) }
    {
        Ok(Pulled {
            tenure: self.tenure,
            token: self.token,
            next: self.next,
            entries: duplicate_entries(&self.entries)?,
        })
    }
}

impl Want {
    /// A message of its own with the same parts.
    pub fn duplicate(&self) -> Result<Want, NoMemory>
        ensures { IfOk result (λ want. want ≡ self.now) }
    {
        Ok(Want {
            tenure: self.tenure,
            hashes: self.hashes.duplicate()?,
        })
    }
}

impl Got {
    /// A message of its own with the same parts.
    pub fn duplicate(&self) -> Result<Got, NoMemory>
        ensures { IfOk result (λ got. got ≡ self.now) }
    {
        Ok(Got {
            tenure: self.tenure,
            hashes: self.hashes.duplicate()?,
            entries: duplicate_entries(&self.entries)?,
        })
    }
}

// A list of its own with the same entries.
fn duplicate_entries(entries: &Listed<Entry>) -> Result<Listed<Entry>, NoMemory>
    ensures { IfOk result (λ duplicates. duplicates ≡ entries.now) }
{
    let mut duplicates = entries.empty_like();
    for entry in entries.as_slice() {
        duplicates.push(entry.duplicate()?)?;
    }
    Ok(duplicates)
}
