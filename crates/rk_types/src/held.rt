ghost use Rattle.std.specs.Prelude.{◌≡◌, ◌≤◌, ◌+◌, IfOk};
ghost use Rattle.rk_types.specs.Held.{spelled_of, spelled_value_of};

use crate::memory::NoMemory;
use crate::text::{Key, LONGEST_KEY, LONGEST_VALUE, Value};

/// The most bytes of a value that a log spells as a short object; a longer one ends with a mark.
pub const LONGEST_SHORT_VALUE: usize = 8_192;

/// The most bytes of a segment of a log.
pub const SEGMENT_BYTES: u32 = 131_072;

/// Bytes of the log entry of an item before its key: the kind, the length of the body, the table, the version, the
/// client, the seq and the length of the key.
pub const BYTES_BEFORE_KEY: u32 = 1 + 4 + 8 + 8 + 4 + 8 + 1;

/// The most bytes that the log entry of an item takes: one with the longest key and the longest value, whose length
/// and mark take five.
pub const LONGEST_SPELLED: u32 = BYTES_BEFORE_KEY + LONGEST_KEY as u32 + LONGEST_VALUE as u32 + 5;

/// An item of a log or a table: what the call of this client and seq made of a record. Without a value it is a
/// tombstone, which marks the record as removed.
#[derive(Drop, PartialEq, Eq)]
pub struct Held {
    pub table: u64,
    pub version: u64,
    pub client: u32,
    pub seq: u64,
    pub key: Key,
    pub value: Option<Value>,
}

/// A place in the order of a scan: a bucket, and how many items of that bucket are passed over.
/// `{1024, 0}` is the end.
#[derive(Clone, Copy, PartialEq, Eq)]
pub struct Token {
    pub bucket: u16,
    pub skip: u32,
}

impl Held {
    /// An item of its own with the same parts.
    pub fn duplicate(&self) -> Result<Held, NoMemory>
        ensures { IfOk result (λ held. held ≡ self.now) }
    {
        Ok(Held {
            table: self.table,
            version: self.version,
            client: self.client,
            seq: self.seq,
            key: self.key.duplicate()?,
            value: match &self.value {
                Some(value) => Some(value.duplicate()?),
                None => None,
            },
        })
    }

    /// How many bytes the log entry of this item takes.
    #[tactic(auto, unfolding(crate::specs::Held::spelled_of))]
    pub fn spelled(&self) -> u32
        ensures bytes { result ≡ spelled_of self.now }
        ensures within { result ≤ LONGEST_SPELLED }
    {
        BYTES_BEFORE_KEY + self.key.bytes().len() as u32 + spelled_value(&self.value)
    }
}

// How many bytes of a log entry come after the key.
fn spelled_value(value: &Option<Value>) -> u32
    ensures bytes { result ≡ spelled_value_of value.now }
    ensures within { result ≤ LONGEST_VALUE + 5 }
{
    match value {
        None => 0,
        Some(value) => {
            let length = value.bytes().len();
            let mark = if length > LONGEST_SHORT_VALUE { 1 } else { 0 };
            4 + length as u32 + mark
        }
    }
}
