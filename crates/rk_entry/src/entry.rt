ghost use Rattle.std.specs.Prelude.{◌≡◌, IfOk};
ghost use Rattle.rk_entry.specs.Kinds.{kind_of};

use crate::kind::Kind;
use rk_types::{Ended, Held, Key, LONGEST_SHORT_VALUE, Listed, NoMemory, Range};

/// One entry of a log.
#[derive(Drop, PartialEq, Eq)]
pub enum Entry {
    /// A record was written or removed.
    Held(Held),
    /// A call was refused.
    Refused(Refused),
    /// The ends of calls came with a tablet from another master.
    Carried(Carried),
    /// Side segments became part of the log.
    Joined(Joined),
}

/// A call that changed nothing: a conditional put that met another version, or a removal of a record that is not
/// there.
#[derive(Drop, PartialEq, Eq)]
pub struct Refused {
    pub table: u64,
    /// The version that the conditional put met, 0 if there was no record, and 0 for a removal.
    pub found: u64,
    pub client: u32,
    pub seq: u64,
    /// Whether it was a removal.
    pub absent: bool,
    pub key: Key,
}

/// What a master takes over with a tablet: the term from which it serves it, a version below which it makes none, and
/// how each client's last call ended, by rising client.
#[derive(Drop, PartialEq, Eq)]
pub struct Carried {
    pub range: Range,
    pub term: u64,
    pub floor: u64,
    pub ends: Listed<Ended>,
}

/// The numbers of the side segments that hold what was pulled for a tablet, each once.
#[derive(Drop, PartialEq, Eq)]
pub struct Joined {
    pub range: Range,
    pub term: u64,
    pub segments: Listed<u32>,
}

impl Entry {
    /// The kind that spells this entry.
    pub fn kind(&self) -> Kind
        ensures { result ≡ kind_of self.now }
    {
        match self {
            Entry::Held(held) => match &held.value {
                None => Kind::Tombstone,
                Some(value) => {
                    if value.bytes().len() > LONGEST_SHORT_VALUE {
                        Kind::LongObject
                    } else {
                        Kind::Object
                    }
                }
            },
            Entry::Refused(_) => Kind::Refused,
            Entry::Carried(_) => Kind::Carried,
            Entry::Joined(_) => Kind::Joined,
        }
    }

    /// An entry of its own with the same parts.
    pub fn duplicate(&self) -> Result<Entry, NoMemory>
        ensures { IfOk result (λ entry. entry ≡ self.now) }
    {
        Ok(match self {
            Entry::Held(held) => Entry::Held(held.duplicate()?),
            Entry::Refused(refused) => Entry::Refused(refused.duplicate()?),
            Entry::Carried(carried) => Entry::Carried(carried.duplicate()?),
            Entry::Joined(joined) => Entry::Joined(joined.duplicate()?),
        })
    }
}

impl Refused {
    /// A refusal of its own with the same parts.
    pub fn duplicate(&self) -> Result<Refused, NoMemory>
        ensures { IfOk result (λ refused. refused ≡ self.now) }
    {
        Ok(Refused {
            table: self.table,
            found: self.found,
            client: self.client,
            seq: self.seq,
            absent: self.absent,
            key: self.key.duplicate()?,
        })
    }
}

impl Carried {
    /// An entry of its own with the same parts.
    pub fn duplicate(&self) -> Result<Carried, NoMemory>
        ensures { IfOk result (λ carried. carried ≡ self.now) }
    {
        Ok(Carried {
            range: self.range,
            term: self.term,
            floor: self.floor,
            ends: self.ends.duplicate()?,
        })
    }
}

impl Joined {
    /// An entry of its own with the same parts.
    pub fn duplicate(&self) -> Result<Joined, NoMemory>
        ensures { IfOk result (λ joined. joined ≡ self.now) }
    {
        Ok(Joined {
            range: self.range,
            term: self.term,
            segments: self.segments.duplicate()?,
        })
    }
}
