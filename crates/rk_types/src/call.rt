ghost use Rattle.std.specs.Prelude.{◌≡◌, IfOk};

use crate::memory::NoMemory;
use crate::text::{Key, Value};

/// What a call asks of a record.
#[derive(PartialEq, Eq)]
pub enum Op {
    /// Read the record.
    Get,
    /// Write this value.
    Put(Value),
    /// Write this value if the record has this version, 0 for a record that is not there.
    CondPut(u64, Value),
    /// Remove the record.
    Delete,
}

/// A call of a client: its number among that client's calls, from 1, the record, and what is asked of it.
#[derive(PartialEq, Eq)]
pub struct Call {
    pub client: u32,
    pub seq: u64,
    pub table: u64,
    pub key: Key,
    pub op: Op,
}

/// What came of a call.
#[derive(PartialEq, Eq)]
pub enum Outcome {
    /// The record was there, with this version and value.
    Found(u64, Value),
    /// No record was there.
    Absent,
    /// The record was written and has this version now.
    Written(u64),
    /// The record was removed, and this version marks it.
    Deleted(u64),
    /// The record has this version, 0 if it is not there, and not the one that was asked for.
    Mismatch(u64),
}

/// How a master answers a request.
#[derive(Drop, PartialEq, Eq)]
pub enum Answer {
    /// The call was carried out.
    Done(Outcome),
    /// This master does not serve the tablet.
    Moved(u32),
    /// The record of this key has not arrived yet: ask again.
    NotYet(Key),
}

/// How a mutation ended: an outcome without a value, as a log keeps it.
#[derive(Clone, Copy, PartialEq, Eq)]
pub enum End {
    Written(u64),
    Deleted(u64),
    Absent,
    Mismatch(u64),
}

/// The end of a client's call.
#[derive(Clone, Copy, PartialEq, Eq)]
pub struct Ended {
    pub client: u32,
    pub seq: u64,
    pub end: End,
}

// No derive, so that to drop one is a call in proofs, and no cases of what it holds.
impl Drop for Op {
    fn drop(self) {
        match self {
            Op::Get | Op::Put(_) | Op::CondPut(_, _) | Op::Delete => {}
        }
    }
}

impl Drop for Call {
    fn drop(self) {
        let Call {
            client: _,
            seq: _,
            table: _,
            key: _,
            op: _,
        } = self;
    }
}

impl Drop for Outcome {
    fn drop(self) {
        match self {
            Outcome::Found(_, _)
            | Outcome::Absent
            | Outcome::Written(_)
            | Outcome::Deleted(_)
            | Outcome::Mismatch(_) => {}
        }
    }
}

impl Op {
    /// An operation of its own with the same parts.
    pub fn duplicate(&self) -> Result<Op, NoMemory>
        ensures { IfOk result (λ op. op ≡ self.now) }
    {
        Ok(match self {
            Op::Get => Op::Get,
            Op::Put(value) => Op::Put(value.duplicate()?),
            Op::CondPut(version, value) => Op::CondPut(*version, value.duplicate()?),
            Op::Delete => Op::Delete,
        })
    }
}

impl Call {
    /// A call of its own with the same parts.
    pub fn duplicate(&self) -> Result<Call, NoMemory>
        ensures { IfOk result (λ call. call ≡ self.now) }
    {
        Ok(Call {
            client: self.client,
            seq: self.seq,
            table: self.table,
            key: self.key.duplicate()?,
            op: self.op.duplicate()?,
        })
    }
}

impl Outcome {
    /// An outcome of its own with the same parts.
    pub fn duplicate(&self) -> Result<Outcome, NoMemory>
        ensures { IfOk result (λ outcome. outcome ≡ self.now) }
    {
        Ok(match self {
            Outcome::Found(version, value) => Outcome::Found(*version, value.duplicate()?),
            Outcome::Absent => Outcome::Absent,
            Outcome::Written(version) => Outcome::Written(*version),
            Outcome::Deleted(version) => Outcome::Deleted(*version),
            Outcome::Mismatch(version) => Outcome::Mismatch(*version),
        })
    }
}

impl Answer {
    /// An answer of its own with the same parts.
    pub fn duplicate(&self) -> Result<Answer, NoMemory>
        ensures { IfOk result (λ answer. answer ≡ self.now) }
    {
        Ok(match self {
            Answer::Done(outcome) => Answer::Done(outcome.duplicate()?),
            Answer::Moved(tablet) => Answer::Moved(*tablet),
            Answer::NotYet(key) => Answer::NotYet(key.duplicate()?),
        })
    }
}
