ghost use Rattle.std.specs.Prelude.{◌≡◌, IfOk};

pub use reading::{read_located, read_lookup, read_reply, read_request};
pub use writing::{put_located, put_lookup, put_reply, put_request, reply_len, request_len};

mod reading;
mod writing;

use crate::fields::RANGE_BYTES;
use rk_types::{Answer, Key, NoMemory, Op, Range};

/// The number of a get.
pub const GET: u8 = 1;

/// The number of a put.
pub const PUT: u8 = 2;

/// The number of a conditional put.
pub const COND_PUT: u8 = 3;

/// The number of a delete.
pub const DELETE: u8 = 4;

/// The number of an answer: the record was there.
pub const FOUND: u8 = 1;

/// The number of an answer: no record was there.
pub const ABSENT: u8 = 2;

/// The number of an answer: the record was written.
pub const WRITTEN: u8 = 3;

/// The number of an answer: the record was removed.
pub const DELETED: u8 = 4;

/// The number of an answer: the record has another version.
pub const MISMATCH: u8 = 5;

/// The number of an answer: the tablet has moved.
pub const MOVED: u8 = 6;

/// The number of an answer: the record has not arrived yet.
pub const NOT_YET: u8 = 7;

/// Bytes of a Request but for the key and what follows it: the tablet, the seq, the stamp, the number of the operation,
/// the table and the length of the key.
pub const REQUEST_BYTES: u32 = 4 + 8 + 8 + 1 + 8 + 1;

/// Bytes of a Reply but for what follows the number of the answer: the seq, the stamp, the place and that number.
pub const REPLY_BYTES: u32 = 8 + 8 + 8 + 1;

/// Bytes of a Lookup: the table and the hash.
pub const LOOKUP_BYTES: u32 = 8 + 8;

/// Bytes of a Located: the tablet, the range and the owner.
pub const LOCATED_BYTES: u32 = 4 + RANGE_BYTES + 1;

/// A client asks a master to carry out a call.
#[derive(Drop, PartialEq, Eq)]
pub struct Request {
    /// The tablet of the key, as the client knows it.
    pub tablet: u32,
    pub seq: u64,
    /// The highest stamp that the client has seen.
    pub seen: u64,
    pub table: u64,
    pub key: Key,
    pub op: Op,
}

/// A master answers a call.
#[derive(Drop, PartialEq, Eq)]
pub struct Reply {
    pub seq: u64,
    /// The stamp of the call's record in the journal, 0 if the call was not carried out.
    pub stamp: u64,
    /// The place of that record, counted from 0.
    pub place: u64,
    pub answer: Answer,
}

/// A client asks who owns the tablet of a hash.
#[derive(Clone, Copy, PartialEq, Eq)]
pub struct Lookup {
    pub table: u64,
    pub hash: u64,
}

/// The coordinator names the tablet, its range, and the master that answers calls for it, if one does.
#[derive(Clone, Copy, PartialEq, Eq)]
pub struct Located {
    pub tablet: u32,
    pub range: Range,
    pub owner: Option<u8>,
}

/// What a Request asks of a record.
#[derive(Drop, PartialEq, Eq)]
pub struct Asked {
    pub table: u64,
    pub key: Key,
    pub op: Op,
}

impl Request {
    /// A request of its own with the same parts.
    pub fn duplicate(&self) -> Result<Request, NoMemory>
        ensures { IfOk result (λ request. request ≡ self.now) }
    {
        Ok(Request {
            tablet: self.tablet,
            seq: self.seq,
            seen: self.seen,
            table: self.table,
            key: self.key.duplicate()?,
            op: self.op.duplicate()?,
        })
    }
}

impl Reply {
    /// A reply of its own with the same parts.
    pub fn duplicate(&self) -> Result<Reply, NoMemory>
        ensures { IfOk result (λ reply. reply ≡ self.now) }
    {
        Ok(Reply {
            seq: self.seq,
            stamp: self.stamp,
            place: self.place,
            answer: self.answer.duplicate()?,
        })
    }
}
