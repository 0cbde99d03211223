ghost use Rattle.std.specs.Prelude.{◌≡◌};
ghost use Rattle.rk_types.specs.declared.call.End.TheVariants.{Absent};
ghost use Rattle.rk_entry.specs.Steps.{Gives};
ghost use Rattle.rk_entry.specs.Numbers.{HasRoom, Gains};
ghost use Rattle.rk_entry.specs.Ends.{range_bytes, read_range, outcome_bytes, read_absent, read_tagged, read_outcome, end_bytes, read_end};

use crate::error::{BAD_CHOICE, BAD_NUMBER, DecodeError};
use crate::fields::numbers::{
    put_u8, put_u32, put_u64, read_u8, read_u32_from, read_u64, read_u64_from,
};
use crate::kind::END_BYTES;
use rk_types::{End, Ended, Range};

/// The tag of a call that wrote a record.
pub const WRITTEN: u8 = 1;

/// The tag of a call that removed a record.
pub const DELETED: u8 = 2;

/// The tag of a call that found no record to remove.
pub const ABSENT: u8 = 3;

/// The tag of a call that met another version.
pub const MISMATCH: u8 = 4;

/// A range of the hashes of a table, and the bytes after it. A table of 0, and a last hash below the first, is
/// `Bad(BAD_NUMBER)`.
#[tactic(auto, unfolding(crate::specs::Ends::read_range))]
pub fn read_range(bytes: &[u8]) -> Result<(Range, &[u8]), DecodeError>
    ensures { Gives (λ x. (x.0, x.1.now)) result (read_range bytes.now) }
{
    let (table, rest) = read_u64_from(1, bytes)?;
    let (first, rest) = read_u64(rest)?;
    let (last, rest) = read_u64_from(first, rest)?;
    Ok((Range { table, first, last }, rest))
}

/// How a call ended, and the bytes after it. A tag that there is not is `Bad(BAD_CHOICE)`, and a version that the tag
/// does not allow is `Bad(BAD_NUMBER)`.
#[tactic(auto, unfolding(crate::specs::Ends::read_outcome))]
pub fn read_outcome(bytes: &[u8]) -> Result<(End, &[u8]), DecodeError>
    ensures { Gives (λ x. (x.0, x.1.now)) result (read_outcome bytes.now) }
{
    let (tag, rest) = read_u8(bytes)?;
    read_tagged(tag, rest)
}

// How a call with this tag ended.
#[tactic(auto, unfolding(crate::specs::Ends::read_tagged, crate::specs::Ends::read_version))]
fn read_tagged(tag: u8, bytes: &[u8]) -> Result<(End, &[u8]), DecodeError>
    ensures { Gives (λ x. (x.0, x.1.now)) result (read_tagged tag bytes.now) }
{
    match tag {
        WRITTEN => {
            let (version, rest) = read_u64_from(1, bytes)?;
            Ok((End::Written(version), rest))
        }
        DELETED => {
            let (version, rest) = read_u64_from(1, bytes)?;
            Ok((End::Deleted(version), rest))
        }
        ABSENT => read_absent(bytes),
        MISMATCH => {
            let (version, rest) = read_u64_from(0, bytes)?;
            Ok((End::Mismatch(version), rest))
        }
        _ => Err(DecodeError::Bad(BAD_CHOICE)),
    }
}

// The version beside the tag of a call that found nothing, which is 0.
#[tactic(auto, unfolding(crate::specs::Ends::read_absent))]
fn read_absent(bytes: &[u8]) -> Result<(End, &[u8]), DecodeError>
    ensures { Gives (λ x. (x.0, x.1.now)) result (read_absent bytes.now) }
{
    let (version, rest) = read_u64(bytes)?;
    if version > 0 {
        return Err(DecodeError::Bad(BAD_NUMBER));
    }
    Ok((End::Absent, rest))
}

/// The end of a call of a client above `above`, and the bytes after it. A client of 0 and a seq of 0 are
/// `Bad(BAD_NUMBER)`, and another client that is not above `above` is `Bad(BAD_CHOICE)`.
#[tactic(auto, unfolding(crate::specs::Ends::read_end))]
pub fn read_end(above: u32, bytes: &[u8]) -> Result<(Ended, &[u8]), DecodeError>
    ensures { Gives (λ x. (x.0, x.1.now)) result (read_end above bytes.now) }
{
    let (client, rest) = read_u32_from(1, bytes)?;
    if client <= above {
        return Err(DecodeError::Bad(BAD_CHOICE));
    }
    let (seq, rest) = read_u64_from(1, rest)?;
    let (end, rest) = read_outcome(rest)?;
    Ok((Ended { client, seq, end }, rest))
}

/// Puts a range at the end.
#[tactic(auto, unfolding(crate::specs::Ends::range_bytes))]
pub fn put_range(into: &mut Vec<u8>, range: &Range)
    requires { HasRoom into.old 24 }
    ensures { Gains into.old into.new (range_bytes range.now) 24 }
{
    put_u64(into, range.table);
    put_u64(into, range.first);
    put_u64(into, range.last);
}

/// Puts how a call ended at the end.
#[tactic(auto, unfolding(crate::specs::Ends::outcome_bytes))]
pub fn put_outcome(into: &mut Vec<u8>, end: &End)
    requires { HasRoom into.old 9 }
    ensures { Gains into.old into.new (outcome_bytes end.now) 9 }
{
    let (tag, version) = match end {
        End::Written(version) => (WRITTEN, *version),
        End::Deleted(version) => (DELETED, *version),
        End::Absent => (ABSENT, 0),
        End::Mismatch(version) => (MISMATCH, *version),
    };
    put_u8(into, tag);
    put_u64(into, version);
}

/// Puts the end of a call at the end.
#[tactic(auto, unfolding(crate::specs::Ends::end_bytes))]
pub fn put_end(into: &mut Vec<u8>, end: &Ended)
    requires { HasRoom into.old END_BYTES }
    ensures { Gains into.old into.new (end_bytes end.now) END_BYTES }
{
    put_u32(into, end.client);
    put_u64(into, end.seq);
    put_outcome(into, &end.end);
}
