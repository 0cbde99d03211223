ghost use Rattle.std.specs.Prelude.{◌≡◌};
ghost use Rattle.rk_entry.specs.Steps.{Gives};
ghost use Rattle.rk_entry.specs.Numbers.{number_bytes, HasRoom, Gains};
ghost use Rattle.std.specs.Int.{w8};
ghost use Rattle.rk_entry.specs.Spelling.{head_bytes, why_number};
ghost use Rattle.rk_entry.specs.Reading.{read_head, read_why};

use crate::error::{BAD_CHOICE, DecodeError};
use crate::fields::{put_u8, put_u32, put_u64, read_u8, read_u32_from, read_u64_from};

/// Bytes of the head of an item and of a refusal.
pub const HEAD_FIELDS_BYTES: u32 = 8 + 8 + 4 + 8;

/// The number of the reason of a refusal: a conditional put met another version.
pub const MET_ANOTHER: u8 = 1;

/// The number of the reason of a refusal: there was no record to remove.
pub const MET_NONE: u8 = 2;

/// The fields with which the body of an item and that of a refusal begin.
#[derive(Clone, Copy, PartialEq, Eq)]
pub struct Head {
    pub table: u64,
    pub version: u64,
    pub client: u32,
    pub seq: u64,
}

/// A head with a version that is at least `least`.
#[tactic(auto, unfolding(crate::specs::Reading::read_head))]
pub fn read_head(least: u64, bytes: &[u8]) -> Result<(Head, &[u8]), DecodeError>
    ensures { Gives (λ x. (x.0, x.1.now)) result (read_head least bytes.now) }
{
    let (table, rest) = read_u64_from(1, bytes)?;
    let (version, rest) = read_u64_from(least, rest)?;
    let (client, rest) = read_u32_from(1, rest)?;
    let (seq, rest) = read_u64_from(1, rest)?;
    let head = Head {
        table,
        version,
        client,
        seq,
    };
    Ok((head, rest))
}

/// Why a call was refused: whether it was a removal. A removal found no version.
#[tactic(auto, unfolding(crate::specs::Reading::read_why))]
pub fn read_why(found: u64, bytes: &[u8]) -> Result<(bool, &[u8]), DecodeError>
    ensures { Gives (λ x. (x.0, x.1.now)) result (read_why found bytes.now) }
{
    match read_u8(bytes)? {
        (MET_ANOTHER, rest) => Ok((false, rest)),
        (MET_NONE, rest) if found == 0 => Ok((true, rest)),
        _ => Err(DecodeError::Bad(BAD_CHOICE)),
    }
}

/// Puts a head at the end.
#[tactic(auto, unfolding(crate::specs::Spelling::head_bytes))]
pub fn put_head(into: &mut Vec<u8>, head: &Head)
    requires { HasRoom into.old HEAD_FIELDS_BYTES }
    ensures { Gains into.old into.new (head_bytes head.now) HEAD_FIELDS_BYTES }
{
    put_u64(into, head.table);
    put_u64(into, head.version);
    put_u32(into, head.client);
    put_u64(into, head.seq);
}

/// Puts the reason of a refusal at the end.
pub fn put_why(into: &mut Vec<u8>, absent: bool)
    requires { HasRoom into.old 1 }
    ensures { Gains into.old into.new (number_bytes w8 (why_number absent)) 1 }
{
    put_u8(into, if absent { MET_NONE } else { MET_ANOTHER });
}
