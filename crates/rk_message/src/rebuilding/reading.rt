ghost use Rattle.std.specs.Prelude.{◌≡◌};
ghost use Rattle.rk_entry.specs.Steps.{Gives};
ghost use Rattle.rk_message.specs.Rebuilding.{read_rebuild, read_read_segment, present_numbered, read_present, read_kept_bytes, read_kept, read_copy, read_rebuilt};

use crate::fields::{read_any_range, read_bytes, read_last_count, read_last_list, read_tenure};
use crate::handover::read_last_ends;
use crate::rebuilding::{
    COPY_BYTES, CopySegment, MEMBER_BYTES, MISSING, PRESENT, REBUILD_BYTES, REBUILT_BYTES,
    ReadSegment, Rebuild, Rebuilt,
};
use rk_entry::fields::{read_u8, read_u32, read_u64};
use rk_entry::{BAD_CHOICE, DecodeError};
use rk_types::Listed;
use std::alloc::Global;

/// A Rebuild of `size` bytes, and the bytes after it. A count of members that does not fit `size` is
/// `Bad(BAD_BODY_LENGTH)`.
#[tactic(auto, unfolding(crate::specs::Rebuilding::read_rebuild))]
pub fn read_rebuild(alloc: Global, size: u32, bytes: &[u8]) -> Result<(Rebuild, &[u8]), DecodeError>
    ensures { Gives (λ x. (x.0, x.1.now)) result (read_rebuild size bytes.now) }
{
    let (tenure, rest) = read_tenure(bytes)?;
    let (range, rest) = read_any_range(rest)?;
    let (lineage, rest) = read_last_list(alloc, REBUILD_BYTES, MEMBER_BYTES, size, rest)?;
    let rebuild = Rebuild {
        tenure,
        range,
        lineage,
    };
    Ok((rebuild, rest))
}

/// A Read, and the bytes after it.
#[tactic(auto, unfolding(crate::specs::Rebuilding::read_read_segment))]
pub fn read_read_segment(bytes: &[u8]) -> Result<(ReadSegment, &[u8]), DecodeError>
    ensures { Gives (λ x. (x.0, x.1.now)) result (read_read_segment bytes.now) }
{
    let (tenure, rest) = read_tenure(bytes)?;
    let (master, rest) = read_u8(rest)?;
    let (segment, rest) = read_u32(rest)?;
    let wanted = ReadSegment {
        tenure,
        master,
        segment,
    };
    Ok((wanted, rest))
}

// Whether the segment was ever written, as this number says.
fn present_numbered(number: u8) -> Option<bool>
    ensures { result ≡ present_numbered number }
{
    match number {
        MISSING => Some(false),
        PRESENT => Some(true),
        _ => None,
    }
}

// Whether the segment was ever written.
#[tactic(auto, unfolding(crate::specs::Rebuilding::read_present))]
fn read_present(bytes: &[u8]) -> Result<(bool, &[u8]), DecodeError>
    ensures { Gives (λ x. (x.0, x.1.now)) result (read_present bytes.now) }
{
    let (number, rest) = read_u8(bytes)?;
    let present = present_numbered(number).ok_or(DecodeError::Bad(BAD_CHOICE))?;
    Ok((present, rest))
}

// So many bytes of a segment, of which there are none if it was never written.
#[tactic(auto, unfolding(crate::specs::Rebuilding::read_kept_bytes))]
fn read_kept_bytes(
    alloc: Global,
    present: bool,
    count: u32,
    bytes: &[u8],
) -> Result<(Option<Listed<u8>>, &[u8]), DecodeError>
    ensures { Gives (λ x. (x.0, x.1.now)) result (read_kept_bytes present count bytes.now) }
{
    if present {
        let (kept, rest) = read_bytes(alloc, count, bytes)?;
        return Ok((Some(kept), rest));
    }
    if count > 0 {
        return Err(DecodeError::Bad(BAD_CHOICE));
    }
    Ok((None, bytes))
}

// What a Copy of `size` bytes carries of its segment.
#[tactic(auto, unfolding(crate::specs::Rebuilding::read_kept))]
fn read_kept(
    alloc: Global,
    size: u32,
    bytes: &[u8],
) -> Result<(Option<Listed<u8>>, &[u8]), DecodeError>
    ensures { Gives (λ x. (x.0, x.1.now)) result (read_kept size bytes.now) }
{
    let (present, rest) = read_present(bytes)?;
    let (count, rest) = read_last_count(COPY_BYTES, size, rest)?;
    read_kept_bytes(alloc, present, count, rest)
}

/// A Copy of `size` bytes, and the bytes after it. A number that does not say whether the segment was ever written, and
/// bytes of a segment that was not, are `Bad(BAD_CHOICE)`; a count of bytes that does not fit `size` is
/// `Bad(BAD_BODY_LENGTH)`.
#[tactic(auto, unfolding(crate::specs::Rebuilding::read_copy))]
pub fn read_copy(
    alloc: Global,
    size: u32,
    bytes: &[u8],
) -> Result<(CopySegment, &[u8]), DecodeError>
    ensures { Gives (λ x. (x.0, x.1.now)) result (read_copy size bytes.now) }
{
    let (tenure, rest) = read_tenure(bytes)?;
    let (master, rest) = read_u8(rest)?;
    let (segment, rest) = read_u32(rest)?;
    let (bytes, rest) = read_kept(alloc, size, rest)?;
    let copy = CopySegment {
        tenure,
        master,
        segment,
        bytes,
    };
    Ok((copy, rest))
}

/// A Rebuilt of `size` bytes, and the bytes after it. A count of ends that does not fit `size` is
/// `Bad(BAD_BODY_LENGTH)`; an end is refused as in a log, but for the order of clients.
#[tactic(auto, unfolding(crate::specs::Rebuilding::read_rebuilt))]
pub fn read_rebuilt(alloc: Global, size: u32, bytes: &[u8]) -> Result<(Rebuilt, &[u8]), DecodeError>
    ensures { Gives (λ x. (x.0, x.1.now)) result (read_rebuilt size bytes.now) }
{
    let (tenure, rest) = read_tenure(bytes)?;
    let (place, rest) = read_u64(rest)?;
    let (ends, rest) = read_last_ends(alloc, REBUILT_BYTES, size, rest)?;
    let rebuilt = Rebuilt {
        tenure,
        place,
        ends,
    };
    Ok((rebuilt, rest))
}
