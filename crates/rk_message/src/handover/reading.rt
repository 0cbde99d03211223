ghost use Rattle.std.specs.Prelude.{◌≡◌};
ghost use Rattle.rk_entry.specs.Steps.{Gives};
ghost use Rattle.rk_message.specs.Handover.{read_prepare, read_ready, read_last_ends, read_transfer, read_grant};

use crate::fields::{read_any_range, read_last_list, read_tenure};
use crate::handover::{GRANT_BYTES, Grant, Prepare, Ready, TRANSFER_BYTES, Transfer};
use rk_entry::fields::{read_u8, read_u64};
use rk_entry::{DecodeError, END_BYTES};
use rk_types::{Ended, Listed};
use std::alloc::Global;

/// A Prepare, and the bytes after it.
#[tactic(auto, unfolding(crate::specs::Handover::read_prepare))]
pub fn read_prepare(bytes: &[u8]) -> Result<(Prepare, &[u8]), DecodeError>
    ensures { Gives (λ x. (x.0, x.1.now)) result (read_prepare bytes.now) }
{
    let (tenure, rest) = read_tenure(bytes)?;
    let (range, rest) = read_any_range(rest)?;
    Ok((Prepare { tenure, range }, rest))
}

/// A Ready, and the bytes after it.
#[tactic(auto, unfolding(crate::specs::Handover::read_ready))]
pub fn read_ready(bytes: &[u8]) -> Result<(Ready, &[u8]), DecodeError>
    ensures { Gives (λ x. (x.0, x.1.now)) result (read_ready bytes.now) }
{
    let (tenure, rest) = read_tenure(bytes)?;
    let (place, rest) = read_u64(rest)?;
    Ok((Ready { tenure, place }, rest))
}

/// The ends of calls that end a body of `size` bytes, after their count; `first` bytes of the body are not these.
#[tactic(auto, unfolding(crate::specs::Handover::read_last_ends))]
pub fn read_last_ends(
    alloc: Global,
    first: u32,
    size: u32,
    bytes: &[u8],
) -> Result<(Listed<Ended>, &[u8]), DecodeError>
    ensures { Gives (λ x. (x.0, x.1.now)) result (read_last_ends first size bytes.now) }
{
    read_last_list(alloc, first, END_BYTES, size, bytes)
}

/// A Transfer of `size` bytes, and the bytes after it.
#[tactic(auto, unfolding(crate::specs::Handover::read_transfer))]
pub fn read_transfer(
    alloc: Global,
    size: u32,
    bytes: &[u8],
) -> Result<(Transfer, &[u8]), DecodeError>
    ensures { Gives (λ x. (x.0, x.1.now)) result (read_transfer size bytes.now) }
{
    let (tenure, rest) = read_tenure(bytes)?;
    let (floor, rest) = read_u64(rest)?;
    let (ends, rest) = read_last_ends(alloc, TRANSFER_BYTES, size, rest)?;
    let transfer = Transfer {
        tenure,
        floor,
        ends,
    };
    Ok((transfer, rest))
}

/// A Grant of `size` bytes, and the bytes after it.
#[tactic(auto, unfolding(crate::specs::Handover::read_grant))]
pub fn read_grant(alloc: Global, size: u32, bytes: &[u8]) -> Result<(Grant, &[u8]), DecodeError>
    ensures { Gives (λ x. (x.0, x.1.now)) result (read_grant size bytes.now) }
{
    let (tenure, rest) = read_tenure(bytes)?;
    let (source, rest) = read_u8(rest)?;
    let (floor, rest) = read_u64(rest)?;
    let (ends, rest) = read_last_ends(alloc, GRANT_BYTES, size, rest)?;
    let grant = Grant {
        tenure,
        source,
        floor,
        ends,
    };
    Ok((grant, rest))
}
