ghost use Rattle.std.specs.Prelude.{◌≡◌};
ghost use Rattle.rk_entry.specs.Steps.{Gives};
ghost use Rattle.rk_message.specs.Replication.{read_append, read_stored};

use crate::fields::read_last_bytes;
use crate::replication::{APPEND_BYTES, Append, Stored};
use rk_entry::DecodeError;
use rk_entry::fields::read_u32;
use std::alloc::Global;

/// An Append of `size` bytes, and the bytes after it.
#[tactic(auto, unfolding(crate::specs::Replication::read_append))]
pub fn read_append(alloc: Global, size: u32, bytes: &[u8]) -> Result<(Append, &[u8]), DecodeError>
    ensures { Gives (λ x. (x.0, x.1.now)) result (read_append size bytes.now) }
{
    let (segment, rest) = read_u32(bytes)?;
    let (at, rest) = read_u32(rest)?;
    let (bytes, rest) = read_last_bytes(alloc, APPEND_BYTES, size, rest)?;
    Ok((Append { segment, at, bytes }, rest))
}

/// A Stored, and the bytes after it.
#[tactic(auto, unfolding(crate::specs::Replication::read_stored))]
pub fn read_stored(bytes: &[u8]) -> Result<(Stored, &[u8]), DecodeError>
    ensures { Gives (λ x. (x.0, x.1.now)) result (read_stored bytes.now) }
{
    let (segment, rest) = read_u32(bytes)?;
    let (length, rest) = read_u32(rest)?;
    Ok((Stored { segment, length }, rest))
}
