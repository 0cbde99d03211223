// Whether bytes that come for a segment agree with those that are stored.
ghost use Rattle.std.specs.Prelude.{◌≡◌, true, IfOk, IfSome};
ghost use Rattle.rk_outside.specs.Losses.{HasLossCause};
ghost use Rattle.rk_outside.specs.Segments.{IsSame, WhereTold, bytes_of};
ghost use Rattle.rk_backup.specs.Accepts.{is_accepted};

use rk_outside::{Lost, Replica};
use std::alloc::Global;

// Whether the bytes begin where bytes are stored or at their end, and agree with them as far as both go.
fn agree(stored: &[u8], at: usize, bytes: &[u8]) -> bool
    ensures { result ≡ is_accepted at bytes.now stored.now }
{
    if at > stored.len() {
        return false;
    }
    let (_, rest) = stored.split_at(at);
    let count = rest.len().min(bytes.len());
    rest[..count] == bytes[..count]
}

/// Whether the bytes begin where bytes of the segment are stored or at their end, and agree with them as far as both go.
/// The segment is read if there is something to compare.
pub(crate) fn agrees_with_stored<R: Replica>(
    replica: &mut R,
    alloc: Global,
    master: u8,
    segment: u32,
    at: u32,
    bytes: &[u8],
) -> Result<bool, Lost>
    ensures same { IfOk result (λ same. IfSome (R.segments replica.old) (λ told.
        same ≡ is_accepted at bytes.now (bytes_of (told master segment)))) }
    ensures end { R.lengths replica.old master segment ≡ at → IfOk result (λ same. same ≡ true) }
    ensures segments { WhereTold IsSame (R.segments replica.old) (R.segments replica.new) }
    ensures lengths { IsSame (R.lengths replica.old) (R.lengths replica.new) }
    ensures cause { HasLossCause (R.faults replica.old) (R.faults replica.new) result }
{
    if replica.length(master, segment) == at {
        return Ok(true);
    }
    let mut stored = Vec::new(alloc);
    replica.read(alloc, master, segment, &mut stored)?;
    Ok(agree(stored.as_slice(), at as usize, bytes))
}
