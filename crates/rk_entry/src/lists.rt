ghost use Rattle.std.specs.Prelude.{◌≡◌, ◌≤◌, ◌*◌, length, []};
ghost use Rattle.std.specs.List.{AllByRecursion};
ghost use Rattle.rk_entry.specs.Steps.{Gives};
ghost use Rattle.rk_entry.specs.Numbers.{HasRoom, Gains};
ghost use Rattle.rk_entry.specs.Lists.{ends_bytes, read_ends, segments_bytes, is_among, read_segment, read_segments};

use crate::error::{BAD_CHOICE, DecodeError};
use crate::fields::{put_end, put_u32, read_end, read_u32_from};
use crate::kind::{END_BYTES, SEGMENT_NUMBER_BYTES};
use rk_types::{Ended, Listed};
use std::alloc::Global;

/// The least number of a side segment; main segments have the numbers below.
pub const FIRST_SIDE_SEGMENT: u32 = 2_147_483_649;

/// So many ends of calls, by rising client.
pub fn read_ends(
    alloc: Global,
    count: u16,
    bytes: &[u8],
) -> Result<(Listed<Ended>, &[u8]), DecodeError>
    ensures { Gives (λ x. (x.0, x.1.now)) result (read_ends count 0 [] bytes.now) }
{
    let mut ends = Listed::new(alloc);
    let mut above = 0;
    let mut rest = bytes;
    'ends: for _ in 0..count {
        let (end, after) = read_end(above, rest)?;
        above = end.client;
        ends.push(end)?;
        rest = after;
    }
    Ok((ends, rest))
}

/// So many numbers of side segments, each once.
pub fn read_segments(
    alloc: Global,
    count: u32,
    bytes: &[u8],
) -> Result<(Listed<u32>, &[u8]), DecodeError>
    ensures { Gives (λ x. (x.0, x.1.now)) result (read_segments count [] bytes.now) }
{
    let mut segments = Listed::new(alloc);
    let mut greatest = 0;
    let mut rest = bytes;
    'segments: for _ in 0..count {
        let (segment, after) = read_segment(segments.as_slice(), greatest, rest)?;
        greatest = greatest.max(segment);
        segments.push(segment)?;
        rest = after;
    }
    Ok((segments, rest))
}

// The number of a side segment that is none of those before.
#[tactic(auto, unfolding(crate::specs::Lists::read_segment))]
fn read_segment<'a>(
    before: &[u32],
    greatest: u32,
    bytes: &'a [u8],
) -> Result<(u32, &'a [u8]), DecodeError>
    requires { AllByRecursion (λ number. number ≤ greatest) before.now }
    ensures { Gives (λ x. (x.0, x.1.now)) result (read_segment before.now bytes.now) }
{
    let (segment, rest) = read_u32_from(FIRST_SIDE_SEGMENT, bytes)?;
    if is_repeat(before, greatest, segment) {
        return Err(DecodeError::Bad(BAD_CHOICE));
    }
    Ok((segment, rest))
}

// Whether the number is among those before. A number above the greatest of them, as those of a log are, needs no
// search.
fn is_repeat(before: &[u32], greatest: u32, segment: u32) -> bool
    requires { AllByRecursion (λ number. number ≤ greatest) before.now }
    ensures { result ≡ is_among segment before.now }
{
    if segment > greatest {
        return false;
    }
    before.contains(&segment)
}

/// Puts the ends at the end, one after the other.
#[tactic(auto, unfolding(crate::specs::Lists::ends_bytes))]
pub fn put_ends(into: &mut Vec<u8>, ends: &[Ended])
    requires { HasRoom into.old (END_BYTES * length ends.now) }
    ensures { Gains into.old into.new (ends_bytes ends.now) (END_BYTES * length ends.now) }
{
    'ends: for end in ends {
        put_end(into, end);
    }
}

/// Puts the numbers of segments at the end, one after the other.
#[tactic(auto, unfolding(crate::specs::Lists::segments_bytes))]
pub fn put_segments(into: &mut Vec<u8>, segments: &[u32])
    requires { HasRoom into.old (SEGMENT_NUMBER_BYTES * length segments.now) }
    ensures { Gains into.old into.new (segments_bytes segments.now) (SEGMENT_NUMBER_BYTES * length segments.now) }
{
    'segments: for segment in segments {
        put_u32(into, *segment);
    }
}
