ghost use Rattle.std.specs.Prelude.{◌≡◌, ◌≤◌, length, IfOk};
ghost use Rattle.rk_entry.specs.Steps.{Gives};
ghost use Rattle.rk_message.specs.Pulling.{read_pull, read_pulled, read_want, read_hash_count, read_got};

use crate::fields::{read_last_list, read_list, read_tenure, read_token};
use crate::pulling::entries::read_last_entries;
use crate::pulling::{GOT_BYTES, Got, HASH_BYTES, PULLED_BYTES, Pull, Pulled, WANT_BYTES, Want};
use rk_entry::fields::read_u32;
use rk_entry::{BAD_BODY_LENGTH, DecodeError};
use std::alloc::Global;

/// A Pull, and the bytes after it.
#[tactic(auto, unfolding(crate::specs::Pulling::read_pull))]
pub fn read_pull(bytes: &[u8]) -> Result<(Pull, &[u8]), DecodeError>
    ensures { Gives (λ x. (x.0, x.1.now)) result (read_pull bytes.now) }
{
    let (tenure, rest) = read_tenure(bytes)?;
    let (token, rest) = read_token(rest)?;
    Ok((Pull { tenure, token }, rest))
}

/// A Pulled of `size` bytes, and the bytes after it. An unlawful entry is `Bad(BAD_CHOICE)`. Another length than `size`
/// is `Bad(BAD_BODY_LENGTH)`, as soon as the last length or count of the last entry is read, or the count of entries
/// if there are none.
#[tactic(auto, unfolding(crate::specs::Pulling::read_pulled))]
pub fn read_pulled(alloc: Global, size: u32, bytes: &[u8]) -> Result<(Pulled, &[u8]), DecodeError>
    ensures { Gives (λ x. (x.0, x.1.now)) result (read_pulled size bytes.now) }
{
    let (tenure, rest) = read_tenure(bytes)?;
    let (token, rest) = read_token(rest)?;
    let (next, rest) = read_token(rest)?;
    let (entries, rest) = read_last_entries(alloc, PULLED_BYTES as u64, size, rest)?;
    let pulled = Pulled {
        tenure,
        token,
        next,
        entries,
    };
    Ok((pulled, rest))
}

/// A Want of `size` bytes, and the bytes after it. A count of hashes that does not fit `size` is
/// `Bad(BAD_BODY_LENGTH)`.
#[tactic(auto, unfolding(crate::specs::Pulling::read_want))]
pub fn read_want(alloc: Global, size: u32, bytes: &[u8]) -> Result<(Want, &[u8]), DecodeError>
    ensures { Gives (λ x. (x.0, x.1.now)) result (read_want size bytes.now) }
{
    let (tenure, rest) = read_tenure(bytes)?;
    let (hashes, rest) = read_last_list(alloc, WANT_BYTES, HASH_BYTES, size, rest)?;
    Ok((Want { tenure, hashes }, rest))
}

// The count of the hashes of a Got of `size` bytes.
#[tactic(auto, unfolding(crate::specs::Pulling::read_hash_count))]
fn read_hash_count(size: u32, bytes: &[u8]) -> Result<(u32, &[u8]), DecodeError>
    ensures { Gives (λ x. (x.0, x.1.now)) result (read_hash_count size bytes.now) }
{
    let (count, rest) = read_u32(bytes)?;
    if (size as u64) < GOT_BYTES as u64 + HASH_BYTES as u64 * count as u64 {
        return Err(DecodeError::Bad(BAD_BODY_LENGTH));
    }
    Ok((count, rest))
}

/// A Got of `size` bytes, and the bytes after it. A count of hashes that do not fit `size` is `Bad(BAD_BODY_LENGTH)`,
/// an unlawful entry is `Bad(BAD_CHOICE)`. Another length than `size` is `Bad(BAD_BODY_LENGTH)`, as soon as the last
/// length or count of the last entry is read, or the count of entries if there are none.
#[tactic(auto, unfolding(crate::specs::Pulling::read_got))]
pub fn read_got(alloc: Global, size: u32, bytes: &[u8]) -> Result<(Got, &[u8]), DecodeError>
    ensures { Gives (λ x. (x.0, x.1.now)) result (read_got size bytes.now) }
{
    let (tenure, rest) = read_tenure(bytes)?;
    let (count, rest) = read_hash_count(size, rest)?;
    let (hashes, rest) = read_list(alloc, count, rest)?;
    let first = GOT_BYTES as u64 + HASH_BYTES as u64 * count as u64;
    let (entries, rest) = read_last_entries(alloc, first, size, rest)?;
    let got = Got {
        tenure,
        hashes,
        entries,
    };
    Ok((got, rest))
}
