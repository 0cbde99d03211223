//! Entries within a frame, and those with which a body ends: the last of them shows how long the body is.

ghost use Rattle.std.specs.Prelude.{◌≡◌, ◌<◌, ◌^◌};
ghost use Rattle.rk_entry.specs.Steps.{Gives};
ghost use Rattle.rk_message.specs.Pulling.{read_entry_within, front_length, where_front_is, told_length, where_none_other, read_last_entry, read_ending, read_last_entries};

use crate::fields::read_list;
use rk_entry::fields::{read_u8, read_u32};
use rk_entry::{
    BAD_BODY_LENGTH, BAD_CHOICE, BAD_KIND, CARRIED_BYTES, DecodeError, Entry, HEAD_BYTES,
    JOINED_BYTES, Kind, OBJECT_BYTES, REFUSED_BYTES, TOMBSTONE_BYTES, decode,
};
use rk_types::Listed;
use std::alloc::Global;

/// Where the length of the key of an item is: at the last byte before the key of a tombstone.
pub const KEY_LENGTH_PLACE: usize = (HEAD_BYTES + TOMBSTONE_BYTES - 1) as usize;

/// An entry within a frame, and the bytes after it. An unlawful one is `Bad(BAD_CHOICE)`, whatever its own fault is.
#[tactic(auto, unfolding(crate::specs::Pulling::read_entry_within))]
pub fn read_entry_within(alloc: Global, bytes: &[u8]) -> Result<(Entry, &[u8]), DecodeError>
    ensures { Gives (λ x. (x.0, x.1.now)) result (read_entry_within bytes.now) }
{
    match decode(alloc, bytes) {
        Ok((entry, count)) => Ok((entry, bytes.split_at(count).1)),
        Err(DecodeError::Cut) => Err(DecodeError::Cut),
        Err(DecodeError::Bad(_)) => Err(DecodeError::Bad(BAD_CHOICE)),
        Err(DecodeError::NoMemory) => Err(DecodeError::NoMemory),
    }
}

// How many bytes an entry of this kind has up to its last length or count, if its key has `key` bytes.
fn front_len(kind: Kind, key: u8) -> u32
    ensures { result ≡ front_length kind key }
{
    match kind {
        Kind::Object | Kind::LongObject => HEAD_BYTES + OBJECT_BYTES + u32::from(key),
        Kind::Tombstone => HEAD_BYTES + TOMBSTONE_BYTES,
        Kind::Refused => HEAD_BYTES + REFUSED_BYTES,
        Kind::Carried => HEAD_BYTES + CARRIED_BYTES,
        Kind::Joined => HEAD_BYTES + JOINED_BYTES,
    }
}

// The number, if the first `count` bytes of an entry are there and lawful.
#[tactic(auto, unfolding(crate::specs::Pulling::where_front_is))]
fn where_front_is(alloc: Global, count: u32, n: u64, bytes: &[u8]) -> Result<u64, DecodeError>
    ensures { Gives (λ x. x) result (where_front_is count n bytes.now) }
{
    if bytes.len() < count as usize {
        return Err(DecodeError::Cut);
    }
    match decode(alloc, bytes.split_at(count as usize).0) {
        Ok(_) => Ok(n),
        Err(DecodeError::Cut) => Ok(n),
        Err(DecodeError::Bad(code)) => Err(DecodeError::Bad(code)),
        Err(DecodeError::NoMemory) => Err(DecodeError::NoMemory),
    }
}

// How many bytes the entry at the front takes, once all up to its last length or count is there and lawful.
#[tactic(auto, unfolding(crate::specs::Pulling::told_length))]
fn told_len(alloc: Global, bytes: &[u8]) -> Result<u64, DecodeError>
    ensures { Gives (λ n. n) result (told_length bytes.now) }
{
    let (number, rest) = read_u8(bytes)?;
    let kind = Kind::numbered(number).ok_or(DecodeError::Bad(BAD_KIND))?;
    let (body, _) = read_u32(rest)?;
    let key = bytes.get(KEY_LENGTH_PLACE).copied().unwrap_or(0);
    let told = u64::from(HEAD_BYTES) + u64::from(body);
    where_front_is(alloc, front_len(kind, key), told, bytes)
}

// Finds out whether an entry shows another length than `size` for the body that it ends, of which `before` bytes come
// before it.
fn check_told(alloc: Global, before: u64, size: u32, bytes: &[u8]) -> Result<(), DecodeError>
    ensures { Gives (λ x. x) result (where_none_other before size (told_length bytes.now)) }
{
    match told_len(alloc, bytes) {
        Ok(told) => {
            if u128::from(size) != u128::from(before) + u128::from(told) {
                return Err(DecodeError::Bad(BAD_BODY_LENGTH));
            }
            Ok(())
        }
        Err(DecodeError::Cut) => Ok(()),
        Err(DecodeError::Bad(_)) => Ok(()),
        Err(DecodeError::NoMemory) => Err(DecodeError::NoMemory),
    }
}

// The entry that ends a body of `size` bytes, of which `before` come before it.
#[tactic(auto, unfolding(crate::specs::Pulling::read_last_entry))]
fn read_last_entry(
    alloc: Global,
    before: u64,
    size: u32,
    bytes: &[u8],
) -> Result<(Entry, &[u8]), DecodeError>
    ensures { Gives (λ x. (x.0, x.1.now)) result (read_last_entry before size bytes.now) }
{
    match read_entry_within(alloc, bytes) {
        Ok((entry, rest)) => {
            let count = (bytes.len() - rest.len()) as u64;
            if u128::from(size) != u128::from(before) + u128::from(count) {
                return Err(DecodeError::Bad(BAD_BODY_LENGTH));
            }
            Ok((entry, rest))
        }
        Err(DecodeError::Cut) => {
            check_told(alloc, before, size, bytes)?;
            Err(DecodeError::Cut)
        }
        Err(DecodeError::Bad(code)) => {
            check_told(alloc, before, size, bytes)?;
            Err(DecodeError::Bad(code))
        }
        Err(DecodeError::NoMemory) => Err(DecodeError::NoMemory),
    }
}

// So many entries that end a body of `size` bytes, of which `first` are not theirs.
#[tactic(auto, unfolding(crate::specs::Pulling::read_ending))]
fn read_ending(
    alloc: Global,
    first: u64,
    size: u32,
    count: u32,
    bytes: &[u8],
) -> Result<(Listed<Entry>, &[u8]), DecodeError>
    requires { first < 2 ^ 63 }
    ensures { Gives (λ x. (x.0, x.1.now)) result (read_ending first size count bytes.now) }
{
    if count == 0 {
        if u64::from(size) != first {
            return Err(DecodeError::Bad(BAD_BODY_LENGTH));
        }
        return Ok((Listed::new(alloc), bytes));
    }
    let (mut entries, rest) = read_list(alloc, count - 1, bytes)?;
    let before = first + (bytes.len() - rest.len()) as u64;
    let (last, rest) = read_last_entry(alloc, before, size, rest)?;
    entries.push(last)?;
    Ok((entries, rest))
}

/// Entries after their count that end a body of `size` bytes, of which `first` are not theirs, and the bytes after
/// them. An unlawful entry is `Bad(BAD_CHOICE)`. Another length of the body is `Bad(BAD_BODY_LENGTH)`, as soon as the
/// last length or count of the last entry is read, or the count of entries if there are none.
#[tactic(auto, unfolding(crate::specs::Pulling::read_last_entries))]
pub fn read_last_entries(
    alloc: Global,
    first: u64,
    size: u32,
    bytes: &[u8],
) -> Result<(Listed<Entry>, &[u8]), DecodeError>
    requires { first < 2 ^ 63 }
    ensures { Gives (λ x. (x.0, x.1.now)) result (read_last_entries first size bytes.now) }
{
    let (count, rest) = read_u32(bytes)?;
    read_ending(alloc, first, size, count, rest)
}
