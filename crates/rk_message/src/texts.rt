//! The keys and values of calls, and the numbers that end their frames.

ghost use Rattle.std.specs.Prelude.{◌≡◌};
ghost use Rattle.std.specs.Int.{w32, w64};
ghost use Rattle.rk_entry.specs.Steps.{Gives};
ghost use Rattle.rk_message.specs.Texts.{read_any_key, read_last_key, read_last_value, read_last_number};

use crate::fields::is_whole;
use rk_entry::fields::{
    read_key, read_key_length, read_u32, read_u64, read_value, read_value_length,
};
use rk_entry::{BAD_BODY_LENGTH, DecodeError};
use rk_types::{Key, LONGEST_VALUE, Value};
use std::alloc::Global;

/// A key after its length, and the bytes after it.
#[tactic(auto, unfolding(crate::specs::Texts::read_any_key))]
pub fn read_any_key(alloc: Global, bytes: &[u8]) -> Result<(Key, &[u8]), DecodeError>
    ensures { Gives (λ x. (x.0, x.1.now)) result (read_any_key bytes.now) }
{
    let (count, rest) = read_key_length(bytes)?;
    read_key(alloc, count, rest)
}

/// The key after its length that ends a body of `size` bytes, of which `first` are not the key, and the bytes after it.
/// Another body is `Bad(BAD_BODY_LENGTH)`.
#[tactic(auto, unfolding(crate::specs::Texts::read_last_key))]
pub fn read_last_key(
    alloc: Global,
    first: u32,
    size: u32,
    bytes: &[u8],
) -> Result<(Key, &[u8]), DecodeError>
    ensures { Gives (λ x. (x.0, x.1.now)) result (read_last_key first size bytes.now) }
{
    let (count, rest) = read_key_length(bytes)?;
    if !is_whole(size, first, count.into()) {
        return Err(DecodeError::Bad(BAD_BODY_LENGTH));
    }
    read_key(alloc, count, rest)
}

/// The value after its length that ends a body of `size` bytes, of which `first` are not the value, and the bytes after
/// it. Another body is `Bad(BAD_BODY_LENGTH)`.
#[tactic(auto, unfolding(crate::specs::Texts::read_last_value))]
pub fn read_last_value(
    alloc: Global,
    first: u32,
    size: u32,
    bytes: &[u8],
) -> Result<(Value, &[u8]), DecodeError>
    ensures { Gives (λ x. (x.0, x.1.now)) result (read_last_value first size bytes.now) }
{
    let (count, rest) = read_value_length(0, LONGEST_VALUE as u32, bytes)?;
    if !is_whole(size, first, count) {
        return Err(DecodeError::Bad(BAD_BODY_LENGTH));
    }
    read_value(alloc, count, rest)
}

/// The number of four bytes that ends a body of `size` bytes, which has to have `all`, and the bytes after it.
#[tactic(auto, unfolding(crate::specs::Texts::read_last_number))]
pub fn read_last_u32(all: u32, size: u32, bytes: &[u8]) -> Result<(u32, &[u8]), DecodeError>
    ensures { Gives (λ x. (x.0, x.1.now)) result (read_last_number w32 all size bytes.now) }
{
    if size != all {
        return Err(DecodeError::Bad(BAD_BODY_LENGTH));
    }
    read_u32(bytes)
}

/// The number of eight bytes that ends a body of `size` bytes, which has to have `all`, and the bytes after it.
#[tactic(auto, unfolding(crate::specs::Texts::read_last_number))]
pub fn read_last_u64(all: u32, size: u32, bytes: &[u8]) -> Result<(u64, &[u8]), DecodeError>
    ensures { Gives (λ x. (x.0, x.1.now)) result (read_last_number w64 all size bytes.now) }
{
    if size != all {
        return Err(DecodeError::Bad(BAD_BODY_LENGTH));
    }
    read_u64(bytes)
}
