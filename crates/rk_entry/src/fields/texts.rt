ghost use Rattle.std.specs.Prelude.{◌≡◌, ◌+◌, ◌≤◌, length, IfOk};
ghost use Rattle.rk_entry.specs.Steps.{Gives};
ghost use Rattle.rk_entry.specs.Numbers.{HasRoom, Gains};
ghost use Rattle.rk_entry.specs.Texts.{key_bytes, value_bytes, read_key_length, read_key, read_value_length, read_value};

use crate::error::{BAD_KEY, BAD_VALUE, DecodeError};
use crate::fields::numbers::{put_u8, put_u32, read_u8, read_u32};
use rk_types::{Key, LONGEST_KEY, TextError, Value};
use std::alloc::Global;

/// The length of a key, of one byte, and the bytes after it. A length that no key has is `Bad(BAD_KEY)`.
#[tactic(auto, unfolding(crate::specs::Texts::read_key_length))]
pub fn read_key_length(bytes: &[u8]) -> Result<(u8, &[u8]), DecodeError>
    ensures { Gives (λ x. (x.0, x.1.now)) result (read_key_length bytes.now) }
{
    let (count, rest) = read_u8(bytes)?;
    if count == 0 || count as usize > LONGEST_KEY {
        return Err(DecodeError::Bad(BAD_KEY));
    }
    Ok((count, rest))
}

/// A key of `count` bytes, and the bytes after it. Bytes that are no key are `Bad(BAD_KEY)`.
#[tactic(auto, unfolding(crate::specs::Texts::read_key))]
pub fn read_key(alloc: Global, count: u8, bytes: &[u8]) -> Result<(Key, &[u8]), DecodeError>
    ensures { Gives (λ x. (x.0, x.1.now)) result (read_key count bytes.now) }
{
    if bytes.len() < count as usize {
        return Err(DecodeError::Cut);
    }
    let (front, rest) = bytes.split_at(count as usize);
    match Key::new(alloc, front) {
        Ok(key) => Ok((key, rest)),
        Err(TextError::NoMemory) => Err(DecodeError::NoMemory),
        Err(_) => Err(DecodeError::Bad(BAD_KEY)),
    }
}

/// The length of a value, of four bytes, and the bytes after it. One below `shortest` or above `longest` is
/// `Bad(BAD_VALUE)`.
#[tactic(auto, unfolding(crate::specs::Texts::read_value_length))]
pub fn read_value_length(
    shortest: u32,
    longest: u32,
    bytes: &[u8],
) -> Result<(u32, &[u8]), DecodeError>
    ensures given { Gives (λ x. (x.0, x.1.now)) result (read_value_length shortest longest bytes.now) }
    ensures within { IfOk result (λ x. (shortest ≤ x.0) × (x.0 ≤ longest)) }
{
    let (count, rest) = read_u32(bytes)?;
    if count < shortest || count > longest {
        return Err(DecodeError::Bad(BAD_VALUE));
    }
    Ok((count, rest))
}

/// A value of `count` bytes, and the bytes after it. Bytes that are no value are `Bad(BAD_VALUE)`.
#[tactic(auto, unfolding(crate::specs::Texts::read_value))]
pub fn read_value(alloc: Global, count: u32, bytes: &[u8]) -> Result<(Value, &[u8]), DecodeError>
    ensures { Gives (λ x. (x.0, x.1.now)) result (read_value count bytes.now) }
{
    if bytes.len() < count as usize {
        return Err(DecodeError::Cut);
    }
    let (front, rest) = bytes.split_at(count as usize);
    match Value::new(alloc, front) {
        Ok(value) => Ok((value, rest)),
        Err(TextError::NoMemory) => Err(DecodeError::NoMemory),
        Err(_) => Err(DecodeError::Bad(BAD_VALUE)),
    }
}

/// Puts a key after its length at the end.
#[tactic(auto, unfolding(crate::specs::Texts::key_bytes))]
pub fn put_key(into: &mut Vec<u8>, key: &Key)
    requires { HasRoom into.old (1 + length key.now) }
    ensures { Gains into.old into.new (key_bytes key.now) (1 + length key.now) }
{
    let bytes = key.bytes();
    put_u8(into, bytes.len() as u8);
    into.extend_from_slice(bytes).unwrap();
}

/// Puts a value after its length at the end.
#[tactic(auto, unfolding(crate::specs::Texts::value_bytes))]
pub fn put_value(into: &mut Vec<u8>, value: &Value)
    requires { HasRoom into.old (4 + length value.now) }
    ensures { Gains into.old into.new (value_bytes value.now) (4 + length value.now) }
{
    let bytes = value.bytes();
    put_u32(into, bytes.len() as u32);
    into.extend_from_slice(bytes).unwrap();
}
