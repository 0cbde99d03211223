ghost use Rattle.std.specs.Prelude.{◌≡◌, length};
ghost use Rattle.std.specs.Int.{w8, w16, w32, w64};
ghost use Rattle.rk_entry.specs.Steps.{Gives};
ghost use Rattle.rk_entry.specs.Numbers.{number_bytes, read_number, read_from, HasRoom, Gains};

use crate::error::{BAD_NUMBER, DecodeError};
use byteorder::{BigEndian, ByteOrder};

/// A number of one byte, and the bytes after it.
#[tactic(auto, unfolding(crate::specs::Numbers::read_number))]
pub fn read_u8(bytes: &[u8]) -> Result<(u8, &[u8]), DecodeError>
    ensures { Gives (λ x. (x.0, x.1.now)) result (read_number w8 bytes.now) }
{
    match bytes {
        [] => Err(DecodeError::Cut),
        [number, rest @ ..] => Ok((*number, rest)),
    }
}

/// A number of two bytes, and the bytes after it.
#[tactic(auto, unfolding(crate::specs::Numbers::read_number))]
pub fn read_u16(bytes: &[u8]) -> Result<(u16, &[u8]), DecodeError>
    ensures { Gives (λ x. (x.0, x.1.now)) result (read_number w16 bytes.now) }
{
    if bytes.len() < 2 {
        return Err(DecodeError::Cut);
    }
    let (front, rest) = bytes.split_at(2);
    Ok((u16::from_be_bytes([front[0], front[1]]), rest))
}

/// A number of four bytes, and the bytes after it.
#[tactic(auto, unfolding(crate::specs::Numbers::read_number))]
pub fn read_u32(bytes: &[u8]) -> Result<(u32, &[u8]), DecodeError>
    ensures { Gives (λ x. (x.0, x.1.now)) result (read_number w32 bytes.now) }
{
    if bytes.len() < 4 {
        return Err(DecodeError::Cut);
    }
    let (front, rest) = bytes.split_at(4);
    let number = u32::from_be_bytes([front[0], front[1], front[2], front[3]]);
    Ok((number, rest))
}

/// A number of eight bytes, and the bytes after it.
#[tactic(auto, unfolding(crate::specs::Numbers::read_number))]
pub fn read_u64(bytes: &[u8]) -> Result<(u64, &[u8]), DecodeError>
    ensures { Gives (λ x. (x.0, x.1.now)) result (read_number w64 bytes.now) }
{
    if bytes.len() < 8 {
        return Err(DecodeError::Cut);
    }
    let (front, rest) = bytes.split_at(8);
    let number = u64::from_be_bytes([
        front[0], front[1], front[2], front[3], front[4], front[5], front[6], front[7],
    ]);
    Ok((number, rest))
}

/// A number of four bytes that is at least `least`, and the bytes after it. A smaller one is `Bad(BAD_NUMBER)`.
#[tactic(auto, unfolding(crate::specs::Numbers::read_from))]
pub fn read_u32_from(least: u32, bytes: &[u8]) -> Result<(u32, &[u8]), DecodeError>
    ensures { Gives (λ x. (x.0, x.1.now)) result (read_from w32 least bytes.now) }
{
    let (number, rest) = read_u32(bytes)?;
    if number < least {
        return Err(DecodeError::Bad(BAD_NUMBER));
    }
    Ok((number, rest))
}

/// A number of eight bytes that is at least `least`, and the bytes after it. A smaller one is `Bad(BAD_NUMBER)`.
#[tactic(auto, unfolding(crate::specs::Numbers::read_from))]
pub fn read_u64_from(least: u64, bytes: &[u8]) -> Result<(u64, &[u8]), DecodeError>
    ensures { Gives (λ x. (x.0, x.1.now)) result (read_from w64 least bytes.now) }
{
    let (number, rest) = read_u64(bytes)?;
    if number < least {
        return Err(DecodeError::Bad(BAD_NUMBER));
    }
    Ok((number, rest))
}

/// Puts the one byte of a number at the end.
#[tactic(auto, unfolding(crate::specs::Numbers::number_bytes))]
pub fn put_u8(into: &mut Vec<u8>, number: u8)
    requires { HasRoom into.old 1 }
    ensures { Gains into.old into.new (number_bytes w8 number) 1 }
{
    into.push(number).unwrap();
}

/// Puts the two bytes of a number at the end.
#[tactic(auto, unfolding(crate::specs::Numbers::number_bytes))]
pub fn put_u16(into: &mut Vec<u8>, number: u16)
    requires { HasRoom into.old 2 }
    ensures { Gains into.old into.new (number_bytes w16 number) 2 }
{
    let mut bytes = [0; 2];
    BigEndian::write_u16(&mut bytes, number);
    into.extend_from_slice(&bytes).unwrap();
}

/// Puts the four bytes of a number at the end.
#[tactic(auto, unfolding(crate::specs::Numbers::number_bytes))]
pub fn put_u32(into: &mut Vec<u8>, number: u32)
    requires { HasRoom into.old 4 }
    ensures { Gains into.old into.new (number_bytes w32 number) 4 }
{
    let mut bytes = [0; 4];
    BigEndian::write_u32(&mut bytes, number);
    into.extend_from_slice(&bytes).unwrap();
}

/// Puts the eight bytes of a number at the end.
#[tactic(auto, unfolding(crate::specs::Numbers::number_bytes))]
pub fn put_u64(into: &mut Vec<u8>, number: u64)
    requires { HasRoom into.old 8 }
    ensures { Gains into.old into.new (number_bytes w64 number) 8 }
{
    let mut bytes = [0; 8];
    BigEndian::write_u64(&mut bytes, number);
    into.extend_from_slice(&bytes).unwrap();
}
