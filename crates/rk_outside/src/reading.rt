// Reads a whole input.
ghost use Rattle.std.specs.Prelude.{◌≡◌, ◌+◌, ◌<◌, ◌≤◌, length, IfOk, IfSome, OnOk, IsErrOf, vec_len};
ghost use Rattle.std.specs.Io.KnownBytes.{Consumes, IsAtEnd};
ghost use Rattle.rk_outside.specs.Faults.{Rose};
ghost use Rattle.rk_outside.specs.Parts.{ConsumesBetween};
ghost use Rattle.rk_outside.specs.declared.reading.ReadError.TheVariants.{Failed as failed, NoMemory as no_memory};

use crate::fault::Failed;
use crate::source::Source;
use std::alloc::{AllocError, Global};
use thiserror::Error;

/// The most bytes that one call of a source is asked for.
pub const PIECE: usize = 65_536;

/// Why an input was not read to its end.
#[derive(Clone, Copy, Debug, PartialEq, Eq, Error)]
pub enum ReadError {
    /// It is longer than the limit.
    #[error("the input is too long")]
    TooLong,
    /// The source failed. Its count of faults rose in the call that answers this.
    #[error("the source failed")]
    Failed,
    /// Memory was wanting.
    #[error("out of memory")]
    NoMemory,
}

impl From<Failed> for ReadError {
    ghost from_gives = { λ _ e. e ≡ failed };

    fn from(_: Failed) -> ReadError {
        ReadError::Failed
    }
}

impl From<AllocError> for ReadError {
    ghost from_gives = { λ _ e. e ≡ no_memory };

    fn from(_: AllocError) -> ReadError {
        ReadError::NoMemory
    }
}

// So many zeros, for a source to write over.
fn zeros(alloc: Global, count: usize) -> Result<Vec<u8>, AllocError>
    ensures { IfOk result (λ zeros. vec_len zeros ≡ count) }
{
    vec![in alloc; 0; count]
}

/// Reads all that the source has left, which is to be at most `limit` bytes, in pieces of at most
/// `PIECE` bytes. `TooLong` comes if more than `limit` bytes came: reading stops there, so that never
/// more than `limit` bytes and one piece are held. `Failed` comes only if the source's count of
/// faults rose, and otherwise the count stays; `NoMemory` comes for want of memory. After a refusal
/// the bytes that were read are gone.
pub fn read_all<S: Source>(
    alloc: Global,
    limit: usize,
    source: &mut S,
) -> Result<Vec<u8>, ReadError>
    // At `Ok` all is read.
    ensures bytes { IfOk result (λ bytes. IfSome (S.left source.old) (λ all. bytes.items ≡ all)) }
    ensures within { IfOk result (λ bytes. vec_len bytes ≤ limit) }
    ensures end { OnOk result (IsAtEnd (S.left source.new)) }

    // When a refusal comes.
    ensures too_long { IsErrOf result ReadError.TooLong
        → IfSome (S.left source.old) (λ all. limit < length all) }
    ensures failed { IsErrOf result ReadError.Failed
        → Rose (S.faults source.old) (S.faults source.new) }
    ensures later { S.faults source.old ≤ S.faults source.new }
    ensures kept { (IsErrOf result ReadError.Failed → ⊥) → S.faults source.new ≡ S.faults source.old }

    // What is gone from the source.
    ensures consumed { IfOk result (λ bytes.
        Consumes (S.left source.old) (S.left source.new) bytes.items) }
    ensures stopped { IsErrOf result ReadError.TooLong
        → ConsumesBetween (S.left source.old) (S.left source.new) (limit + 1) (limit + PIECE) }
    ensures front { ConsumesBetween (S.left source.old) (S.left source.new) 0 (limit + PIECE) }
{
    let mut buffer = zeros(alloc, PIECE)?;
    let piece = buffer.as_mut_slice();
    let mut bytes = Vec::new(alloc);
    'pieces: while bytes.len() <= limit {
        let count = source.next(piece)?;
        if count == 0 {
            return Ok(bytes);
        }
        bytes.extend_from_slice(&piece[..count])?;
    }
    Err(ReadError::TooLong)
}
