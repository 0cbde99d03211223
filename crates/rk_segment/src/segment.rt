ghost use Rattle.std.specs.Prelude.{◌≡◌, ◌≤◌, ◌<◌, ◌^◌, [], length, Some, None, IfOk, OnOk, OnErr, MatchResult};

use rk_types::{NoMemory, SEGMENT_BYTES};
use std::alloc::Global;
use std::marker::Model;
use thiserror::Error;

/// Bytes have no room in a segment: it holds `length` bytes, and `more` came to be added.
#[derive(Clone, Copy, Debug, PartialEq, Eq, Error)]
#[error("{more} bytes have no room after the {length} of a segment")]
pub struct Full {
    pub length: u32,
    pub more: u32,
}

/// A segment of a log. Its memory is taken when it is made, for all the bytes that it may hold.
#[derive(Drop)]
pub struct Segment {
    number: u32,
    bytes: Vec<u8>,
}

impl Model for Segment {
    ghost use Rattle.rk_segment.specs.Segment.{NumberedBytes, IsConsistent};

    ghost Value = { NumberedBytes };

    ghost view = { λ segment. record { number = segment.number; bytes = segment.bytes.items } };

    ghost invariant = { λ segment. IsConsistent segment.bytes };
}

impl Segment {
    ghost use Rattle.rk_segment.specs.Segment.{appended, overflow};

    /// The segment with this number and no bytes. It takes memory for [`SEGMENT_BYTES`] at once; `NoMemory` may come in
    /// its place.
    pub fn new(alloc: Global, number: u32) -> Result<Segment, NoMemory>
        ensures { IfOk result (λ segment. segment ≡ record { number = number; bytes = [] }) }
    {
        Ok(Segment {
            number,
            bytes: Vec::with_capacity(alloc, SEGMENT_BYTES as usize)?,
        })
    }

    /// Puts the bytes, fewer than 2^32, at the end, which takes no memory. `Full` comes exactly when the segment would
    /// then have more than [`SEGMENT_BYTES`], and nothing has changed after it.
    pub fn append(&mut self, bytes: &[u8]) -> Result<(), Full>
        requires { length bytes.now < 2 ^ 32 }
        ensures ok { OnOk result (self.new ≡ appended self.old bytes.now) }
        ensures err { OnErr result (self.new ≡ self.old) }
        ensures room { MatchResult result (λ _. overflow self.old bytes.now ≡ None) (λ full. overflow self.old bytes.now ≡ Some full) }
    {
        if self.bytes.len() + bytes.len() > SEGMENT_BYTES as usize {
            return Err(Full {
                length: self.length(),
                more: bytes.len() as u32,
            });
        }
        self.bytes.extend_from_slice(bytes).unwrap();
        Ok(())
    }

    /// The number that the segment was made with.
    pub fn number(&self) -> u32
        ensures { result ≡ self.now.number }
    {
        self.number
    }

    /// How many bytes the segment holds.
    pub fn length(&self) -> u32
        ensures length { result ≡ length self.now.bytes }
        ensures within { result ≤ SEGMENT_BYTES }
    {
        self.bytes.len() as u32
    }

    /// The bytes of the segment, from the first on.
    pub fn bytes(&self) -> &[u8]
        ensures bytes { result.now ≡ self.now.bytes }
        ensures within { length result.now ≤ SEGMENT_BYTES }
    {
        self.bytes.as_slice()
    }
}
