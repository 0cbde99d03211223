// Where a backup keeps the segments of the masters.
ghost use Rattle.std.specs.Prelude.{ℕ, ◌≡◌, ◌+◌, ◌≤◌, ◌++◌, List, Option, Ok, false, length, is_some, IfOk, IfSome, OnErr};
ghost use Rattle.rk_outside.specs.declared.replica.Lost.TheVariants.{NoMemory as no_memory};

use rk_types::SEGMENT_BYTES;
use std::alloc::{AllocError, Global};
use thiserror::Error;

/// Why a replica could not do what it was asked.
#[derive(Clone, Copy, Debug, PartialEq, Eq, Error)]
pub enum Lost {
    /// The device failed. The replica's count of faults rose in the call that answers this.
    #[error("the device failed")]
    Failed,
    /// Memory was wanting. The replica is as it was before the call.
    #[error("out of memory")]
    NoMemory,
}

impl From<AllocError> for Lost {
    ghost from_gives = { λ _ lost. lost ≡ no_memory };

    fn from(_: AllocError) -> Lost {
        Lost::NoMemory
    }
}

/// Segments of bytes, by the number of a master and of a segment, which grow at their end alone. A
/// replica always shows the lengths of its segments, it may show their bytes, and it counts its
/// faults.
pub trait Replica {
    ghost use Rattle.rk_outside.specs.Losses.{HasLossCause};
    ghost use Rattle.rk_outside.specs.Segments.{Segments, Lengths, bytes_of, lengths_of, WhereTold, IsSame, Stores, Lengthens, GrowsAtMost};

    /// The length in bytes of each segment, by master and number; 0 if it was never written.
    ghost lengths: { Self → Lengths };

    /// The bytes of each segment, or `None` if the replica does not show them.
    ghost segments: { Self → Option Segments };

    /// How often it failed so far. It never falls, and stops at 2^64 - 1.
    ghost faults: { Self → ℕ };

    /// Adds `bytes` at the end of the segment. `at` is its length, and with them it may have at most
    /// `SEGMENT_BYTES` bytes. After `Failed` some first part of them was added, maybe none, and the
    /// count of faults rose; after `NoMemory` none was. No other segment changes, and else the count stays.
    fn append(
        &mut self,
        alloc: Global,
        master: u8,
        segment: u32,
        at: u32,
        bytes: &[u8],
    ) -> Result<(), Lost>
        requires end { at ≡ lengths self.old master segment }
        requires room { at + length bytes.now ≤ SEGMENT_BYTES }
        ensures lengths { Lengthens result master segment (length bytes.now)
            (lengths self.old) (lengths self.new) }
        ensures segments { WhereTold (Stores result master segment bytes.now)
            (segments self.old) (segments self.new) }
        ensures cause { HasLossCause (faults self.old) (faults self.new) result };

    /// Appends the bytes of the segment to `into`, at most `SEGMENT_BYTES`, and answers whether it was
    /// ever written. No segment changes. After a refusal `into` is as it was; `Failed` comes only
    /// if the count of faults rose, and otherwise it stays.
    fn read(
        &mut self,
        alloc: Global,
        master: u8,
        segment: u32,
        into: &mut Vec<u8>,
    ) -> Result<bool, Lost>
        ensures grown { IfOk result (λ _. GrowsAtMost into.old.items into.new.items SEGMENT_BYTES) }
        ensures stored { IfOk result (λ _. IfSome (segments self.old) (λ told.
            into.new.items ≡ into.old.items ++ bytes_of (told master segment))) }
        ensures written { IfOk result (λ was_written. IfSome (segments self.old) (λ told.
            was_written ≡ is_some (told master segment))) }
        ensures absent { result ≡ Ok false → into.new.items ≡ into.old.items }
        ensures refused { OnErr result (into.new.items ≡ into.old.items) }
        ensures lengths { IsSame (lengths self.old) (lengths self.new) }
        ensures segments { WhereTold IsSame (segments self.old) (segments self.new) }
        ensures cause { HasLossCause (faults self.old) (faults self.new) result };

    /// The length of the segment in bytes, at most `SEGMENT_BYTES`; 0 if it was never written. It
    /// takes no memory.
    fn length(&self, master: u8, segment: u32) -> u32
        ensures value { result ≡ lengths self.now master segment }
        ensures most { result ≤ SEGMENT_BYTES };

    /// If the bytes are shown, the lengths are theirs.
    ghost agrees: { (replica : Self) (master segment : ℕ) → IfSome (segments replica) (λ told.
        lengths replica master segment ≡ lengths_of told master segment) };
}
