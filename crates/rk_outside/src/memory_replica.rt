// A replica in memory.
ghost use Rattle.std.specs.Prelude.{◌≡◌, ◌+◌, ◌≤◌, ◌++◌, Some, Ok, false, length, take, is_some, IfOk, OnErr, refl};
ghost use Rattle.rk_outside.specs.Faults.{Rose, one_more};
ghost use Rattle.rk_outside.specs.Losses.{HasLossCause};
ghost use Rattle.rk_outside.specs.Segments.{bytes_of, lengths_of, GrowsAtMost, IsSame, Lengthens, Stores};
ghost use Rattle.rk_outside.specs.Replicas.{new_replica, segments_of, IsUnwritten, fails_next, FailsWhere, after_append, after_read};

use crate::replica::{Lost, Replica};
use crate::segment_store::SegmentStore;
use rk_types::SEGMENT_BYTES;
use std::alloc::Global;
use std::marker::Model;

/// A replica that keeps its segments in memory, and fails when a test wants it to. It shows its
/// segments.
#[derive(Drop)]
pub struct MemoryReplica<'a> {
    segments: SegmentStore,
    calls: u64,
    failing: &'a [u64],
    kept: usize,
    faults: u64,
}

impl<'a> Model for MemoryReplica<'a> {
    ghost use Rattle.rk_outside.specs.Replicas.{ReplicaState, replica_state_code};

    ghost Value = { ReplicaState };

    ghost coded = { replica_state_code };

    ghost view = { λ r. record {
      written = r.segments;
      calls = r.calls;
      failing = r.failing.now;
      kept = r.kept;
      faults = r.faults;
    } };
}

// The first bytes, so many, or all if there are fewer.
fn front(bytes: &[u8], count: usize) -> &[u8]
    ensures { result.now ≡ take count bytes.now }
{
    &bytes[..count.min(bytes.len())]
}

impl<'a> MemoryReplica<'a> {
    ghost use Rattle.rk_outside.specs.declared.replica.Lost.TheVariants.{Failed as failed};

    /// A replica to which nothing was written, and no call of which fails.
    pub fn new(alloc: Global) -> MemoryReplica<'a>
        ensures state { result ≡ new_replica }
        ensures unwritten { IsUnwritten (segments_of result) }
    {
        MemoryReplica {
            segments: SegmentStore::new(alloc),
            calls: 0,
            failing: &[],
            kept: 0,
            faults: 0,
        }
    }

    /// The same replica, whose calls of these numbers fail. Appends and reads are counted together,
    /// from 1; a call that finds no memory changes nothing, and is not counted.
    pub fn failing(self, calls: &'a [u64]) -> MemoryReplica<'a>
        ensures { result ≡ record self.entry { failing = calls.now } }
    {
        let mut replica = self;
        replica.failing = calls;
        replica
    }

    /// The same replica, whose failing appends keep so many of their first bytes, or all if they
    /// have fewer.
    pub fn keeping(self, count: usize) -> MemoryReplica<'a>
        ensures { result ≡ record self.entry { kept = count } }
    {
        let mut replica = self;
        replica.kept = count;
        replica
    }

    /// How often it failed.
    pub fn faults(&self) -> u64
        ensures { result ≡ self.now.faults }
    {
        self.faults
    }

    // Whether the next call fails.
    fn will_fail(&self) -> bool
        ensures { result ≡ fails_next self.now }
    {
        self.failing.contains(&self.calls.saturating_add(1))
    }

    // Counts a call that fails, and gives what it answers.
    fn fail(&mut self) -> Lost
        ensures answer { result ≡ failed }
        ensures counted { self.new ≡ record self.old {
          calls = one_more self.old.calls;
          faults = one_more self.old.faults;
        } }
        ensures rose { Rose self.old.faults self.new.faults }
        ensures later { self.old.faults ≤ self.new.faults }
    {
        self.calls = self.calls.saturating_add(1);
        self.faults = self.faults.saturating_add(1);
        Lost::Failed
    }
}

impl Replica for MemoryReplica<'_> {
    ghost lengths = { λ replica. lengths_of (segments_of replica) };

    ghost segments = { λ replica. Some (segments_of replica) };

    ghost faults = { λ replica. replica.faults };

    fn append(
        &mut self,
        alloc: Global,
        master: u8,
        segment: u32,
        at: u32,
        bytes: &[u8],
    ) -> Result<(), Lost>
        requires end { at ≡ lengths_of (segments_of self.old) master segment }
        requires room { at + length bytes.now ≤ SEGMENT_BYTES }
        ensures lengths { Lengthens result master segment (length bytes.now)
            (lengths_of (segments_of self.old)) (lengths_of (segments_of self.new)) }
        ensures segments { Stores result master segment bytes.now
            (segments_of self.old) (segments_of self.new) }
        ensures cause { HasLossCause self.old.faults self.new.faults result }

        // It fails exactly at the calls of its list, and then keeps as much as it may.
        ensures fails { FailsWhere (fails_next self.old) result }
        ensures after { self.new ≡ after_append result master segment bytes.now self.old }
    {
        if !self.will_fail() {
            self.segments.add(alloc, master, segment, bytes)?;
            self.calls = self.calls.saturating_add(1);
            return Ok(());
        }
        let kept = front(bytes, self.kept);
        if kept.is_empty() {
            return Err(self.fail());
        }
        self.segments.add(alloc, master, segment, kept)?;
        Err(self.fail())
    }

    fn read(
        &mut self,
        _alloc: Global,
        master: u8,
        segment: u32,
        into: &mut Vec<u8>,
    ) -> Result<bool, Lost>
        ensures grown { IfOk result (λ _. GrowsAtMost into.old.items into.new.items SEGMENT_BYTES) }
        ensures stored { IfOk result (λ _. into.new.items
            ≡ into.old.items ++ bytes_of (segments_of self.old master segment)) }
        ensures written { IfOk result (λ was_written. was_written
            ≡ is_some (segments_of self.old master segment)) }
        ensures absent { result ≡ Ok false → into.new.items ≡ into.old.items }
        ensures refused { OnErr result (into.new.items ≡ into.old.items) }
        ensures lengths { IsSame (lengths_of (segments_of self.old)) (lengths_of (segments_of self.new)) }
        ensures segments { IsSame (segments_of self.old) (segments_of self.new) }
        ensures cause { HasLossCause self.old.faults self.new.faults result }

        // It fails exactly at the calls of its list, and changes its counts alone.
        ensures fails { FailsWhere (fails_next self.old) result }
        ensures after { self.new ≡ after_read result self.old }
    {
        if self.will_fail() {
            return Err(self.fail());
        }
        let Some(bytes) = self.segments.get(master, segment) else {
            self.calls = self.calls.saturating_add(1);
            return Ok(false);
        };
        into.extend_from_slice(bytes)?;
        self.calls = self.calls.saturating_add(1);
        Ok(true)
    }

    fn length(&self, master: u8, segment: u32) -> u32 {
        match self.segments.get(master, segment) {
            None => 0,
            Some(bytes) => bytes.len() as u32,
        }
    }

    ghost agrees = { λ _ _ _. refl };
}
