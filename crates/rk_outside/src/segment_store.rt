// Segments in memory.
ghost use Rattle.std.specs.Prelude.{◌≡◌, ◌+◌, ◌≤◌, ◌++◌, length, IfOk, IfSome, OnOk, OnErr};
ghost use Rattle.std.specs.Option.{option_map};
ghost use Rattle.std.specs.FinMap.{empty, get};
ghost use Rattle.rk_outside.specs.Replicas.{with_appended};
ghost use Rattle.rk_outside.specs.Segments.{bytes_of};

use rk_types::SEGMENT_BYTES;
use std::alloc::{AllocError, Global};
use std::collections::BTreeMap;
use std::marker::Model;

// The bytes of one segment, which is never longer than a segment may be.
#[derive(Drop)]
struct Stored {
    bytes: Vec<u8>,
}

impl Model for Stored {
    ghost use Rattle.std.specs.Prelude.{ℕ, List, ◌≤◌, length};
    ghost use Rattle.rk_types.specs.declared.held.TheConstants.{SEGMENT_BYTES};

    ghost Value = { List ℕ };

    ghost view = { λ s. s.bytes.items };

    ghost invariant = { λ s. length s.bytes.items ≤ SEGMENT_BYTES };
}

impl Stored {
    fn new(alloc: Global, bytes: &[u8]) -> Result<Stored, AllocError>
        requires { length bytes.now ≤ SEGMENT_BYTES }
        ensures { IfOk result (λ stored. stored ≡ bytes.now) }
    {
        let bytes = Vec::from_slice(alloc, bytes)?;
        Ok(Stored { bytes })
    }

    fn add(&mut self, bytes: &[u8]) -> Result<(), AllocError>
        requires { length self.old + length bytes.now ≤ SEGMENT_BYTES }
        ensures ok { OnOk result (self.new ≡ self.old ++ bytes.now) }
        ensures err { OnErr result (self.new ≡ self.old) }
    {
        self.bytes.extend_from_slice(bytes)
    }

    fn bytes(&self) -> &[u8]
        ensures value { result.now ≡ self.now }
        ensures most { length result.now ≤ SEGMENT_BYTES }
    {
        self.bytes.as_slice()
    }
}

/// Segments by the number of a master and of a segment, of which contracts see the finite map.
#[derive(Drop)]
pub(crate) struct SegmentStore {
    segments: BTreeMap<(u8, u32), Stored>,
}

impl Model for SegmentStore {
    ghost use Rattle.rk_outside.specs.Replicas.{SegmentMap, segment_map_code, segments_in};

    ghost Value = { SegmentMap };

    ghost coded = { segment_map_code };

    ghost view = { λ store. segments_in store.segments };
}

impl SegmentStore {
    /// No segment was ever written.
    pub(crate) fn new(alloc: Global) -> SegmentStore
        ensures { result ≡ empty }
    {
        SegmentStore {
            segments: BTreeMap::new(alloc),
        }
    }

    /// The bytes of a segment; None if it was never written.
    pub(crate) fn get(&self, master: u8, segment: u32) -> Option<&[u8]>
        ensures value { option_map (λ bytes. bytes.now) result ≡ get self.now (master, segment) }
        ensures most { IfSome result (λ bytes. length bytes.now ≤ SEGMENT_BYTES) }
    {
        match self.segments.get(&(master, segment)) {
            None => None,
            Some(stored) => Some(stored.bytes()),
        }
    }

    /// Adds the bytes at the end of the segment, which is written from then on.
    pub(crate) fn add(
        &mut self,
        alloc: Global,
        master: u8,
        segment: u32,
        bytes: &[u8],
    ) -> Result<(), AllocError>
        requires { length (bytes_of (get self.old (master, segment))) + length bytes.now ≤ SEGMENT_BYTES }
        ensures ok { OnOk result (self.new ≡ with_appended self.old master segment bytes.now) }
        ensures err { OnErr result (self.new ≡ self.old) }
    {
        if let Some(stored) = self.segments.get_mut(&(master, segment)) {
            return stored.add(bytes);
        }
        let stored = Stored::new(alloc, bytes)?;
        self.segments.insert((master, segment), stored)?;
        Ok(())
    }
}
