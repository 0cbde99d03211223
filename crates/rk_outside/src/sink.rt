// Where output goes, a piece at a time.
ghost use Rattle.std.specs.Prelude.{ℕ, ◌≡◌, ◌<◌, ◌++◌, List, Option, Some, Ok, Err, length, take, unwrap_or, is_err, IfOk, if◌then◌else◌};
ghost use Rattle.std.specs.Result.{result_ok};
ghost use Rattle.std.specs.Io.{WritesAtMost};
ghost use Rattle.std.specs.Io.KnownBytes.{WriteAppends};
ghost use Rattle.rk_outside.specs.Faults.{HasPutCause, one_more};
ghost use Rattle.rk_outside.specs.Memory.{new_sink, fails_next, is_fault, taken_of};

use crate::fault::Failed;
use std::alloc::{AllocError, Global};
use std::marker::Model;

/// Output that is taken in pieces. It may show the bytes that were written, and it counts its
/// faults.
pub trait Sink {
    /// The bytes that were written so far, or `None` if the sink does not show them.
    ghost written: { Self → Option (List ℕ) };

    /// How often it failed so far. It never falls, and stops at 2^64 - 1.
    ghost faults: { Self → ℕ };

    /// Writes the first bytes of `piece`, and answers how many they are. `Failed` comes only if the
    /// count of faults rose in this call, and then nothing was written. So does 0 for a piece that has
    /// bytes. Otherwise the count stays.
    fn put(&mut self, piece: &[u8]) -> Result<usize, Failed>
        ensures within { WritesAtMost result piece.now }
        ensures bytes { WriteAppends (written self.old) (written self.new) result piece.now }
        ensures cause { HasPutCause (faults self.old) (faults self.new) result piece.now };
}

/// A sink in memory, for tests. It shows its bytes, and its memory is taken when it is made.
#[derive(Drop)]
pub struct MemorySink<'a> {
    bytes: Vec<u8>,
    room: usize,
    most: usize,
    calls: u64,
    failing: &'a [u64],
    idle: &'a [u64],
    faults: u64,
}

impl<'a> Model for MemorySink<'a> {
    ghost use Rattle.std.specs.Prelude.{ℕ, ◌<◌};
    ghost use Rattle.rk_outside.specs.Memory.{SinkState, HasRoom};

    ghost Value = { SinkState };

    ghost view = { λ s. record {
      written = s.bytes.items;
      room = s.room;
      most = s.most;
      calls = s.calls;
      failing = s.failing.now;
      idle = s.idle.now;
      faults = s.faults;
    } };

    ghost invariant = { λ s. HasRoom s.bytes s.room × (0 < s.most) };
}

impl<'a> MemorySink<'a> {
    /// A sink that holds nothing, has room for so many bytes, and takes all that it is given and has
    /// room for.
    pub fn new(alloc: Global, room: usize) -> Result<MemorySink<'a>, AllocError>
        ensures { IfOk result (λ sink. sink ≡ new_sink room) }
    {
        let bytes = Vec::with_capacity(alloc, room)?;
        Ok(MemorySink {
            bytes,
            room,
            most: usize::MAX,
            calls: 0,
            failing: &[],
            idle: &[],
            faults: 0,
        })
    }

    /// The same sink, each call of which takes at most so many bytes.
    pub fn at_most(self, most: usize) -> MemorySink<'a>
        requires { 0 < most }
        ensures { result ≡ record self.entry { most = most } }
    {
        let mut sink = self;
        sink.most = most;
        sink
    }

    /// The same sink, whose calls of these numbers fail. Calls are counted from 1.
    pub fn failing(self, calls: &'a [u64]) -> MemorySink<'a>
        ensures { result ≡ record self.entry { failing = calls.now } }
    {
        let mut sink = self;
        sink.failing = calls;
        sink
    }

    /// The same sink, whose calls of these numbers take nothing. Calls are counted from 1.
    pub fn taking_nothing(self, calls: &'a [u64]) -> MemorySink<'a>
        ensures { result ≡ record self.entry { idle = calls.now } }
    {
        let mut sink = self;
        sink.idle = calls;
        sink
    }

    /// The bytes that were written.
    pub fn bytes(&self) -> &[u8]
        ensures { result.now ≡ self.now.written }
    {
        self.bytes.as_slice()
    }

    /// How often it failed, or took nothing of some bytes.
    pub fn faults(&self) -> u64
        ensures { result ≡ self.now.faults }
    {
        self.faults
    }

    // How many of so many bytes the next call takes, if it does not fail.
    fn taken(&self, count: usize) -> usize
        ensures { result ≡ taken_of self.now count }
    {
        if self.idle.contains(&self.calls.saturating_add(1)) {
            return 0;
        }
        (self.room - self.bytes.len()).min(self.most.min(count))
    }
}

impl Sink for MemorySink<'_> {
    ghost written = { λ s. Some s.written };

    ghost faults = { λ s. s.faults };

    fn put(&mut self, piece: &[u8]) -> Result<usize, Failed>
        ensures within { WritesAtMost result piece.now }
        ensures bytes { WriteAppends (Some self.old.written) (Some self.new.written)
            result piece.now }
        ensures cause { HasPutCause self.old.faults self.new.faults result piece.now }

        // It fails exactly at the calls of its list, and else takes as much as it may and has room for.
        ensures fails { is_err result ≡ fails_next self.old }
        ensures count { IfOk result (λ count. count ≡ taken_of self.old (length piece.now)) }
        ensures after { self.new ≡ record self.old {
          written = self.old.written ++ take (unwrap_or (result_ok result) 0) piece.now;
          calls = one_more self.old.calls;
          faults = (if is_fault self.old (length piece.now) then one_more self.old.faults else self.old.faults);
        } }
    {
        let count = self.taken(piece.len());
        self.calls = self.calls.saturating_add(1);
        if self.failing.contains(&self.calls) {
            self.faults = self.faults.saturating_add(1);
            return Err(Failed);
        }
        if count == 0 && !piece.is_empty() {
            self.faults = self.faults.saturating_add(1);
        }
        self.bytes.extend_from_slice(&piece[..count]).unwrap();
        Ok(count)
    }
}
