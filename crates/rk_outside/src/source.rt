// Where input comes from, a piece at a time.
ghost use Rattle.std.specs.Prelude.{ℕ, ◌≡◌, ◌↔◌, ◌<◌, min, List, Option, Some, length, drop, unwrap_or, is_err, IsTrue, IsErr, IfOk, if◌then◌else◌};
ghost use Rattle.std.specs.Result.{result_ok};
ghost use Rattle.std.specs.Io.{ReadsAtMost};
ghost use Rattle.std.specs.Io.KnownBytes.{ReadConsumes};
ghost use Rattle.rk_outside.specs.Faults.{HasCause, one_more};
ghost use Rattle.rk_outside.specs.Memory.{new_source, is_listed};

use crate::fault::Failed;
use std::marker::Model;

/// Input that is handed over in pieces. It may show the bytes that are left, and it counts its
/// faults.
pub trait Source {
    /// The bytes that are left to hand over, or `None` if the source does not show them.
    ghost left: { Self → Option (List ℕ) };

    /// How often it failed so far. It never falls, and stops at 2^64 - 1.
    ghost faults: { Self → ℕ };

    /// Hands over the next bytes at the front of `into`, and answers how many they are: 0 at the end
    /// of the input alone. `Failed` comes only if the count of faults rose in this call, and then
    /// nothing was handed over; otherwise the count stays. What `into` holds past the count is free.
    fn next(&mut self, into: &mut [u8]) -> Result<usize, Failed>
        requires { 0 < length into.old }
        ensures within { ReadsAtMost result into.new }
        ensures bytes { ReadConsumes (left self.old) (left self.new) result into.new }
        ensures cause { HasCause (faults self.old) (faults self.new) result };
}

/// A source in memory, for tests. It shows its bytes.
#[derive(Drop)]
pub struct MemorySource<'a> {
    left: &'a [u8],
    most: usize,
    calls: u64,
    failing: &'a [u64],
    faults: u64,
}

impl<'a> Model for MemorySource<'a> {
    ghost use Rattle.std.specs.Prelude.{ℕ, ◌<◌};
    ghost use Rattle.rk_outside.specs.Memory.{SourceState};

    ghost Value = { SourceState };

    ghost view = { λ s. record {
      left = s.left.now;
      most = s.most;
      calls = s.calls;
      failing = s.failing.now;
      faults = s.faults;
    } };

    ghost invariant = { λ s. 0 < s.most };
}

impl<'a> MemorySource<'a> {
    /// A source of these bytes, which hands over as many as are asked for and never fails.
    pub fn new(bytes: &'a [u8]) -> MemorySource<'a>
        ensures { result ≡ new_source bytes.now }
    {
        MemorySource {
            left: bytes,
            most: usize::MAX,
            calls: 0,
            failing: &[],
            faults: 0,
        }
    }

    /// The same source, each call of which hands over at most so many bytes.
    pub fn at_most(self, most: usize) -> MemorySource<'a>
        requires { 0 < most }
        ensures { result ≡ record self.entry { most = most } }
    {
        let mut source = self;
        source.most = most;
        source
    }

    /// The same source, whose calls of these numbers fail. Calls are counted from 1.
    pub fn failing(self, calls: &'a [u64]) -> MemorySource<'a>
        ensures { result ≡ record self.entry { failing = calls.now } }
    {
        let mut source = self;
        source.failing = calls;
        source
    }

    /// How often it failed.
    pub fn faults(&self) -> u64
        ensures { result ≡ self.now.faults }
    {
        self.faults
    }
}

impl Source for MemorySource<'_> {
    ghost left = { λ s. Some s.left };

    ghost faults = { λ s. s.faults };

    fn next(&mut self, into: &mut [u8]) -> Result<usize, Failed>
        requires { 0 < length into.old }
        ensures within { ReadsAtMost result into.new }
        ensures bytes { ReadConsumes (Some self.old.left) (Some self.new.left) result into.new }
        ensures cause { HasCause self.old.faults self.new.faults result }

        // It fails exactly at the calls of its list, and else gives as much as it may.
        ensures fails { IsErr result
            ↔ IsTrue (is_listed self.old.failing (one_more self.old.calls)) }
        ensures count { IfOk result (λ count. count ≡
            min self.old.most (min (length self.old.left) (length into.old))) }
        ensures after { self.new ≡ record self.old {
          left = drop (unwrap_or (result_ok result) 0) self.old.left;
          calls = one_more self.old.calls;
          faults = (if is_err result then one_more self.old.faults else self.old.faults);
        } }
    {
        self.calls = self.calls.saturating_add(1);
        if self.failing.contains(&self.calls) {
            self.faults = self.faults.saturating_add(1);
            return Err(Failed);
        }
        let count = self.most.min(self.left.len().min(into.len()));
        let (given, left) = self.left.split_at(count);
        into[..count].copy_from_slice(given);
        self.left = left;
        Ok(count)
    }
}
