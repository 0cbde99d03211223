ghost use Rattle.std.specs.Prelude.{◌≡◌, ℕ, ◌+◌, ◌-◌, OnOk, OnErr};
ghost use Rattle.rk_staged.specs.Counts.{counted, one_at};

use rk_types::NoMemory;
use std::alloc::Global;
use std::collections::BTreeMap;

/// How many calls there are of each client and seq.
#[derive(Drop)]
pub(crate) struct CallCounts {
    counts: BTreeMap<(u32, u64), u64>,
}

impl CallCounts {
    /// No calls.
    pub(crate) fn new(alloc: Global) -> CallCounts
        ensures { (client seq : ℕ) → counted result client seq ≡ 0 }
    {
        CallCounts {
            counts: BTreeMap::new(alloc),
        }
    }

    /// How many calls there are of this client and seq. One search.
    pub(crate) fn count(&self, client: u32, seq: u64) -> u64
        ensures { result ≡ counted self.now client seq }
    {
        match self.counts.get(&(client, seq)) {
            Some(count) => *count,
            None => 0,
        }
    }

    /// Counts one more call of this client and seq. After `NoMemory` nothing has changed.
    pub(crate) fn add(&mut self, client: u32, seq: u64) -> Result<(), NoMemory>
        ensures ok { OnOk result ((other asked : ℕ)
            → counted self.new other asked ≡ counted self.old other asked + one_at client seq other asked) }
        ensures err { OnErr result ((other asked : ℕ) → counted self.new other asked ≡ counted self.old other asked) }
    {
        let count = self.count(client, seq);
        if count == u64::MAX {
            return Err(NoMemory);
        }
        self.counts.insert((client, seq), count + 1)?;
        Ok(())
    }

    /// Counts one call less of this client and seq.
    pub(crate) fn subtract(&mut self, client: u32, seq: u64)
        ensures { (other asked : ℕ)
            → counted self.new other asked ≡ counted self.old other asked - one_at client seq other asked }
    {
        let count = self.count(client, seq);
        if count <= 1 {
            self.counts.remove(&(client, seq));
            return;
        }
        if let Some(there) = self.counts.get_mut(&(client, seq)) {
            *there = count - 1;
        }
    }
}
