ghost use Rattle.std.specs.Prelude.{◌≡◌, ◌≢◌, ◌≤◌, not, length, OnOk, OnErr, IfOk, AllPairs};
ghost use Rattle.std.specs.Borrow.{sem};
ghost use Rattle.rk_priority.specs.Hashes.{Hashes, AreApart, no_hashes, contains, is_known, is_waiting as is_waiting_lem, wanting, batched, is_batch, got as got_lem};

use rk_types::NoMemory;
use std::alloc::Global;
use std::marker::Model;

/// The most hashes of a batch.
pub const BATCH_HASHES: usize = 16;

/// The hashes of keys whose records a tablet needs: wanted at first, outstanding once they are in the batch that is
/// asked for, and resolved once their records have come.
#[derive(Drop)]
pub struct Wanted {
    // All of them, the oldest first: those that are resolved, then the batch, then those that are still wanted.
    hashes: Vec<u64>,
    resolved: usize,
    batch: usize,
}

impl Model for Wanted {
    ghost use Rattle.std.specs.Prelude.{◌≢◌, ◌+◌, ◌≤◌, length, take, drop, AllPairs};
    ghost use Rattle.rk_priority.specs.Hashes.{Hashes};
    ghost use Rattle.rk_priority.specs.declared.wanted.TheConstants.{BATCH_HASHES};

    ghost Value = { Hashes };

    ghost view = { λ w. record { resolved = take w.resolved w.hashes.items; outstanding = take w.batch (drop w.resolved w.hashes.items); wanted = drop w.batch (drop w.resolved w.hashes.items) } };

    ghost invariant = { λ w. (w.resolved + w.batch ≤ length w.hashes.items) × (w.batch ≤ BATCH_HASHES) × AllPairs (λ a b. a ≢ b) w.hashes.items };
}

impl Wanted {
    ghost use Rattle.rk_priority.specs.Batches.{EndsAs};

    /// No hashes, which takes no memory.
    pub fn new(alloc: Global) -> Wanted
        ensures { result ≡ no_hashes }
    {
        Wanted {
            hashes: Vec::new(alloc),
            resolved: 0,
            batch: 0,
        }
    }

    /// Hashes of its own that are wanted, outstanding and resolved as these are. A step for each of them.
    pub fn duplicate(&self) -> Result<Wanted, NoMemory>
        ensures { IfOk result (λ wanted. wanted ≡ self.now) }
    {
        let alloc = *self.hashes.allocator();
        Ok(Wanted {
            hashes: Vec::from_slice(alloc, self.hashes.as_slice())?,
            resolved: self.resolved,
            batch: self.batch,
        })
    }

    /// Wants a hash, behind those that are wanted, and answers whether it was new; a hash that is wanted, outstanding or
    /// resolved changes nothing. After `NoMemory` nothing has changed. A step for each of the hashes.
    pub fn want(&mut self, hash: u64) -> Result<bool, NoMemory>
        ensures answer { IfOk result (λ new. new ≡ not (is_known self.old hash)) }
        ensures after { OnOk result (self.new ≡ wanting self.old hash) }
        ensures err { OnErr result (self.new ≡ self.old) }
        ensures apart { AreApart self.new }
    {
        if has(self.hashes.as_slice(), hash) {
            return Ok(false);
        }
        self.hashes.push(hash)?;
        Ok(true)
    }

    /// The batch to ask for: the outstanding one, or if there is none the oldest 16 or fewer of the wanted hashes,
    /// which are outstanding then. Without a wanted hash it is empty.
    pub fn next_batch(&mut self) -> &[u64]
        ensures batch { result.now ≡ (batched self.entry.now).outstanding }
        ensures few { length result.now ≤ BATCH_HASHES }
        ensures* after { sem 𝓛 (EndsAs self.entry (batched self.entry.now)) }
    {
        self.open_batch();
        let (_, rest) = self.hashes.split_at(self.resolved);
        rest.split_at(self.batch).0
    }

    /// Takes note that the records of these hashes have come, and answers whether the hashes are those of the
    /// outstanding batch, in its order, and are not none. Then they are resolved; else nothing has changed.
    pub fn got(&mut self, hashes: &[u64]) -> bool
        ensures answer { result ≡ is_batch self.old.outstanding hashes.now }
        ensures after { self.new ≡ got_lem self.old hashes.now }
        ensures apart { AreApart self.new }
    {
        let (_, rest) = self.hashes.split_at(self.resolved);
        let (batch, _) = rest.split_at(self.batch);
        if batch.is_empty() || batch != hashes {
            return false;
        }
        self.resolved += self.batch;
        self.batch = 0;
        true
    }

    /// Whether the record of this hash has come. A step for each hash that is resolved.
    pub fn resolved(&self, hash: u64) -> bool
        ensures resolved { result ≡ contains self.now.resolved hash }
        ensures apart { AreApart self.now }
    {
        has(self.hashes.split_at(self.resolved).0, hash)
    }

    /// Whether a batch is asked for and has not come, or there is one to ask for. In constant time.
    pub fn is_waiting(&self) -> bool
        ensures { result ≡ is_waiting_lem self.now }
    {
        self.resolved < self.hashes.len()
    }

    /// Forgets all hashes, resolved ones too.
    pub fn clear(&mut self)
        ensures { self.new ≡ no_hashes }
    {
        self.hashes.clear();
        self.resolved = 0;
        self.batch = 0;
    }

    // Makes the oldest wanted hashes the batch, if none is outstanding.
    fn open_batch(&mut self)
        ensures { self.new ≡ batched self.old }
    {
        if self.batch == 0 {
            self.batch = (self.hashes.len() - self.resolved).min(BATCH_HASHES);
        }
    }
}

// Whether the hash is one of these.
fn has(hashes: &[u64], hash: u64) -> bool
    ensures { result ≡ contains hashes.now hash }
{
    hashes.contains(&hash)
}
