// What a target's tablet does while it pulls.
ghost use Rattle.std.specs.Prelude.{◌≡◌, ◌%◌, ◌<◌, [], length, slice_index_or, Some, OnOk};
ghost use Rattle.std.specs.List.{All};
ghost use Rattle.rk_entry.specs.Lawful.{IsLawfulHeld};
ghost use Rattle.rk_priority.specs.Hashes.{is_batch};
ghost use Rattle.rk_side_log.specs.Replayed.{side_replayed};
ghost use Rattle.rk_bucket_table.specs.Tables.{items_of as records_of};
ghost use Rattle.rk_transfer.specs.Handover.{joined};
ghost use Rattle.rk_world.specs.RoleTests.{is_receiving_at as is_receiving_at_lem};
ghost use Rattle.rk_world.specs.Tablet.{with_handover};
ghost use Rattle.rk_tablet.specs.Tablets.{tablet_of};
ghost use Rattle.rk_tablet.specs.Pulls.{awaits as awaits_lem, with_resolved, with_sealed, with_side, with_token};

use crate::choice::is_receiving;
use crate::tablet_lane::TabletLane;
use rk_bucket_table::BucketTable;
use rk_message::Pulled;
use rk_side_log::WORKERS;
use rk_transfer::Role;
use rk_types::{Held, Listed, NoMemory, Token};

// The side logs of a tablet with so many bytes take no more items.
const MOST_SIDE_BYTES: u64 = 1 << 62;

// So many items are too many for one batch.
const MOST_ITEMS: usize = 1 << 32;

impl TabletLane {
    /// Whether the tablet pulls at this term.
    pub fn is_receiving_at(&self, term: u64) -> bool
        ensures { result ≡ is_receiving_at_lem (tablet_of self.now) term }
    {
        is_receiving(self.handover.role) && self.handover.term == term
    }

    /// Whether the tablet pulls at the term of a batch, and awaits that one.
    pub fn awaits(&self, pulled: &Pulled) -> bool
        ensures { result ≡ awaits_lem (tablet_of self.now) pulled.now }
    {
        self.is_receiving_at(pulled.tenure.term) && self.progress.awaits(&pulled.token)
    }

    /// The worker whose turn it is.
    pub fn worker(&self) -> u8
        ensures worker { result ≡ self.now.batches % 4 }
        ensures within { result < WORKERS }
    {
        (self.batches % 4) as u8
    }

    /// Replays items by a worker, one after the other: an item newer than what the records have of its key goes into the
    /// records and to the worker's items, and any other nowhere. `NoMemory` too for 2^32 items, or if the side logs have
    /// 2^62 bytes. A search of the records for each item, and the time to spell it.
    pub fn replay(
        &mut self,
        records: &mut BucketTable,
        worker: u8,
        items: Vec<Held>,
    ) -> Result<(), NoMemory>
        requires worker { worker < WORKERS }
        requires lawful { All IsLawfulHeld items.items }
        ensures records { OnOk result (records_of records.new
            ≡ (side_replayed (records_of records.old) (slice_index_or self.old.sides worker []) items.items).records) }
        ensures tablet { OnOk result (tablet_of self.new ≡ with_side (tablet_of self.old) worker
            (side_replayed (records_of records.old) (slice_index_or self.old.sides worker []) items.items).items) }
        ensures workers { OnOk result (worker < length self.old.sides) }
    {
        if items.len() >= MOST_ITEMS || self.sides.bytes() >= MOST_SIDE_BYTES {
            return Err(NoMemory);
        }
        self.sides.replay(worker, items, records)?;
        Ok(())
    }

    /// The token moves on behind one more batch. `NoMemory` if the batches are not counted any further.
    pub fn pass(&mut self, next: Token) -> Result<(), NoMemory>
        ensures { OnOk result (tablet_of self.new ≡ with_token (tablet_of self.old) next) }
    {
        self.batches = self.batches.checked_add(1).ok_or(NoMemory)?;
        self.progress.pass(next);
        Ok(())
    }

    /// Takes note that the items with these hashes have come, and answers whether the hashes are those that were asked for.
    /// Else nothing has changed. A step for each of them.
    pub fn resolve(&mut self, hashes: &[u64]) -> bool
        ensures answer { result ≡ is_batch (tablet_of self.old).pulling.hashes.outstanding hashes.now }
        ensures tablet { tablet_of self.new ≡ with_resolved (tablet_of self.old) hashes.now }
    {
        self.wanted.got(hashes)
    }

    /// The side logs, of which no items are left, became side segments of these numbers, and the hashes that were wanted
    /// are forgotten.
    pub fn note_sealed(&mut self, sealed: Listed<u32>)
        ensures { tablet_of self.new ≡ with_sealed (tablet_of self.old) self.old.sides sealed }
    {
        self.wanted.clear();
        self.sealed = sealed;
    }

    /// A target that pulled has all: its closing entry is at this place, or is not in the log yet.
    pub fn end_pull(&mut self, entry: Option<u64>)
        requires { self.old.handover.role ≡ Role.Receiving }
        ensures handover { self.new.handover ≡ (record self.old.handover { role = Role.Joining entry }) }
        ensures moved { joined self.old.handover self.old.handover.term entry ≡ Some self.new.handover }
        ensures tablet { tablet_of self.new ≡ with_handover (tablet_of self.old) self.new.handover }
    {
        let term = self.handover.term;
        let _ = self.handover.join(term, entry);
    }
}
