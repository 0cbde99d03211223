use crate::agree::agrees_with_stored;
use rk_outside::{Lost, Replica};
use rk_types::SEGMENT_BYTES;
use std::alloc::Global;

/// One lane of a backup, with its replica.
#[derive(Drop)]
pub struct BackupLane<R> {
    number: u8,
    replica: R,
}

impl<R: Replica> BackupLane<R> {
    ghost use Rattle.std.specs.Prelude.{◌≡◌, ◌+◌, ◌<◌, ◌≤◌, length, Ok, IfOk, IfSome};
    ghost use Rattle.std.specs.Option.{option_map};
    ghost use Rattle.rk_outside.specs.Losses.{HasLossCause};
    ghost use Rattle.rk_outside.specs.Segments.{IsSame, WhereTold};
    ghost use Rattle.rk_backup.specs.Accepts.{Accepts, Grows};
    ghost use Rattle.rk_backup.specs.Lane.{number_of, replica_of};

    /// The lane of the backup of this number, 1 to 4, with what its replica holds.
    pub fn new(number: u8, replica: R) -> BackupLane<R>
        ensures number { number_of result ≡ number }
        ensures replica { replica_of result ≡ replica }
    {
        BackupLane { number, replica }
    }

    /// The number of the backup.
    pub fn number(&self) -> u8
        ensures { result ≡ number_of self.now }
    {
        self.number
    }

    /// Takes bytes that begin at the byte `at` of a segment, and answers how many bytes the segment has then. They are
    /// accepted if `at` is no more than that was before and the bytes agree with the stored ones as far as both go;
    /// what goes past the stored ones is added at their end, and elsewhere nothing changes. After `Failed` some first
    /// part of what is to be added was added, and the count of faults rose; after `NoMemory` nothing was. The replica is
    /// asked for more than a length only if there are bytes that begin within the stored ones or at their end.
    pub fn on_append(
        &mut self,
        alloc: Global,
        master: u8,
        segment: u32,
        at: u32,
        bytes: &[u8],
    ) -> Result<u32, Lost>
        requires { at + length bytes.now ≤ SEGMENT_BYTES }
        ensures length { IfOk result (λ stored. stored ≡ R.lengths (replica_of self.new) master segment) }
        ensures segments { WhereTold (Accepts result master segment at bytes.now)
            (R.segments (replica_of self.old)) (R.segments (replica_of self.new)) }
        ensures lengths { Grows result master segment (at + length bytes.now)
            (R.lengths (replica_of self.old)) (R.lengths (replica_of self.new)) }
        ensures gap { R.lengths (replica_of self.old) master segment < at
            → result ≡ Ok (R.lengths (replica_of self.old) master segment) }
        ensures empty { length bytes.now ≡ 0 → result ≡ Ok (R.lengths (replica_of self.old) master segment) }
        ensures end { R.lengths (replica_of self.old) master segment ≡ at
            → IfOk result (λ stored. stored ≡ at + length bytes.now) }
        ensures number { number_of self.new ≡ number_of self.old }
        ensures cause { HasLossCause (R.faults (replica_of self.old)) (R.faults (replica_of self.new)) result }
    {
        let stored = self.replica.length(master, segment);
        if stored < at {
            return Ok(stored);
        }
        if bytes.is_empty() {
            return Ok(stored);
        }
        if !agrees_with_stored(&mut self.replica, alloc, master, segment, at, bytes)? {
            return Ok(stored);
        }
        let kept = (stored - at) as usize;
        if bytes.len() <= kept {
            return Ok(stored);
        }
        let (_, more) = bytes.split_at(kept);
        self.replica.append(alloc, master, segment, stored, more)?;
        Ok(stored + more.len() as u32)
    }

    /// The bytes of a segment; None if it was never written. No segment changes. `Failed` comes only if the
    /// count of faults rose.
    pub fn on_read(
        &mut self,
        alloc: Global,
        master: u8,
        segment: u32,
    ) -> Result<Option<Vec<u8>>, Lost>
        ensures stored { IfOk result (λ copy. IfSome (R.segments (replica_of self.old)) (λ told.
            option_map (λ bytes. bytes.items) copy ≡ told master segment)) }
        ensures most { IfOk result (λ copy. IfSome copy (λ bytes. length bytes.items ≤ SEGMENT_BYTES)) }
        ensures segments { WhereTold IsSame (R.segments (replica_of self.old)) (R.segments (replica_of self.new)) }
        ensures lengths { IsSame (R.lengths (replica_of self.old)) (R.lengths (replica_of self.new)) }
        ensures number { number_of self.new ≡ number_of self.old }
        ensures cause { HasLossCause (R.faults (replica_of self.old)) (R.faults (replica_of self.new)) result }
    {
        let mut bytes = Vec::new(alloc);
        if self.replica.read(alloc, master, segment, &mut bytes)? {
            return Ok(Some(bytes));
        }
        Ok(None)
    }

    /// The replica.
    pub fn into_replica(self) -> R
        ensures { result ≡ replica_of self }
    {
        self.replica
    }
}
