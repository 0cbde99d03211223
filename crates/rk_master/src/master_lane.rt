ghost use Rattle.std.specs.Prelude.{◌≡◌, ◌≤◌, true, false, ◌-◌, ◌^◌, ◌++◌, [], length, min, Some, None, replicate, IfSome, IsSomeAnd, IfOk, OnOk, OnErr};
ghost use Rattle.std.specs.Option.{option_map_or};
ghost use Rattle.rk_log.specs.Cut.{EachFits};
ghost use Rattle.rk_log.specs.Known.{nothing};
ghost use Rattle.rk_log.specs.Log.{bytes_of};
ghost use Rattle.rk_priority.specs.Hashes.{is_waiting as is_waiting_lem};
ghost use Rattle.rk_bucket_table.specs.Tables.{items_of as records_of};
ghost use Rattle.rk_table.specs.Items.{live_in};
ghost use Rattle.rk_world.specs.Master.{is_staged, log_bytes as log_bytes_lem, new_master, staged, tablet_at};
ghost use Rattle.rk_world.specs.MasterStep.{master_step};
ghost use Rattle.rk_world.specs.MasterTurn.{master_turn};
ghost use Rattle.rk_world.specs.Splits.{with_split};
ghost use Rattle.rk_world.specs.Step.{with_added};
ghost use Rattle.rk_world.specs.World.{counters_of, greatest};
ghost use Rattle.rk_master.specs.Taking.{CanTake};

use crate::messages::take_message;
use crate::splits::split;
use crate::state::MasterState;
use crate::sums::{greatest_counter, log_bytes};
use crate::tablets::{handover_of, is_waiting, serve};
use crate::turn::{rests, take_turn};
use crate::work::Worked;
use rk_bucket_table::BucketTable;
use rk_log::{MOST_BACKUPS, MasterLog};
use rk_message::Message;
use rk_table::RecordTable;
use rk_transfer::Role;
use rk_types::{Held, NoMemory, Range};
use std::alloc::Global;
use std::marker::Model;

/// A master in one lane. Contracts see the master that the definitions speak of, or none if it is spent: it ran out
/// of memory within a change, and answers `NoMemory` from then on.
pub struct MasterLane {
    state: MasterState,
    spent: bool,
}

// No derive, so that to drop a master is a call in proofs, and no walk through all that it holds.
impl Drop for MasterLane {
    fn drop(self) {
        let MasterLane { state: _, spent: _ } = self;
    }
}

impl Model for MasterLane {
    ghost use Rattle.std.specs.Prelude.{Option};
    ghost use Rattle.rk_world.specs.Master.{Master};

    ghost Value = { Option Master };

    ghost use Rattle.rk_master.specs.Lane.{lane_of, IsLane};

    ghost view = { lane_of };

    ghost invariant = { IsLane };
}

impl MasterLane {
    ghost use Rattle.rk_master.specs.Lane.{IsWork};

    /// A master that knows nothing yet, with so many backups, which are numbered from 1.
    pub fn new(alloc: Global, number: u8, backups: u8) -> Result<MasterLane, NoMemory>
        requires first { 1 ≤ backups }
        requires last { backups ≤ MOST_BACKUPS }
        ensures { IfOk result (λ lane. lane ≡ Some (new_master number (replicate backups nothing))) }
    {
        Ok(MasterLane {
            state: MasterState::new(alloc, number, backups)?,
            spent: false,
        })
    }

    /// How many backups there are.
    pub fn backups(&self) -> u8
        ensures { IfSome self.now (λ master. result ≡ length master.log.known) }
    {
        self.state.backups
    }

    /// Takes a message, by its sender and its kind, each once more if it comes again; a message for nobody here changes
    /// nothing. It stays with its owner: what the master keeps of it is copied.
    ///
    /// - A client's Request is answered at once, or staged. A look at each tablet, a few searches, and the time to copy the
    ///   key and the value and to spell the entry.
    /// - A backup's Stored reports that it holds so much of a segment; more than the segment has is ignored. What every
    ///   backup holds by then is applied, and what waited for it goes on. A step for each entry that is committed and each
    ///   segment that the backup is now known to hold whole, a few searches for each entry and a look at each tablet if
    ///   a call ends; a step for each staged entry only if a tablet closes.
    /// - The coordinator's orders (Prepare, Close, Grant, Own, Release, Rebuild) apply by a term that is great enough, and
    ///   are answered again if need be. A few binary searches and looks at each tablet; if one applies, a step for each
    ///   staged entry, for each client whose end is reported or granted, or if a range is dropped, for each record and each
    ///   chain of the table.
    /// - Another master's Pull or Want is answered by a tablet that is frozen at its term. A few searches, and a step for
    ///   each item and each chain from the token's bucket to the first live item behind the batch, or for each item in the
    ///   chain of a wanted hash.
    /// - Its Pulled or Got is replayed by a tablet that awaits just that: items that are newer than the records go into
    ///   them and to those of a worker. Behind the last batch all that was pulled becomes side segments. A search of the
    ///   records for each item and the time to copy and spell it, and a step for each segment that is sealed.
    /// - A backup's Copy is gathered by a rebuild that awaits just that; with the last one what was gathered is merged: the
    ///   copies are put at the end of the log, and then the entry that closes the rebuild. A look at each member of the
    ///   lineage, and a step for each entry of the segment, or of the log that it ends; if a rebuild merges, a step for
    ///   each own entry from the place on from which the own log counts and each byte of the side segments that these name,
    ///   what [`rk_rebuild::Gather::merge`] takes, and the time to spell what is appended.
    ///
    /// After `NoMemory` the master is spent; it also comes if no version of a tablet is left, the log is full, an entry
    /// has no room in a segment, there are 2^32 records to be pulled, or numbers of batches or side segments run out.
    pub fn handle(&mut self, message: Message) -> Result<Worked, NoMemory>
        requires { IfSome self.old (λ master. CanTake master message) }
        ensures ok { IfOk result (λ work. IsSomeAnd self.old (λ master. IsWork (master_step master message) self.new work)) }
        ensures err { OnErr result (self.new ≡ None) }
    {
        if self.spent {
            return Err(NoMemory);
        }
        self.spent = true;
        let work = take_message(&mut self.state, message)?;
        self.spent = false;
        Ok(work)
    }

    /// Takes a turn: each backup is sent what it is not known to hold, and then each tablet gets what its role asks for, by
    /// rising number. A target asks its source for the batch from its token on, and before it for the hashes that calls
    /// wait for, if there are any. A rebuild that gathers asks backup 1 for the segment that it reads next. A target whose
    /// closing entry is applied reports to the coordinator that it has all, and such a rebuild the place from which its
    /// entries count, and the ends that it merged. After `NoMemory` the master is spent. A look at each backup and each
    /// tablet, for a rebuild that gathers also at each member and a search for a side segment, and the time to copy what is
    /// sent: a turn with nothing to send costs nothing more.
    pub fn turn(&mut self) -> Result<Worked, NoMemory>
        ensures ok { IfOk result (λ work. IsSomeAnd self.old (λ master. IsWork (master_turn master) self.new work)) }
        ensures err { OnErr result (self.new ≡ None) }
    {
        if self.spent {
            return Err(NoMemory);
        }
        self.spent = true;
        let work = take_turn(&mut self.state)?;
        self.spent = false;
        Ok(work)
    }

    /// Whether it is known at a look that a turn would send nothing: every backup holds the whole log, and the role of no
    /// tablet has a duty. False if the master is spent. A look at each backup and each tablet, which takes no memory if it
    /// is true; else also the time to copy what one backup lacks.
    pub fn rests(&self) -> bool
        ensures { result ≡ true → IfSome self.now (λ master. (master_turn master).sends ≡ []) }
    {
        !self.spent && rests(&self.state)
    }

    /// Adds a tablet, which is served from now on. `NoMemory` also if the master is spent; nothing has changed then. A
    /// binary search, and what an insertion takes.
    pub fn add(&mut self, tablet: u32, range: Range) -> Result<(), NoMemory>
        ensures ok { OnOk result (IsSomeAnd self.old (λ master. self.new ≡ Some (with_added master tablet range))) }
        ensures err { OnErr result (self.new ≡ self.old) }
    {
        if self.spent {
            return Err(NoMemory);
        }
        serve(&mut self.state.tablets, tablet, range)?;
        Ok(())
    }

    /// Splits a tablet at a hash, if both parts of its range have one; else nothing changes. Both parts are served from
    /// now on at this term, the part from the hash on under the number `new`, with the tablet's counter and completions.
    /// After `NoMemory` the master is spent. Three binary searches, what an insertion takes, and a copy of the completions
    /// and of what was pulled.
    pub fn split(&mut self, tablet: u32, at: u64, new: u32, term: u64) -> Result<(), NoMemory>
        ensures ok { OnOk result (IsSomeAnd self.old (λ master. self.new ≡ Some (with_split master tablet at new term))) }
        ensures err { OnErr result (self.new ≡ None) }
    {
        if self.spent {
            return Err(NoMemory);
        }
        self.spent = true;
        split(&mut self.state, tablet, at, new, term)?;
        self.spent = false;
        Ok(())
    }

    /// How many bytes the segments of the master have, those of side logs that are not sealed too, if that is below
    /// 2^64, and else 2^64 - 1; 0 if it is spent. Each entry of its log fits a segment. A look at each tablet.
    pub fn log_bytes(&self) -> u64
        ensures bytes { result ≡ option_map_or (λ master. min (log_bytes_lem master) (2 ^ 64 - 1)) self.now 0 }
        ensures fits { IfSome self.now (λ master. EachFits master.log.entries) }
    {
        if self.spent {
            return 0;
        }
        log_bytes(&self.state)
    }

    /// The greatest counter of a tablet, and 0 if there is none or the master is spent. A look at each tablet.
    pub fn greatest_counter(&self) -> u64
        ensures { result ≡ option_map_or (λ master. greatest (counters_of master)) self.now 0 }
    {
        if self.spent {
            return 0;
        }
        greatest_counter(self.state.tablets.as_slice())
    }

    /// How many records there are, tombstones among them; 0 if the master is spent. In constant time.
    pub fn records(&self) -> u64
        ensures { result ≡ option_map_or (λ master. length master.records) self.now 0 }
    {
        if self.spent {
            return 0;
        }
        self.state.records.len() as u64
    }

    /// What the master does for a tablet; nothing if it is spent. A binary search.
    pub fn role(&self, tablet: u32) -> Role
        ensures { result ≡ option_map_or (λ master. (tablet_at master tablet).handover.role) self.now Role.Absent }
    {
        if self.spent {
            return Role::Absent;
        }
        handover_of(self.state.tablets.as_slice(), tablet).role
    }

    /// The next version of a tablet, which is 1 if the master does not know it; 0 if the master is spent. A binary search.
    pub fn counter(&self, tablet: u32) -> u64
        ensures { result ≡ option_map_or (λ master. (tablet_at master tablet).handover.counter) self.now 0 }
    {
        if self.spent {
            return 0;
        }
        handover_of(self.state.tablets.as_slice(), tablet).counter
    }

    /// The term of a tablet, which is 0 if the master does not know it, or is spent. A binary search.
    pub fn term(&self, tablet: u32) -> u64
        ensures { result ≡ option_map_or (λ master. (tablet_at master tablet).handover.term) self.now 0 }
    {
        if self.spent {
            return 0;
        }
        handover_of(self.state.tablets.as_slice(), tablet).term
    }

    /// Whether a tablet asked for hashes that have not come, or has some to ask for; false if the master is spent. A
    /// binary search.
    pub fn is_waiting(&self, tablet: u32) -> bool
        ensures { result ≡ option_map_or (λ master. is_waiting_lem (tablet_at master tablet).pulling.hashes) self.now false }
    {
        !self.spent && is_waiting(self.state.tablets.as_slice(), tablet)
    }

    /// How many entries of the log are applied; 0 if the master is spent. In constant time.
    pub fn applied(&self) -> u64
        ensures { result ≡ option_map_or (λ master. master.applied) self.now 0 }
    {
        if self.spent {
            return 0;
        }
        self.state.applied
    }

    /// Appends duplicates of the live records of the range, in scan order; none if the master is spent. After
    /// `NoMemory` `into` is as it was. A step for each record and each chain of the table.
    pub fn live_items(&self, range: &Range, into: &mut Vec<Held>) -> Result<(), NoMemory>
        ensures ok { OnOk result (into.new.items ≡ into.old.items
            ++ option_map_or (λ master. live_in range.now master.records) self.now []) }
        ensures err { OnErr result (into.new.items ≡ into.old.items) }
    {
        if self.spent {
            return Ok(());
        }
        self.state.records.live_items(range, into)
    }

    /// How many entries of the log are not applied; 0 if the master is spent. In constant time.
    pub fn staged(&self) -> u64
        ensures { result ≡ option_map_or (λ master. length (staged master)) self.now 0 }
    {
        if self.spent {
            return 0;
        }
        self.state.log.length() - self.state.applied
    }

    /// Whether the call of a client with a seq waits for its entry to be applied; false if the master is spent. A search.
    pub fn staged_call(&self, client: u32, seq: u64) -> bool
        ensures { result ≡ option_map_or (λ master. is_staged master client seq) self.now false }
    {
        !self.spent && self.state.calls.is_staged(client, seq)
    }

    /// The records, lent. In constant time.
    pub fn table(&self) -> &BucketTable
        ensures { IfSome self.now (λ master. records_of result.now ≡ master.records) }
    {
        &self.state.records
    }

    /// The log, lent. In constant time.
    pub fn log(&self) -> &MasterLog
        ensures { IfSome self.now (λ master. result.now ≡ master.log) }
    {
        &self.state.log
    }

    /// The bytes of a main or side segment of the log, lent; none if there is no such segment. In constant time.
    pub fn segment(&self, number: u32) -> &[u8]
        ensures { IfSome self.now (λ master. result.now ≡ bytes_of master.log number) }
    {
        self.state.log.bytes(number)
    }
}
