ghost use Rattle.std.specs.Prelude.{◌≡◌, Option, Some, None, is_some, IfOk, OnOk, OnErr};
ghost use Rattle.std.specs.Int.{w64};
ghost use Rattle.rk_entry.specs.Numbers.{IsNumber};
ghost use Rattle.rk_types.specs.Hashing.{hash_of};
ghost use Rattle.rk_types.specs.declared.held.Held.{Held as Item};
ghost use Rattle.rk_world.specs.Commits.{noting};
ghost use Rattle.rk_world.specs.Ranges.{has_key};
ghost use Rattle.rk_world.specs.Master.{Master, serves_key};
ghost use Rattle.rk_world.specs.Gather.{next_reading as next_reading_lem};
ghost use Rattle.rk_world.specs.Handovers.{given_up, transfer as transfer_lem};
ghost use Rattle.rk_world.specs.RoleTests.{is_absent as is_absent_lem, is_frozen_at as is_frozen_at_lem};
ghost use Rattle.rk_world.specs.Requests.{counted_up, is_known as is_known_lem, with_wanted};
ghost use Rattle.rk_transfer.specs.Handover.{frozen, joined};
ghost use Rattle.rk_world.specs.Tablet.{no_tablet, pulling_from, with_handover, without_merged};
ghost use Rattle.rk_world.specs.MasterTurn.{with_outstanding};
ghost use Rattle.rk_world.specs.Splits.{with_half};
ghost use Rattle.rk_world.specs.Waiting.{joined_entry};
ghost use Rattle.rk_tablet.specs.Tablets.{tablet_of};

use crate::choice::is_receiving;
use rk_done::Completions;
use rk_entry::{Entry, Joined};
use rk_message::{Body, Message, Tenure, Transfer};
use rk_priority::Wanted;
use rk_pull::Progress;
use rk_rebuild::Gather;
use rk_side_log::SideLogs;
use rk_transfer::{Handover, Role};
use rk_types::{Call, Ended, Key, Listed, NoMemory, Node, Range, bucket_of, hash};
use rk_world::Reading;
use std::alloc::Global;

/// Versions count from 1, and this one and those above it are never given.
pub const MOST_VERSIONS: u64 = 1 << 60;

/// What a master has of a tablet.
pub struct TabletLane {
    pub handover: Handover,
    pub completions: Completions,
    /// The master that the tablet was granted to be pulled from last; 0 if there was none, or the tablet is owned since.
    pub source: u8,
    pub wanted: Wanted,
    /// How far the pulls have come.
    pub progress: Progress,
    /// How many batches were pulled.
    pub batches: u64,
    /// What was pulled and is not sealed.
    pub sides: SideLogs,
    /// The numbers of the side segments that were sealed.
    pub sealed: Listed<u32>,
    /// What a rebuild gathers; none if nothing is to be gathered.
    pub gather: Option<Gather>,
    /// The last end of each client, as a rebuild merged it.
    pub merged_ends: Listed<Ended>,
}

// No derive, so that to drop a tablet is a call in proofs, and no walk through all that it holds.
impl Drop for TabletLane {
    fn drop(self) {
        let TabletLane {
            handover: _,
            completions: _,
            source: _,
            wanted: _,
            progress: _,
            batches: _,
            sides: _,
            sealed: _,
            gather: _,
            merged_ends: _,
        } = self;
    }
}

impl TabletLane {
    /// Whether the tablet is served here and has the key.
    pub fn serves(&self, table: u64, key: &Key) -> bool
        ensures { result ≡ serves_key table key.now (tablet_of self.now) }
    {
        self.handover.serves() && self.has_key(table, key)
    }

    /// Whether the key is in the tablet's range.
    pub fn has_key(&self, table: u64, key: &Key) -> bool
        ensures { result ≡ has_key self.now.handover.range table key.now }
    {
        self.handover.range.has(table, hash(key.bytes()))
    }

    /// Whether the master does nothing for the tablet.
    pub fn is_absent(&self) -> bool
        ensures { result ≡ is_absent_lem self.now.handover.role }
    {
        matches!(self.handover.role, Role::Absent)
    }

    /// Whether what was found of a record with this hash is all that there is.
    pub fn is_known(&self, hash: u64, is_there: bool) -> bool
        ensures { (state : Option Item) → is_there ≡ is_some state → result ≡ is_known_lem (tablet_of self.now) hash state }
    {
        is_there
            || !is_receiving(self.handover.role)
            || self.wanted.resolved(hash)
            || self.progress.passed_bucket(bucket_of(hash))
    }

    /// Wants a hash. After `NoMemory` nothing has changed.
    pub fn want(&mut self, hash: u64) -> Result<(), NoMemory>
        ensures ok { OnOk result (tablet_of self.new ≡ with_wanted (tablet_of self.old) hash) }
        ensures err { OnErr result (tablet_of self.new ≡ tablet_of self.old) }
    {
        self.wanted.want(hash)?;
        Ok(())
    }

    /// The batch of wanted hashes to ask for: the outstanding one, or if there is none, the oldest 16 or fewer of those
    /// that are wanted, which are outstanding then. After `NoMemory` they are so too.
    pub fn next_batch(&mut self, alloc: Global) -> Result<Listed<u64>, NoMemory>
        ensures batch { IfOk result (λ hashes. hashes ≡ (tablet_of self.new).pulling.hashes.outstanding) }
        ensures tablet { tablet_of self.new ≡ with_outstanding (tablet_of self.old) }
        ensures handover { self.new.handover ≡ self.old.handover }
    {
        let batch = self.wanted.next_batch();
        Ok(Listed::from_vec(Vec::from_slice(alloc, batch)?))
    }

    /// The segment that a rebuild of the tablet reads next; none if nothing is gathered, or all is. A look at each
    /// member whose log is gathered, and a search for a side segment.
    pub fn next_reading(&self) -> Option<Reading>
        ensures { result ≡ next_reading_lem (tablet_of self.now).gather }
    {
        match &self.gather {
            Some(gather) => gather.next(),
            None => None,
        }
    }

    /// Gives the next version: the counter rises by one. `NoMemory` if no version is left, and then nothing has
    /// changed.
    pub fn next_version(&mut self) -> Result<u64, NoMemory>
        ensures version { IfOk result (λ version. version ≡ (tablet_of self.old).handover.counter) }
        ensures lawful { IfOk result (IsNumber w64 1) }
        ensures counter { OnOk result (tablet_of self.new ≡ counted_up (tablet_of self.old)) }
    {
        let version = self.handover.counter;
        if version == 0 || version >= MOST_VERSIONS {
            return Err(NoMemory);
        }
        self.handover.counter = version + 1;
        Ok(version)
    }

    /// Notes the end of a call, if the tablet is not absent and has the key. One binary search, and for the first call of
    /// a client what an insertion takes.
    pub fn note(&mut self, call: &Call, end: Ended) -> Result<(), NoMemory>
        ensures { OnOk result (tablet_of self.new ≡ noting call.now end (tablet_of self.old)) }
    {
        if self.is_absent() || !self.has_key(call.table, &call.key) {
            return Ok(());
        }
        self.completions.reserve(1)?;
        self.completions.note(end);
        Ok(())
    }

    /// A tablet with this handover, of which nothing else is known. Takes no memory.
    pub fn new(alloc: Global, handover: Handover) -> TabletLane
        ensures { tablet_of result ≡ with_handover no_tablet handover }
    {
        TabletLane {
            handover,
            completions: Completions::new(alloc),
            source: 0,
            wanted: Wanted::new(alloc),
            progress: Progress::new(),
            batches: 0,
            sides: SideLogs::new(alloc),
            sealed: Listed::new(alloc),
            gather: None,
            merged_ends: Listed::new(alloc),
        }
    }

    /// A part of the tablet that is served with this range at this term, and has what the tablet has but for what was
    /// gathered and merged. A copy of the completions, and of what was pulled.
    pub fn half(&self, range: Range, term: u64) -> Result<TabletLane, NoMemory>
        ensures { IfOk result (λ half. tablet_of half ≡ with_half (tablet_of self.now) range term) }
    {
        Ok(TabletLane {
            handover: half_of(self.handover, range, term),
            completions: self.completions.duplicate()?,
            source: self.source,
            wanted: self.wanted.duplicate()?,
            progress: self.progress,
            batches: self.batches,
            sides: self.sides.duplicate()?,
            sealed: self.sealed.duplicate()?,
            gather: None,
            merged_ends: self.merged_ends.empty_like(),
        })
    }

    /// A tablet that closes freezes.
    pub fn freeze(&mut self)
        requires { self.old.handover.role ≡ Role.Closing }
        ensures role { self.new.handover.role ≡ Role.Frozen }
        ensures moved { frozen self.old.handover self.old.handover.term ≡ Some self.new.handover }
        ensures tablet { tablet_of self.new ≡ with_handover (tablet_of self.old) self.new.handover }
    {
        let term = self.handover.term;
        let _ = self.handover.freeze(term);
    }

    /// Whether the tablet is frozen at this term.
    pub fn is_frozen_at(&self, term: u64) -> bool
        ensures { result ≡ is_frozen_at_lem (tablet_of self.now) term }
    {
        matches!(self.handover.role, Role::Frozen) && self.handover.term == term
    }

    /// What the next owner of a frozen tablet has to know, from the master of this number.
    pub fn transfer(&self, number: u8, tenure: Tenure) -> Result<Message, NoMemory>
        ensures { IfOk result (λ message. (master : Master) → master.number ≡ number
            → message ≡ transfer_lem master tenure (tablet_of self.now)) }
    {
        let ends = Listed::from_vec(self.completions.ends()?);
        Ok(Message {
            from: Node::Master(number),
            to: Node::Coordinator,
            body: Body::Transfer(Transfer {
                tenure,
                floor: self.handover.counter,
                ends,
            }),
        })
    }

    /// Forgets what was gathered and merged.
    pub fn forget_merged(&mut self)
        ensures { tablet_of self.new ≡ without_merged (tablet_of self.old) }
    {
        self.gather = None;
        self.merged_ends = self.merged_ends.empty_like();
    }

    /// The tablet has this handover from now on, and what was gathered and merged is forgotten.
    pub fn hand(&mut self, handover: Handover)
        ensures { tablet_of self.new ≡ without_merged (with_handover (tablet_of self.old) handover) }
    {
        self.handover = handover;
        self.forget_merged();
    }

    /// Forgets what was pulled, gathered and merged; from now on the tablet is pulled from this source. A step for each
    /// segment that was not sealed.
    pub fn pull_from(&mut self, source: u8)
        ensures { tablet_of self.new ≡ (record (without_merged (tablet_of self.old)) { pulling = pulling_from source }) }
    {
        self.forget_merged();
        self.source = source;
        self.wanted.clear();
        self.progress = Progress::new();
        self.batches = 0;
        self.sides.clear();
        self.sealed = self.sealed.empty_like();
    }

    /// The tablet is given up: it is absent, what was pulled, gathered and merged is forgotten, and its term and range
    /// stay.
    pub fn give_up(&mut self)
        ensures { tablet_of self.new ≡ given_up (tablet_of self.old) }
    {
        self.pull_from(self.source);
        self.handover.role = Role::Absent;
    }

    /// A target that has all takes the place of the entry that closes its role.
    pub fn join(&mut self, place: u64)
        requires { self.old.handover.role ≡ Role.Joining None }
        ensures role { self.new.handover.role ≡ Role.Joining (Some place) }
        ensures moved { joined self.old.handover self.old.handover.term (Some place) ≡ Some self.new.handover }
        ensures tablet { tablet_of self.new ≡ with_handover (tablet_of self.old) self.new.handover }
    {
        let term = self.handover.term;
        let _ = self.handover.join(term, Some(place));
    }

    /// The entry that closes the role of a target that has all.
    pub fn joined_entry(&self) -> Result<Entry, NoMemory>
        ensures { IfOk result (λ entry. entry ≡ joined_entry (tablet_of self.now)) }
    {
        Ok(Entry::Joined(Joined {
            range: self.handover.range,
            term: self.handover.term,
            segments: self.sealed.duplicate()?,
        }))
    }
}

/// What a part of a tablet that had this handover has: it is served with this range at this term, and its counter goes on.
pub fn half_of(before: Handover, range: Range, term: u64) -> Handover
    ensures { result ≡ record { role = Role.Serving; term = term; range = range; counter = before.counter } }
{
    Handover {
        role: Role::Serving,
        term,
        range,
        counter: before.counter,
    }
}
