ghost use Rattle.std.specs.Prelude.{map, ◌≡◌, ◌<◌, ◌-◌, ◌^◌, true, length, take, if◌then◌else◌, Some, OnOk, OnErr};
ghost use Rattle.std.specs.Option.{option_copied};
ghost use Rattle.rk_types.specs.NumberMap.{get};
ghost use Rattle.rk_model.specs.Merged.{IsRisingAbove};
ghost use Rattle.rk_world.specs.Journal.{has_record as has_record_lem, is_accepted as is_accepted_lem, last_stamp as last_stamp_lem};
ghost use Rattle.rk_world.specs.Ledger.{asked_by, is_added as is_added_lem, new_ledger};
ghost use Rattle.rk_world.specs.Ledger as ledgers;
ghost use Rattle.rk_world.specs.Replies.{filled};
ghost use Rattle.rk_ledger.specs.Growing.{with_journal};
ghost use Rattle.rk_ledger.specs.Noted.{accepted_count};
ghost use Rattle.rk_ledger.specs.Values as values;

use crate::clients::Clients;
use crate::fill::fill_all;
use crate::journal::Journal;
use crate::recording::{cut, end_all, serve_all};
use rk_message::{Message, Rebuilt};
use rk_types::{NoMemory, Placed};
use rk_world::{LastCall, Mark, Served};
use std::alloc::Global;
use std::marker::Model;

/// The ledger of a lane. Contracts see the ledger of the definitions.
pub struct LedgerLane {
    clients: Clients,
    // How many calls were asked.
    asked: u64,
    journal: Journal,
    marks: Vec<Mark>,
}

// No derive, so that to drop a ledger is a call in proofs, and no walk through all that it holds.
impl Drop for LedgerLane {
    fn drop(self) {
        let LedgerLane {
            clients: _,
            asked: _,
            journal: _,
            marks: _,
        } = self;
    }
}

impl Model for LedgerLane {
    ghost use Rattle.rk_world.specs.Ledger.{Ledger};

    ghost Value = { Ledger };

    ghost use Rattle.rk_ledger.specs.Lane.{ledger_of};

    ghost view = { ledger_of };
}

impl LedgerLane {
    /// The ledger of a lane in which nothing happened. Takes no memory.
    pub fn new(alloc: Global) -> LedgerLane
        ensures { result ≡ new_ledger }
    {
        LedgerLane {
            clients: Clients::new(alloc),
            asked: 0,
            journal: Journal::new(alloc),
            marks: Vec::new(alloc),
        }
    }

    /// Whether a client was added. One search.
    pub fn is_added(&self, client: u32) -> bool
        ensures { result ≡ is_added_lem self.now client }
    {
        self.clients.is_added(client)
    }

    /// How many clients were added. One step.
    pub fn clients(&self) -> u64
        ensures { result ≡ length self.now.clients }
    {
        self.clients.count()
    }

    /// Adds a client that asked nothing so far, unless it is there. After `NoMemory` nothing has changed. One search, and a
    /// step for each client above it.
    pub fn add_client(&mut self, client: u32) -> Result<(), NoMemory>
        ensures ok { OnOk result (self.new ≡ (if is_added_lem self.old client then self.old else ledgers.with_client self.old client)) }
        ensures err { OnErr result (self.new ≡ self.old) }
    {
        self.clients.add(client)
    }

    /// The last call that a client asked here, if there was one. One search.
    pub fn last_call(&self, client: u32) -> Option<&LastCall>
        ensures { option_copied result ≡ asked_by self.now client }
    {
        self.clients.last_call(client)
    }

    /// A client that was added asks a new call, which takes the place of its last one. One search; takes no memory.
    pub fn ask(&mut self, client: u32, last: LastCall)
        requires added { is_added_lem self.old client ≡ true }
        requires room { self.old.asked < 2 ^ 64 - 1 }
        ensures { self.new ≡ ledgers.with_asked self.old client last }
    {
        self.clients.ask(client, last);
        self.asked += 1;
    }

    /// How many calls were asked.
    pub fn asked(&self) -> u64
        ensures { result ≡ self.now.asked }
    {
        self.asked
    }

    /// Keeps the last request of a client that was added, in the place of an older one. One search; takes no memory.
    pub fn save(&mut self, client: u32, request: Message)
        requires { is_added_lem self.old client ≡ true }
        ensures { self.new ≡ ledgers.with_request self.old client request }
    {
        self.clients.save(client, request);
    }

    /// The last request of a client, if one is kept. One search.
    pub fn request(&self, client: u32) -> Option<&Message>
        ensures { option_copied result ≡ get self.now.requests client }
    {
        self.clients.request(client)
    }

    /// The journal: the records of the calls that were carried out, oldest first, by rising stamps; lent.
    pub fn journal(&self) -> &[Placed]
        ensures value { result.now ≡ self.now.journal }
        ensures rising { IsRisingAbove 0 self.now.journal }
    {
        self.journal.records()
    }

    /// The stamp of the last record, 0 if there is none. One step.
    pub fn last_stamp(&self) -> u64
        ensures { result ≡ last_stamp_lem self.now.journal }
    {
        self.journal.last_stamp()
    }

    /// How many records are accepted; that is kept, not counted. One step.
    pub fn accepted(&self) -> u64
        ensures { result ≡ accepted_count self.now.journal }
    {
        self.journal.accepted()
    }

    /// The bytes of the values in the calls and outcomes of the journal; they are kept, not counted. One step.
    pub fn value_bytes(&self) -> u64
        ensures { result ≡ values.value_bytes self.now.journal }
    {
        self.journal.value_bytes()
    }

    /// Whether the mutation of a client with a seq has its record. One search.
    pub fn has_record(&self, client: u32, seq: u64) -> bool
        ensures { result ≡ has_record_lem self.now.journal client seq }
    {
        self.journal.has_record(client, seq)
    }

    /// Whether the call of a client with a seq has an accepted record. One search.
    pub fn is_accepted(&self, client: u32, seq: u64) -> bool
        ensures { result ≡ is_accepted_lem self.now.journal client seq }
    {
        self.journal.is_accepted(client, seq)
    }

    /// The marks of pieces of logs that rebuilds made, in the order in which they came; lent.
    pub fn marks(&self) -> &[Mark]
        ensures { result.now ≡ self.now.marks }
    {
        self.marks.as_slice()
    }

    /// Served calls get their records, in their order: a read with what its request had seen, a mutation with what its client
    /// had seen when it asked, unless it has one. `NoMemory` comes also if a stamp or the bytes of the journal's values do
    /// not fit; nothing has changed then. For each call a few searches, and the time to copy it and its outcome.
    pub fn serve(&mut self, seen: u64, served: &[Served]) -> Result<(), NoMemory>
        ensures ok { OnOk result (self.new ≡ ledgers.with_all_served seen self.old served.now) }
        ensures err { OnErr result (self.new ≡ self.old) }
    {
        serve_all(&mut self.journal, &self.clients, seen, served)
    }

    /// Takes the records from a place on away, counted from 0: as when a call that was served cannot be answered. For each
    /// of them a few searches; takes no memory.
    pub fn withdraw(&mut self, length: usize)
        ensures { self.new ≡ with_journal self.old (take length self.old.journal) }
    {
        cut(&mut self.journal, length);
    }

    /// Pieces of masters' logs are marked. After `NoMemory` nothing has changed. A step for each mark.
    pub fn mark(&mut self, marks: &[Mark]) -> Result<(), NoMemory>
        ensures ok { OnOk result (self.new ≡ ledgers.with_marks self.old marks.now) }
        ensures err { OnErr result (self.new ≡ self.old) }
    {
        self.marks.extend_from_slice(marks)?;
        Ok(())
    }

    /// A rebuild of a tablet is taken: each end of a client's last call here makes a record, unless that call has one, and no
    /// log has a mark of the tablet any more that was made at its term or before. `NoMemory` comes also if a stamp or the
    /// bytes of the journal's values do not fit; nothing has changed then. For each end a few searches and the time to copy a
    /// call, and a step for each mark.
    pub fn take_rebuilt(&mut self, rebuilt: &Rebuilt) -> Result<(), NoMemory>
        ensures ok { OnOk result (self.new ≡ ledgers.with_rebuilt self.old (Some rebuilt.now)) }
        ensures err { OnErr result (self.new ≡ self.old) }
    {
        end_all(&mut self.journal, &self.clients, rebuilt.ends.as_slice())?;
        let (tablet, term) = (rebuilt.tenure.tablet, rebuilt.tenure.term);
        self.marks
            .retain(|mark| !(mark.tablet == tablet && mark.term <= term));
        Ok(())
    }

    /// Accepts the record at a place, counted from 0, if there is one. Two searches; takes no memory.
    pub fn accept(&mut self, place: u64)
        ensures { self.new ≡ ledgers.with_accepted self.old place }
    {
        self.journal.accept(place);
    }

    /// Each message gets stamp and place of its record, if it is a reply to a call that was carried out; `served` has the calls
    /// that were served in the same step. For each message a step for each of these, and a search; takes no memory.
    pub fn fill(&self, served: &[Served], messages: &mut [Message])
        ensures { messages.new ≡ map (filled self.now.journal served.now) messages.old }
    {
        fill_all(&self.journal, served, messages);
    }
}
