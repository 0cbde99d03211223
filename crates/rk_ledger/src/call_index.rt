ghost use Rattle.std.specs.Prelude.{◌≡◌, ◌<◌, ◌-◌, ◌^◌, ℕ, true, false, unwrap_or, OnOk, OnErr};
ghost use Rattle.rk_ledger.specs.Noted.{IsNoted, NotesTheSame, found_in, has_note, is_last_name, is_of_name, noted_in, nothing, stored_in, with_accepted, with_record, without_record};

use crate::journal::is_mutation;
use rk_types::{NoMemory, Placed};
use std::alloc::Global;
use std::collections::HashMap;

/// What is noted of a client and seq: the place of the mutation's record, if it has one, and how many records are
/// accepted.
#[derive(Clone, Copy)]
pub(crate) struct Noted {
    pub(crate) place: Option<u64>,
    pub(crate) accepted: u64,
}

impl Noted {
    /// What is noted of a call once one more record of it, which is not accepted, is at this place.
    pub(crate) fn with_record(self, placed: &Placed, place: u64) -> Noted
        requires { placed.now.accepted ≡ false }
        ensures { result ≡ with_record self placed.now place }
    {
        let place = match self.place {
            None if is_mutation(&placed.call.op) => Some(place),
            known => known,
        };
        Noted {
            place,
            accepted: self.accepted,
        }
    }

    /// What was noted of a call before its last record was put at this place.
    pub(crate) fn without_record(self, placed: &Placed, place: u64) -> Noted
        ensures { result ≡ without_record self placed.now place }
    {
        let before = match self.place {
            Some(known) if known == place => None,
            known => known,
        };
        Noted {
            place: before,
            accepted: self.accepted.saturating_sub(u64::from(placed.accepted)),
        }
    }

    /// What is noted of a call once one more of its records is accepted.
    pub(crate) fn with_accepted(self) -> Noted
        requires { self.accepted < 2 ^ 64 - 1 }
        ensures { result ≡ with_accepted self }
    {
        Noted {
            place: self.place,
            accepted: self.accepted + 1,
        }
    }
}

/// What is noted of the call of a client with a seq.
#[derive(Clone, Copy)]
pub(crate) struct OfCall {
    pub(crate) client: u32,
    pub(crate) seq: u64,
    pub(crate) noted: Noted,
}

impl OfCall {
    // Whether this is the call of a client with a seq.
    fn is_of(self, client: u32, seq: u64) -> bool
        ensures { result ≡ is_of_name self client seq }
    {
        self.client == client && self.seq == seq
    }
}

/// What is noted of each client and seq. The call that was noted last is kept apart, since it is asked for again and
/// again until its answer is accepted.
#[derive(Drop)]
pub(crate) struct CallIndex {
    notes: HashMap<(u32, u64), Noted>,
    // What is noted of this call, whatever else the map has of it.
    last: Option<OfCall>,
}

impl CallIndex {
    /// No notes. Takes no memory.
    pub(crate) fn new(alloc: Global) -> CallIndex
        ensures { (client seq : ℕ) → noted_in result client seq ≡ nothing }
    {
        CallIndex {
            notes: HashMap::new(alloc),
            last: None,
        }
    }

    /// What is noted of this client and seq. One search at most.
    pub(crate) fn get(&self, client: u32, seq: u64) -> Noted
        ensures { result ≡ noted_in self.now client seq }
    {
        let Some(last) = self.last else {
            return self.get_stored(client, seq);
        };
        if last.is_of(client, seq) {
            return last.noted;
        }
        self.get_stored(client, seq)
    }

    // What the map has of this client and seq.
    fn get_stored(&self, client: u32, seq: u64) -> Noted
        ensures { result ≡ unwrap_or (stored_in self.now client seq) nothing }
    {
        match self.notes.get(&(client, seq)) {
            Some(noted) => *noted,
            None => Noted {
                place: None,
                accepted: 0,
            },
        }
    }

    /// Notes this of a client and seq. After `NoMemory` nothing has changed. One search.
    pub(crate) fn insert(&mut self, client: u32, seq: u64, noted: Noted) -> Result<(), NoMemory>
        ensures ok { OnOk result (IsNoted self.old self.new client seq noted) }
        ensures err { OnErr result (NotesTheSame self.old self.new) }
    {
        self.store_last()?;
        self.last = Some(OfCall { client, seq, noted });
        Ok(())
    }

    // What is noted of the last call goes into the map, if there is one. After `NoMemory` nothing has changed.
    fn store_last(&mut self) -> Result<(), NoMemory>
        ensures ok { OnOk result ((client seq : ℕ) → stored_in self.new client seq ≡ found_in self.old client seq) }
        ensures err { OnErr result (NotesTheSame self.old self.new) }
    {
        if let Some(last) = self.last {
            self.notes.insert((last.client, last.seq), last.noted)?;
        }
        Ok(())
    }

    /// Notes this of a client and seq that has a note. One search at most; takes no memory.
    pub(crate) fn change(&mut self, client: u32, seq: u64, noted: Noted)
        requires { has_note self.old client seq ≡ true }
        ensures { IsNoted self.old self.new client seq noted }
    {
        if self.is_last(client, seq) {
            self.last = Some(OfCall { client, seq, noted });
            return;
        }
        if let Some(there) = self.notes.get_mut(&(client, seq)) {
            *there = noted;
        }
    }

    // Whether this is the client and the seq that were noted last.
    fn is_last(&self, client: u32, seq: u64) -> bool
        ensures { result ≡ is_last_name self.now.last client seq }
    {
        match self.last {
            Some(last) => last.is_of(client, seq),
            None => false,
        }
    }
}
