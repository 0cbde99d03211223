ghost use Rattle.std.specs.Prelude.{◌≡◌, None, length, is_some, IsSome, IfOk, IfErr, OnOk, OnErr, if◌then◌else◌};
ghost use Rattle.std.specs.Option.{option_copied};
ghost use Rattle.rk_types.specs.NumberMap.{IsInOrder, get, get_or};
ghost use Rattle.rk_ledger.specs.Clients.{asked_here, last_calls_of, nobody, requests_of, with_added, with_last, with_request};
ghost use Rattle.rk_types.specs.Places.{IsAt, IsBetween};

use crate::asked::Asked;
use rk_message::Message;
use rk_types::NoMemory;
use rk_world::LastCall;
use std::alloc::Global;
use std::marker::Model;

/// The clients that were added to a lane, by rising number, with what they asked there. Contracts see their last calls and
/// their last requests.
#[derive(Drop)]
pub(crate) struct Clients {
    entries: Vec<(u32, Asked)>,
}

impl Model for Clients {
    ghost use Rattle.rk_types.specs.NumberMap.{IsInOrder};
    ghost use Rattle.rk_ledger.specs.Clients.{AskedHere, asked_here};

    ghost Value = { AskedHere };

    ghost view = { λ clients. asked_here clients.entries.items };

    ghost invariant = { λ clients. IsInOrder clients.entries.items };
}

impl Clients {
    /// Nobody. Takes no memory.
    pub(crate) fn new(alloc: Global) -> Clients
        ensures { result ≡ nobody }
    {
        Clients {
            entries: Vec::new(alloc),
        }
    }

    /// How many clients were added. One step.
    pub(crate) fn count(&self) -> u64
        ensures { result ≡ length self.now.last_calls }
    {
        self.entries.len() as u64
    }

    /// Whether a client was added. One binary search.
    pub(crate) fn is_added(&self, client: u32) -> bool
        ensures { result ≡ is_some (get self.now.last_calls client) }
    {
        is_among(self.entries.as_slice(), client)
    }

    /// The last call that a client asked, if there was one. One binary search.
    pub(crate) fn last_call(&self, client: u32) -> Option<&LastCall>
        ensures { option_copied result ≡ get_or None self.now.last_calls client }
    {
        last_call_of(self.entries.as_slice(), client)
    }

    /// The last request of a client, if there was one. One binary search.
    pub(crate) fn request(&self, client: u32) -> Option<&Message>
        ensures { option_copied result ≡ get self.now.requests client }
    {
        request_of(self.entries.as_slice(), client)
    }

    /// Adds a client that asked nothing so far, unless it is there. After `NoMemory` nothing has changed. One binary
    /// search, and a step for each client above it.
    pub(crate) fn add(&mut self, client: u32) -> Result<(), NoMemory>
        ensures ok { OnOk result (self.new ≡ (if is_some (get self.old.last_calls client) then self.old else with_added self.old client)) }
        ensures err { OnErr result (self.new ≡ self.old) }
    {
        add_to(&mut self.entries, client)
    }

    /// A client that was added has this last call, in the place of an older one. One binary search; takes no memory.
    pub(crate) fn ask(&mut self, client: u32, last: LastCall)
        requires { IsSome (get self.old.last_calls client) }
        ensures { self.new ≡ with_last self.old client last }
    {
        ask_in(self.entries.as_mut_slice(), client, last);
    }

    /// A client that was added has this last request, in the place of an older one. One binary search; takes no memory.
    pub(crate) fn save(&mut self, client: u32, request: Message)
        requires { IsSome (get self.old.last_calls client) }
        ensures { self.new ≡ with_request self.old client request }
    {
        save_in(self.entries.as_mut_slice(), client, request);
    }
}

// The place of a client, or where it would be inserted. One binary search.
fn search(entries: &[(u32, Asked)], client: u32) -> Result<usize, usize>
    requires { IsInOrder entries.now }
    ensures found { IfOk result (IsAt client entries.now) }
    ensures absent { IfErr result (IsBetween client entries.now) }
{
    entries.binary_search_by_key(&client, |entry| entry.0)
}

// Whether a client was added.
fn is_among(entries: &[(u32, Asked)], client: u32) -> bool
    requires { IsInOrder entries.now }
    ensures { result ≡ is_some (get (last_calls_of entries.now) client) }
{
    search(entries, client).is_ok()
}

// The last call of a client, if there was one.
fn last_call_of(entries: &[(u32, Asked)], client: u32) -> Option<&LastCall>
    requires { IsInOrder entries.now }
    ensures { option_copied result ≡ get_or None (last_calls_of entries.now) client }
{
    match search(entries, client) {
        Ok(at) => entries[at].1.last.as_ref(),
        Err(_) => None,
    }
}

// The last request of a client, if there was one.
fn request_of(entries: &[(u32, Asked)], client: u32) -> Option<&Message>
    requires { IsInOrder entries.now }
    ensures { option_copied result ≡ get (requests_of entries.now) client }
{
    match search(entries, client) {
        Ok(at) => entries[at].1.request.as_ref(),
        Err(_) => None,
    }
}

// Adds a client that asked nothing, unless it is there. After `NoMemory` nothing has changed.
fn add_to(entries: &mut Vec<(u32, Asked)>, client: u32) -> Result<(), NoMemory>
    requires { IsInOrder entries.old.items }
    ensures order { IsInOrder entries.new.items }
    ensures ok { OnOk result (asked_here entries.new.items ≡ (if is_some (get (last_calls_of entries.old.items) client)
        then asked_here entries.old.items else with_added (asked_here entries.old.items) client)) }
    ensures err { OnErr result (entries.new.items ≡ entries.old.items) }
{
    let Err(at) = search(entries.as_slice(), client) else {
        return Ok(());
    };
    entries.insert(at, (client, Asked::nothing()))?;
    Ok(())
}

// A client that was added has this last call.
fn ask_in(entries: &mut [(u32, Asked)], client: u32, last: LastCall)
    requires order { IsInOrder entries.old }
    requires there { IsSome (get (last_calls_of entries.old) client) }
    ensures order { IsInOrder entries.new }
    ensures asked { asked_here entries.new ≡ with_last (asked_here entries.old) client last }
{
    let at = place_of(entries, client);
    let asked = &mut entries[at].1;
    asked.ask(last);
}

// A client that was added has this last request.
fn save_in(entries: &mut [(u32, Asked)], client: u32, request: Message)
    requires order { IsInOrder entries.old }
    requires there { IsSome (get (last_calls_of entries.old) client) }
    ensures order { IsInOrder entries.new }
    ensures saved { asked_here entries.new ≡ with_request (asked_here entries.old) client request }
{
    let at = place_of(entries, client);
    let asked = &mut entries[at].1;
    asked.save(request);
}

// The place of a client that was added. One binary search.
fn place_of(entries: &[(u32, Asked)], client: u32) -> usize
    requires order { IsInOrder entries.now }
    requires there { IsSome (get (last_calls_of entries.now) client) }
    ensures { IsAt client entries.now result }
{
    search(entries, client).unwrap()
}
