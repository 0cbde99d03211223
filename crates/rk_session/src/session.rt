ghost use Rattle.std.specs.Prelude.{◌≡◌, ◌+◌, ◌<◌, ◌↔◌, ℕ, None, IfOk, IfSome, OnOk, OnErr};
ghost use Rattle.std.specs.Option.{option_copied};
ghost use Rattle.rk_types.specs.declared.call.Call.{Call as Asked};
ghost use Rattle.rk_types.specs.declared.hashing.TheConstants.{LANES};
ghost use Rattle.rk_message.specs.declared.message.Body.TheVariants as bodies;
ghost use Rattle.rk_message.specs.declared.calls.Reply.{Reply as Answered};
ghost use Rattle.rk_world.specs.Client.{busy, done, lookup_of as lookup_of_lem, new_session, receipt_of as receipt_of_lem};
ghost use Rattle.rk_world.specs.Client.{Session as Known, request_of as request_of_lem, session_accept, session_turn, with_next_call};
ghost use Rattle.rk_session.specs.Turns.{address_of as address_of_lem, message_of, session_after};
ghost use Rattle.rk_session.specs.Owners.{cached_owner, known_owner as known_owner_lem, looks_up as looks_up_lem};

use crate::cached_ranges::CachedRanges;
use crate::error::AskError;
use crate::lane_ranges::has_call;
use rk_message::{Body, Located, Lookup, Message, Reply, Request};
use rk_types::{Answer, Call, Key, NoMemory, Node, Op, Outcome, Receipt, hash, lane_of};
use rk_world::Taken;
use std::alloc::Global;
use std::marker::Model;

/// How many requests of a call are sent to a cached owner before it is looked up again.
pub const MOST_REQUESTS: u8 = 3;

/// A client's session. Contracts see the session of the definitions.
pub struct Session {
    client: u32,
    receipts: Vec<Receipt>,
    last: u64,
    outstanding: Option<Call>,
    seen: u64,
    requests: u8,
    cached: CachedRanges,
    sent_in: Option<u8>,
}

// No derive, so that to drop a session is a call in proofs, and no walk through all that it holds.
impl Drop for Session {
    fn drop(self) {
        let Session {
            client: _,
            receipts: _,
            last: _,
            outstanding: _,
            seen: _,
            requests: _,
            cached: _,
            sent_in: _,
        } = self;
    }
}

impl Model for Session {
    ghost use Rattle.rk_world.specs.Client.{Session as Known};

    ghost Value = { Known };

    ghost use Rattle.rk_session.specs.Fields.{session_of, IsSession};

    ghost view = { session_of };

    ghost invariant = { IsSession };
}

impl Session {
    /// The session of a client that asked nothing. Takes no memory.
    pub fn new(alloc: Global, client: u32) -> Session
        ensures { result ≡ new_session client }
    {
        Session {
            client,
            receipts: Vec::new(alloc),
            last: 0,
            outstanding: None,
            seen: 0,
            requests: 0,
            cached: CachedRanges::new(alloc),
            sent_in: None,
        }
    }

    /// Asks the client's next call, and answers its seq. It reserves the room that an answer to the call takes. `Busy`
    /// with the seq of the outstanding call comes exactly if there is one, and `NoMemory` also if the seq would
    /// not fit; after an error nothing has changed.
    pub fn ask(&mut self, table: u64, key: Key, op: Op) -> Result<u64, AskError>
        ensures seq { IfOk result (λ seq. seq ≡ self.old.last + 1) }
        ensures ok { OnOk result (self.new ≡ with_next_call self.old table key op) }
        ensures free { OnOk result (self.old.outstanding ≡ None) }
        ensures busy { (seq : ℕ) → (result ≡ Err (AskError.Busy seq)) ↔ (busy self.old ≡ Some seq) }
        ensures err { OnErr result (self.new ≡ self.old) }
    {
        if let Some(call) = &self.outstanding {
            return Err(AskError::Busy(call.seq));
        }
        let Some(seq) = self.last.checked_add(1) else {
            return Err(AskError::NoMemory);
        };
        let call = Call {
            client: self.client,
            seq,
            table,
            key,
            op,
        };
        self.cached.reserve_one(&call)?;
        self.receipts.reserve(1)?;
        self.last = seq;
        self.requests = 0;
        self.outstanding = Some(call);
        Ok(seq)
    }

    /// What the client sends on its turn, if a call is outstanding: a request to the owner of the cached range that has
    /// the key, or else a question where the key is, after which that range is cached no more. After `NoMemory` nothing
    /// has changed. A look at each cached range of the call's lane.
    pub fn turn(&mut self) -> Result<Option<Message>, NoMemory>
        ensures message { IfOk result (λ message. message ≡ message_of (session_turn self.old)) }
        ensures ok { OnOk result (self.new ≡ session_after self.old (session_turn self.old)) }
        ensures err { OnErr result (self.new ≡ self.old) }
    {
        let Some(call) = &self.outstanding else {
            return Ok(None);
        };
        let Some((tablet, master)) = address_of(self.requests, self.cached.find(call)) else {
            self.cached.forget(call);
            self.requests = 0;
            return Ok(Some(lookup_of(self.client, call)));
        };
        let request = request_of(self.client, self.seen, call, tablet, master)?;
        self.sent_in = Some(lane_of(hash(call.key.bytes())));
        self.requests += 1;
        Ok(Some(request))
    }

    /// Takes a message, and returns what came of it. It takes no memory. A look at each cached range of the call's lane.
    pub fn accept(&mut self, message: Message) -> Taken
        ensures taken { result ≡ (session_accept self.old message.body).taken }
        ensures session { self.new ≡ (session_accept self.old message.body).session }
    {
        match message.into_body() {
            Body::Located(located) => self.accept_located(located),
            Body::Reply(reply) => self.accept_reply(reply),
            _ => Taken::Ignored,
        }
    }

    /// Whose session it is.
    pub fn client(&self) -> u32
        ensures { result ≡ self.now.client }
    {
        self.client
    }

    /// The highest stamp that the client has seen.
    pub fn seen(&self) -> u64
        ensures { result ≡ self.now.seen }
    {
        self.seen
    }

    /// The call that is asked and not answered yet, if there is one.
    pub fn outstanding(&self) -> Option<&Call>
        ensures { option_copied result ≡ self.now.outstanding }
    {
        self.outstanding.as_ref()
    }

    /// The lane of the request that was sent last, if there was one.
    pub fn sent_in(&self) -> Option<u8>
        ensures lane { result ≡ self.now.sent_in }
        ensures there { IfSome result (λ lane. lane < LANES) }
    {
        self.sent_in
    }

    /// The receipts of the calls that were answered, oldest first.
    pub fn receipts(&self) -> &[Receipt]
        ensures { result.now ≡ self.now.receipts }
    {
        self.receipts.as_slice()
    }

    /// Who owns the key of the outstanding call, as far as the client knows; none if no call is outstanding. A look at
    /// each cached range of the call's lane.
    pub fn known_owner(&self) -> Option<u8>
        ensures { result ≡ known_owner_lem self.now }
    {
        match &self.outstanding {
            Some(call) => owner_of(self.cached.find(call)),
            None => None,
        }
    }

    /// Whether the client asks on its turn where the key of its outstanding call is. A look at each cached range of the
    /// call's lane.
    pub fn looks_up(&self) -> bool
        ensures { result ≡ looks_up_lem self.now }
    {
        match &self.outstanding {
            Some(call) => address_of(self.requests, self.cached.find(call)).is_none(),
            None => false,
        }
    }

    // Takes in where a range is.
    fn accept_located(&mut self, located: Located) -> Taken
        ensures taken { result ≡ (session_accept self.old (bodies.Located located)).taken }
        ensures session { self.new ≡ (session_accept self.old (bodies.Located located)).session }
    {
        let Some(call) = &self.outstanding else {
            return Taken::Ignored;
        };
        if !has_call(call, &located) {
            return Taken::Ignored;
        }
        self.cached.put(call, located);
        self.requests = 0;
        Taken::Located
    }

    // Takes in the answer to a call.
    fn accept_reply(&mut self, reply: Reply) -> Taken
        ensures taken { result ≡ (session_accept self.old (bodies.Reply reply)).taken }
        ensures session { self.new ≡ (session_accept self.old (bodies.Reply reply)).session }
    {
        let Some(call) = &self.outstanding else {
            return Taken::Ignored;
        };
        let Reply {
            seq,
            stamp,
            place,
            answer,
        } = reply;
        if seq != call.seq {
            return Taken::Ignored;
        }
        match answer {
            Answer::Done(outcome) => {
                self.finish(place, stamp, outcome);
                Taken::Done
            }
            Answer::Moved(tablet) => {
                self.cached.forget(call);
                self.requests = 0;
                Taken::Moved(tablet)
            }
            Answer::NotYet(key) => Taken::NotYet(key),
        }
    }

    // The outstanding call is answered: its record has this place and stamp.
    fn finish(&mut self, place: u64, stamp: u64, outcome: Outcome)
        ensures { (call : Asked) (reply : Answered) → self.old.outstanding ≡ Some call → reply.place ≡ place
            → reply.stamp ≡ stamp → self.new ≡ done self.old call reply outcome }
    {
        let Some(call) = self.outstanding.take() else {
            return;
        };
        self.seen = self.seen.max(stamp);
        let receipt = receipt_of(call, place, stamp, outcome);
        // There is room, since `ask` reserved it.
        let _ = self.receipts.push(receipt);
    }
}

// The receipt of a call.
fn receipt_of(call: Call, place: u64, stamp: u64, outcome: Outcome) -> Receipt
    ensures { (reply : Answered) → reply.place ≡ place → reply.stamp ≡ stamp → result ≡ receipt_of_lem call reply outcome }
{
    Receipt {
        lane: lane_of(hash(call.key.bytes())),
        call,
        outcome,
        place,
        stamp,
    }
}

// The tablet that a request goes to, and its owner, by the cached range that has the key and by how many requests were
// sent; none if the key is to be looked up.
fn address_of(requests: u8, located: Option<Located>) -> Option<(u32, u8)>
    ensures { result ≡ address_of_lem requests located }
{
    let Located { tablet, owner, .. } = located?;
    if requests == MOST_REQUESTS {
        return None;
    }
    owner.map(|master| (tablet, master))
}

// The owner of a cached range, if one is cached.
fn owner_of(located: Option<Located>) -> Option<u8>
    ensures { result ≡ cached_owner located }
{
    located?.owner
}

// The question of a client where the key of a call is.
fn lookup_of(client: u32, call: &Call) -> Message
    ensures { (session : Known) → session.client ≡ client → result ≡ lookup_of_lem session call.now }
{
    Message {
        from: Node::Client(client),
        to: Node::Coordinator,
        body: Body::Lookup(Lookup {
            table: call.table,
            hash: hash(call.key.bytes()),
        }),
    }
}

// The request of a call to a master, of a client that has seen this stamp.
fn request_of(
    client: u32,
    seen: u64,
    call: &Call,
    tablet: u32,
    master: u8,
) -> Result<Message, NoMemory>
    ensures { IfOk result (λ request. (session : Known) → session.client ≡ client → session.seen ≡ seen
        → request ≡ request_of_lem session call.now tablet master) }
{
    Ok(Message {
        from: Node::Client(client),
        to: Node::Master(master),
        body: Body::Request(Request {
            tablet,
            seq: call.seq,
            seen,
            table: call.table,
            key: call.key.duplicate()?,
            op: call.op.duplicate()?,
        }),
    })
}
