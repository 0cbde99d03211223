ghost use Rattle.std.specs.Prelude.{◌≡◌, IfOk};
ghost use Rattle.rk_message.specs.Kinds.{kind_of};

use crate::calls::{Located, Lookup, Reply, Request};
use crate::handover::{Grant, Prepare, Ready, Tenure, Transfer};
use crate::kind::Kind;
use crate::pulling::{Got, Pull, Pulled, Want};
use crate::rebuilding::{CopySegment, ReadSegment, Rebuild, Rebuilt};
use crate::replication::{Append, Stored};
use rk_types::{NoMemory, Node};

/// A message: who sends it, who receives it, and what it says.
#[derive(PartialEq, Eq)]
pub struct Message {
    pub from: Node,
    pub to: Node,
    pub body: Body,
}

/// What a message says. Each kind has its sender and its receiver in brackets.
#[derive(Drop, PartialEq, Eq)]
pub enum Body {
    /// Carry out this call (client, master).
    Request(Request),
    /// What came of the call (master, client).
    Reply(Reply),
    /// Who owns the tablet of this hash? (client, coordinator)
    Lookup(Lookup),
    /// The tablet and its owner (coordinator, client).
    Located(Located),
    /// Keep these bytes of a segment (master, backup).
    Append(Append),
    /// So many bytes of the segment are kept (backup, master).
    Stored(Stored),
    /// Make ready to take the tablet over (coordinator, target).
    Prepare(Prepare),
    /// The tablet's entries begin here in the target's log (target, coordinator).
    Ready(Ready),
    /// Stop serving the tablet (coordinator, source).
    Close(Tenure),
    /// The tablet is frozen: what its next owner has to know (source, coordinator).
    Transfer(Transfer),
    /// Serve the tablet from now on (coordinator, target).
    Grant(Grant),
    /// Send the records from this place on (target, source).
    Pull(Pull),
    /// These records, and the place of the next ones (source, target).
    Pulled(Pulled),
    /// Send the records with these hashes first (target, source).
    Want(Want),
    /// The records with these hashes (source, target).
    Got(Got),
    /// All records are there and stored (target, coordinator).
    Joined(Tenure),
    /// The tablet is yours (coordinator, master).
    Own(Tenure),
    /// The tablet is another's now (coordinator, source).
    Release(Tenure),
    /// Rebuild the tablet from the logs of these masters (coordinator, master).
    Rebuild(Rebuild),
    /// Send this segment of a master's log (master, backup 1).
    Read(ReadSegment),
    /// The segment, if it was ever written (backup 1, master).
    Copy(CopySegment),
    /// The tablet is rebuilt and stored (master, coordinator).
    Rebuilt(Rebuilt),
}

// No derive, so that to drop a message is a call in proofs, and no cases of what it says.
impl Drop for Message {
    fn drop(self) {
        let Message {
            from: _,
            to: _,
            body: _,
        } = self;
    }
}

impl Message {
    /// What the message says, taken out of it.
    pub fn into_body(self) -> Body
        ensures { result ≡ self.body }
    {
        let Message {
            from: _,
            to: _,
            body,
        } = self;
        body
    }

    /// A message of its own with the same parts.
    pub fn duplicate(&self) -> Result<Message, NoMemory>
        ensures { IfOk result (λ message. message ≡ self.now) }
    {
        Ok(Message {
            from: self.from,
            to: self.to,
            body: self.body.duplicate()?,
        })
    }
}

impl Body {
    /// What the message is for.
    pub fn kind(&self) -> Kind
        ensures { result ≡ kind_of self.now }
    {
        match self {
            Body::Request(_) => Kind::Request,
            Body::Reply(_) => Kind::Reply,
            Body::Lookup(_) => Kind::Lookup,
            Body::Located(_) => Kind::Located,
            Body::Append(_) => Kind::Append,
            Body::Stored(_) => Kind::Stored,
            Body::Prepare(_) => Kind::Prepare,
            Body::Ready(_) => Kind::Ready,
            Body::Close(_) => Kind::Close,
            Body::Transfer(_) => Kind::Transfer,
            Body::Grant(_) => Kind::Grant,
            Body::Pull(_) => Kind::Pull,
            Body::Pulled(_) => Kind::Pulled,
            Body::Want(_) => Kind::Want,
            Body::Got(_) => Kind::Got,
            Body::Joined(_) => Kind::Joined,
            Body::Own(_) => Kind::Own,
            Body::Release(_) => Kind::Release,
            Body::Rebuild(_) => Kind::Rebuild,
            Body::Read(_) => Kind::Read,
            Body::Copy(_) => Kind::Copy,
            Body::Rebuilt(_) => Kind::Rebuilt,
        }
    }

    /// A body of its own with the same parts.
    pub fn duplicate(&self) -> Result<Body, NoMemory>
        ensures { IfOk result (λ body. body ≡ self.now) }
    {
        Ok(match self {
            Body::Request(request) => Body::Request(request.duplicate()?),
            Body::Reply(reply) => Body::Reply(reply.duplicate()?),
            Body::Lookup(lookup) => Body::Lookup(*lookup),
            Body::Located(located) => Body::Located(*located),
            Body::Append(append) => Body::Append(append.duplicate()?),
            Body::Stored(stored) => Body::Stored(*stored),
            Body::Prepare(prepare) => Body::Prepare(*prepare),
            Body::Ready(ready) => Body::Ready(*ready),
            Body::Close(tenure) => Body::Close(*tenure),
            Body::Transfer(transfer) => Body::Transfer(transfer.duplicate()?),
            Body::Grant(grant) => Body::Grant(grant.duplicate()?),
            Body::Pull(pull) => Body::Pull(*pull),
            Body::Pulled(pulled) => Body::Pulled(pulled.duplicate()?),
            Body::Want(want) => Body::Want(want.duplicate()?),
            Body::Got(got) => Body::Got(got.duplicate()?),
            Body::Joined(tenure) => Body::Joined(*tenure),
            Body::Own(tenure) => Body::Own(*tenure),
            Body::Release(tenure) => Body::Release(*tenure),
            Body::Rebuild(rebuild) => Body::Rebuild(rebuild.duplicate()?),
            Body::Read(read) => Body::Read(*read),
            Body::Copy(copy) => Body::Copy(copy.duplicate()?),
            Body::Rebuilt(rebuilt) => Body::Rebuilt(rebuilt.duplicate()?),
        })
    }
}
