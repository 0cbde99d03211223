use super::frames::{
    ABSENT, APPEND, CLOSE, COND_PUT, COPY, DELETE, DELETED, GOT, GRANT, JOINED, LOCATED, LOOKUP,
    MISMATCH, MISSING, MOVED, NO_OWNER, NOT_YET, OWN, PREPARE, PULL, PULLED, PUT, READ, READY,
    REBUILD, REBUILT, RELEASE, REPLY, REQUEST, STORED, TRANSFER, WANT, WRITTEN,
};
use super::read;
use crate::comparing::same;
use rk_entry::Entry;
use rk_message::{
    Append, Body, CopySegment, Got, Grant, Located, Lookup, Message, Prepare, Pull, Pulled,
    ReadSegment, Ready, Rebuild, Rebuilt, Reply, Request, Stored, Tenure, Transfer, Want,
};
use rk_tests::items::{Told, ends, item, outcome_of};
use rk_types::{Answer, End, Held, Key, Listed, Member, NoMemory, Node, Op, Range, Token, Value};
use std::alloc::Global;
use std::process::Abort;
use std::test::Fail;

const CLIENT: Node = Node::Client(9);

const COORDINATOR: Node = Node::Coordinator;

const MASTER: Node = Node::Master(1);

const SOURCE: Node = Node::Master(2);

const TENURE: Tenure = Tenure { tablet: 1, term: 2 };

const TOKEN: Token = Token { bucket: 3, skip: 4 };

const RANGE: Range = Range {
    table: 7,
    first: 16,
    last: 32,
};

const ENDS: &[(u32, u64, End)] = &[(5, 6, End::Written(7)), (2, 1, End::Absent)];

// Whether the frame is read as this message.
fn check_read<R: Abort + AllocGlobal>(
    rt: &R,
    frame: &[u8],
    from: Node,
    to: Node,
    body: Body,
) -> Result<(), Fail> {
    let wanted = Message { from, to, body };
    same(rt, &read(rt, frame)?, &wanted);
    Ok(())
}

// Whether the frame is read as a request of this operation.
fn check_request<R: Abort + AllocGlobal>(rt: &R, frame: &[u8], op: Op) -> Result<(), Fail> {
    let request = Request {
        tablet: 1,
        seq: 2,
        seen: 3,
        table: 4,
        key: Key::new(rt.alloc(), b"k")?,
        op,
    };
    check_read(rt, frame, CLIENT, MASTER, Body::Request(request))
}

#[test]
fn reads_requests(rt: HostRuntime) -> Result<(), Fail> {
    check_request(&rt, REQUEST, Op::Get)?;
    check_request(&rt, DELETE, Op::Delete)?;
    check_request(&rt, PUT, Op::Put(Value::new(rt.alloc(), b"v")?))?;
    check_request(&rt, COND_PUT, Op::CondPut(5, Value::new(rt.alloc(), b"v")?))
}

// Whether the frame is read as a reply with this answer.
fn check_reply<R: Abort + AllocGlobal>(rt: &R, frame: &[u8], answer: Answer) -> Result<(), Fail> {
    let reply = Reply {
        seq: 1,
        stamp: 2,
        place: 3,
        answer,
    };
    check_read(rt, frame, MASTER, CLIENT, Body::Reply(reply))
}

#[test]
fn reads_outcomes(rt: HostRuntime) -> Result<(), Fail> {
    for (frame, told) in [
        (ABSENT, Told::Absent),
        (WRITTEN, Told::Written(4)),
        (DELETED, Told::Deleted(4)),
        (MISMATCH, Told::Mismatch(4)),
        (REPLY, Told::Found(4, b"v")),
    ] {
        let outcome = outcome_of(rt.alloc(), told)?;
        check_reply(&rt, frame, Answer::Done(outcome))?;
    }
    Ok(())
}

#[test]
fn reads_redirections(rt: HostRuntime) -> Result<(), Fail> {
    check_reply(&rt, MOVED, Answer::Moved(4))?;
    check_reply(&rt, NOT_YET, Answer::NotYet(Key::new(rt.alloc(), b"k")?))
}

#[test]
fn reads_where_tablets_are(rt: HostRuntime) -> Result<(), Fail> {
    let lookup = Lookup { table: 1, hash: 2 };
    check_read(&rt, LOOKUP, CLIENT, COORDINATOR, Body::Lookup(lookup))?;
    for (frame, owner) in [(LOCATED, Some(2)), (NO_OWNER, None)] {
        let located = Located {
            tablet: 1,
            range: RANGE,
            owner,
        };
        check_read(&rt, frame, COORDINATOR, CLIENT, Body::Located(located))?;
    }
    Ok(())
}

fn bytes(alloc: Global, bytes: &[u8]) -> Result<Listed<u8>, NoMemory> {
    Ok(Listed::from_vec(Vec::from_slice(alloc, bytes)?))
}

#[test]
fn reads_replication(rt: HostRuntime) -> Result<(), Fail> {
    let backup = Node::Backup(2);
    let stored = Stored {
        segment: 1,
        length: 2,
    };
    check_read(&rt, STORED, backup, MASTER, Body::Stored(stored))?;
    let append = Append {
        segment: 1,
        at: 2,
        bytes: bytes(rt.alloc(), b"\x00\xff ")?,
    };
    check_read(&rt, APPEND, MASTER, backup, Body::Append(append))
}

// Whether the frame is read as an order of the coordinator to a master.
fn check_order<R: Abort + AllocGlobal>(rt: &R, frame: &[u8], body: Body) -> Result<(), Fail> {
    check_read(rt, frame, COORDINATOR, MASTER, body)
}

#[test]
fn reads_orders(rt: HostRuntime) -> Result<(), Fail> {
    let prepare = Prepare {
        tenure: TENURE,
        range: RANGE,
    };
    check_order(&rt, PREPARE, Body::Prepare(prepare))?;
    check_order(&rt, CLOSE, Body::Close(TENURE))?;
    check_order(&rt, OWN, Body::Own(TENURE))?;
    check_order(&rt, RELEASE, Body::Release(TENURE))?;
    let grant = Grant {
        tenure: TENURE,
        source: 3,
        floor: 4,
        ends: ends(rt.alloc(), ENDS)?,
    };
    check_order(&rt, GRANT, Body::Grant(grant))
}

// Whether the frame is read as a report of a master to the coordinator.
fn check_report<R: Abort + AllocGlobal>(rt: &R, frame: &[u8], body: Body) -> Result<(), Fail> {
    check_read(rt, frame, MASTER, COORDINATOR, body)
}

#[test]
fn reads_reports(rt: HostRuntime) -> Result<(), Fail> {
    let ready = Ready {
        tenure: TENURE,
        place: 3,
    };
    check_report(&rt, READY, Body::Ready(ready))?;
    check_report(&rt, JOINED, Body::Joined(TENURE))?;
    let transfer = Transfer {
        tenure: TENURE,
        floor: 3,
        ends: ends(rt.alloc(), ENDS)?,
    };
    check_report(&rt, TRANSFER, Body::Transfer(transfer))?;
    let rebuilt = Rebuilt {
        tenure: TENURE,
        place: 3,
        ends: ends(rt.alloc(), ENDS)?,
    };
    check_report(&rt, REBUILT, Body::Rebuilt(rebuilt))
}

// Items of the key `k` of table 1 and client 3: version, seq and value of each.
fn entries(alloc: Global, rows: &[(u64, u64, &[u8])]) -> Result<Listed<Entry>, Fail> {
    let mut entries = Listed::new(alloc);
    for (version, seq, value) in rows {
        let item = item(alloc, b"k", *version, value)?;
        entries.push(Entry::Held(Held {
            client: 3,
            seq: *seq,
            ..item
        }))?;
    }
    Ok(entries)
}

fn hashes(alloc: Global, hashes: &[u64]) -> Result<Listed<u64>, NoMemory> {
    Ok(Listed::from_vec(Vec::from_slice(alloc, hashes)?))
}

#[test]
fn reads_pulls(rt: HostRuntime) -> Result<(), Fail> {
    let pull = Pull {
        tenure: TENURE,
        token: TOKEN,
    };
    check_read(&rt, PULL, MASTER, SOURCE, Body::Pull(pull))?;
    let pulled = Pulled {
        tenure: TENURE,
        token: TOKEN,
        next: Token { bucket: 5, skip: 6 },
        entries: entries(rt.alloc(), &[(2, 4, b"v"), (3, 5, b"")])?,
    };
    check_read(&rt, PULLED, SOURCE, MASTER, Body::Pulled(pulled))
}

#[test]
fn reads_wants(rt: HostRuntime) -> Result<(), Fail> {
    let want = Want {
        tenure: TENURE,
        hashes: hashes(rt.alloc(), &[3, 4])?,
    };
    check_read(&rt, WANT, MASTER, SOURCE, Body::Want(want))?;
    let got = Got {
        tenure: TENURE,
        hashes: hashes(rt.alloc(), &[3])?,
        entries: entries(rt.alloc(), &[(2, 4, b"v")])?,
    };
    check_read(&rt, GOT, SOURCE, MASTER, Body::Got(got))
}

// Whether the frame is read as a copy of these bytes.
fn check_copy<R: Abort + AllocGlobal>(
    rt: &R,
    frame: &[u8],
    bytes: Option<Listed<u8>>,
) -> Result<(), Fail> {
    let copy = CopySegment {
        tenure: TENURE,
        master: 3,
        segment: 4,
        bytes,
    };
    check_read(rt, frame, Node::Backup(1), MASTER, Body::Copy(copy))
}

#[test]
fn reads_copies(rt: HostRuntime) -> Result<(), Fail> {
    let read = ReadSegment {
        tenure: TENURE,
        master: 3,
        segment: 4,
    };
    check_read(&rt, READ, MASTER, Node::Backup(1), Body::Read(read))?;
    check_copy(&rt, MISSING, None)?;
    check_copy(&rt, COPY, Some(bytes(rt.alloc(), b"\x00\x01")?))
}

#[test]
fn reads_rebuilds(rt: HostRuntime) -> Result<(), Fail> {
    let mut lineage = Listed::new(rt.alloc());
    for (master, from) in [(3, 4), (5, 6)] {
        lineage.push(Member { master, from })?;
    }
    let rebuild = Rebuild {
        tenure: TENURE,
        range: RANGE,
        lineage,
    };
    check_read(&rt, REBUILD, COORDINATOR, MASTER, Body::Rebuild(rebuild))
}
