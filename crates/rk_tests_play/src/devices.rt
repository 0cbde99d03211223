// Devices that fail: what is written then, and how the run ends.
use crate::playing::{ROOM, SETUP, joined, replicas};
use rk_outside::{MemorySink, MemorySource, Replica};
use rk_play::play;
use rk_types::Status::{self, Done, ReadFault, ReplicaFault, WriteFault};
use std::process::Abort;
use std::test::Fail;

// A call and what it reads, behind the setup, and what they write.
const CALLS: (&str, &str) = (
    "call 1 put 1 a x\nsettle\ncall 1 get 1 a\nsettle\nhistory\n",
    "reply 1 1 written 1\nreply 1 2 found 1 x\n\
     entry 1 4 1 1 put 1 a x gives written 1\nentry 2 4 1 2 get 1 a gives found 1 x\n",
);

// A crash between a call and what it reads.
const CRASH: (&str, &str) = (
    "call 1 put 1 a x\nsettle\ncrash 1\nsettle\ncall 1 get 1 a\nsettle\n",
    "reply 1 1 written 1\nreply 1 2 found 1 x\n",
);

// A call that one backup has a part of, and the other has whole, when its master crashes.
const TORN: (&str, &str) = (
    "call 1 put 1 a x\nturn 4\ndeliver 4 1\ndeliver 4 2\nturn 4\ndeliver 4 3\nturn 4\n\
     deliver 4 5\ndeliver 4 6\nforget 4 7\nforget 4 5\ncrash 1\nnotice 1\nsettle\nhistory\n",
    "reply 1 1 written 1\nentry 1 4 1 1 put 1 a x gives written 1\n",
);

// So many calls of a replica are more than a run makes here.
const EVERY: usize = 1_000;

// The numbers from this one on.
fn from<R: AllocGlobal>(rt: &R, first: u64) -> Result<Vec<u64>, Fail> {
    let mut calls = Vec::new(rt.alloc());
    let mut call = first;
    for _ in 0..EVERY {
        calls.push(call)?;
        call = call.saturating_add(1);
    }
    Ok(calls)
}

// Plays a script with a source and a sink that fail at some of their calls, and tests what comes of it.
fn check_streams<R: Abort + AllocGlobal>(
    rt: &R,
    source: MemorySource,
    sink: MemorySink,
    text: &str,
    status: Status,
) -> Result<(), Fail> {
    let mut source = source;
    let mut sink = sink;
    let mut replicas = replicas(rt.alloc(), 0, &[], 0)?;
    let found = play(rt.alloc(), &mut source, &mut sink, &mut replicas).status;
    assert_eq!(rt; sink.bytes(), text.as_bytes());
    assert_eq!(rt; found, status);
    Ok(())
}

// Plays a script in which some calls of the replica at a place fail and keep so many bytes, and tests what comes of it: how
// long the first segment of master 1 is in that replica, too.
fn check_replica<R: Abort + AllocGlobal>(
    rt: &R,
    lines: &str,
    place: usize,
    failing: &[u64],
    kept: usize,
    wanted: (&str, Status, u32),
) -> Result<(), Fail> {
    let script = joined(rt.alloc(), &[SETUP, lines])?;
    let mut source = MemorySource::new(script.as_bytes());
    let mut sink = MemorySink::new(rt.alloc(), ROOM)?;
    let mut replicas = replicas(rt.alloc(), place, failing, kept)?;
    let found = play(rt.alloc(), &mut source, &mut sink, &mut replicas).status;
    assert_eq!(rt; sink.bytes(), wanted.0.as_bytes(), "{script}");
    assert_eq!(rt; found, wanted.1, "{script}");
    let length = replicas.get(place).map(|replica| replica.length(1, 1));
    assert_eq!(rt; length, Some(wanted.2), "{script}");
    Ok(())
}

#[test]
fn sources_and_sinks_fail(rt: HostRuntime) -> Result<(), Fail> {
    let script = joined(rt.alloc(), &[SETUP, CALLS.0])?;
    for call in [1, 2] {
        let failing = [call];
        let source = MemorySource::new(script.as_bytes()).failing(&failing);
        let sink = MemorySink::new(rt.alloc(), ROOM)?;
        check_streams(&rt, source, sink, "", ReadFault)?;
    }
    let source = MemorySource::new(script.as_bytes());
    let sink = MemorySink::new(rt.alloc(), ROOM)?.at_most(8).failing(&[2]);
    check_streams(&rt, source, sink, "reply 1 ", WriteFault)?;
    let source = MemorySource::new(script.as_bytes());
    let sink = MemorySink::new(rt.alloc(), ROOM)?.taking_nothing(&[1]);
    check_streams(&rt, source, sink, "", WriteFault)?;
    // Pieces of any length do no harm.
    let source = MemorySource::new(script.as_bytes()).at_most(1);
    let sink = MemorySink::new(rt.alloc(), ROOM)?.at_most(1);
    check_streams(&rt, source, sink, CALLS.1, Done)
}

#[test]
fn backups_fail_to_append(rt: HostRuntime) -> Result<(), Fail> {
    let every = from(&rt, 1)?;
    let every = every.as_slice();
    check_replica(&rt, CALLS.0, 4, every, 0, ("", ReplicaFault, 0))?;
    check_replica(&rt, CALLS.0, 12, every, 0, ("", ReplicaFault, 0))?;
    check_replica(&rt, CALLS.0, 4, &[1], 0, (CALLS.1, Done, 40))?;
    check_replica(&rt, CALLS.0, 4, &[1], 17, (CALLS.1, Done, 40))?;
    check_replica(&rt, TORN.0, 4, &[1], 39, (TORN.1, Done, 39))
}

#[test]
fn backups_fail_to_read(rt: HostRuntime) -> Result<(), Fail> {
    let every = from(&rt, 2)?;
    let replied = "reply 1 1 written 1\n";
    check_replica(&rt, CRASH.0, 4, &[2], 0, (CRASH.1, Done, 40))?;
    check_replica(
        &rt,
        CRASH.0,
        4,
        every.as_slice(),
        0,
        (replied, ReplicaFault, 40),
    )
}
