// Whole drives on threads with replicas that fail: that they end, and what is written.
use rk_drive::{Plan, drive};
use rk_outside::{MemoryReplica, MemorySink, OpenGate};
use rk_types::Status;
use std::alloc::Global;
use std::process::Abort;
use std::sync::Wait;
use std::test::*;
use std::thread::Threads;

/// How many bytes a sink takes.
const ROOM: usize = 1 << 20;

// Replicas of which each fails at these of its calls.
fn replicas<'a>(alloc: Global, faults: &'a [u64]) -> Result<Vec<MemoryReplica<'a>>, Fail> {
    let mut replicas = Vec::with_capacity(alloc, 32)?;
    for _ in 0..32 {
        replicas.push(MemoryReplica::new(alloc).failing(faults))?;
    }
    Ok(replicas)
}

fn check<X: Abort + AllocGlobal + Threads + Wait + Sync>(
    rt: &X,
    plan: Plan,
    faults: &[u64],
    wanted: &str,
) -> Result<(), Fail> {
    let mut sink = MemorySink::new(rt.alloc(), ROOM)?;
    let mut replicas = replicas(rt.alloc(), faults)?;
    assert_eq!(rt; replicas.len(), 32);
    assert!(rt; plan.keys > 0);
    let status = drive(rt, rt.alloc(), &plan, &mut sink, &mut replicas, &OpenGate);
    assert_eq!(rt; status, Status::Done);
    assert_eq!(rt; sink.bytes(), wanted.as_bytes());
    assert_eq!(rt; replicas.len(), 32);
    Ok(())
}

// Four clients over so many keys, while replicas fail now and then.
fn check_where_replicas_fail<X: Abort + AllocGlobal + Threads + Wait + Sync>(
    rt: &X,
    keys: u32,
) -> Result<(), Fail> {
    let plan = Plan {
        clients: 4,
        calls: 24,
        keys,
        crash: None,
        history: false,
    };
    check(
        rt,
        plan,
        &[3, 7, 11],
        "calls 96\nanswered 96\nput 36 get 36 del 12 cput 12\nowner 2\naudit ok\n",
    )
}

#[test]
fn replicas_of_few_lanes_fail(rt: HostRuntime) -> Result<(), Fail> {
    check_where_replicas_fail(&rt, 2)
}

#[test]
fn replicas_of_all_lanes_fail(rt: HostRuntime) -> Result<(), Fail> {
    check_where_replicas_fail(&rt, 100)
}
