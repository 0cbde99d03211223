use crate::comparing::same;
use rk_backup::BackupLane;
use rk_backup_node::{take_append, take_read};
use rk_message::{Append, Body, Message, ReadSegment, Tenure};
use rk_outside::{Lost, MemoryReplica, Replica};
use rk_types::{Listed, NoMemory};
use std::alloc::Global;
use std::test::Fail;

// Bytes of segment 1 of a master, from the byte `at` on.
fn append_of(alloc: Global, at: u32, bytes: &[u8]) -> Result<Append, NoMemory> {
    Ok(Append {
        segment: 1,
        at,
        bytes: Listed::from_vec(Vec::from_slice(alloc, bytes)?),
    })
}

// How many bytes a backup reports in an answer.
fn stored_in(message: &Message) -> Option<u32> {
    match &message.body {
        Body::Stored(stored) => Some(stored.length),
        _ => None,
    }
}

// How many bytes a backup reports once it took such bytes of master 1.
fn told(
    backup: &mut BackupLane<MemoryReplica<'_>>,
    alloc: Global,
    at: u32,
    bytes: &[u8],
) -> Result<Option<u32>, Lost> {
    let Ok(append) = append_of(alloc, at, bytes) else {
        return Err(Lost::NoMemory);
    };
    // Nothing is said of how it was made: that it ends within a segment is seen here.
    if append.at as usize + append.bytes.as_slice().len() > 1_000 {
        return Ok(None);
    }
    Ok(stored_in(&take_append(backup, alloc, 1, &append)?))
}

// How many bytes the copy in an answer has, if there is one.
fn copied_in(message: &Message) -> Option<usize> {
    match &message.body {
        Body::Copy(copy) => Some(copy.bytes.as_ref()?.as_slice().len()),
        _ => None,
    }
}

// How many bytes the copy of a segment of master 1 has, if it has some, by what its log has.
fn copied(
    backup: &mut BackupLane<MemoryReplica<'_>>,
    alloc: Global,
    segment: u32,
    log: &[u8],
) -> Result<Option<usize>, Lost> {
    let read = ReadSegment {
        tenure: Tenure { tablet: 1, term: 2 },
        master: 1,
        segment,
    };
    Ok(copied_in(&take_read(backup, alloc, 3, read, log)?))
}

// Bytes that come again, or that others are stored for, or behind a gap are not stored.
#[test]
fn what_is_stored_is_told(rt: HostRuntime) {
    let mut backup = BackupLane::new(2, MemoryReplica::new(rt.alloc()));
    for (at, bytes, length) in [
        (0, b"abc", 3),
        (1, b"bcd", 4),
        (0, b"abc", 4),
        (2, b"xyz", 4),
        (9, b"xyz", 4),
    ] {
        same(
            &rt,
            &told(&mut backup, rt.alloc(), at, bytes),
            &Ok(Some(length)),
        );
    }
    same(&rt, &backup.into_replica().length(1, 1), &4);
}

#[test]
fn a_copy_ends_where_the_log_differs(rt: HostRuntime) -> Result<(), Fail> {
    let mut backup = BackupLane::new(2, MemoryReplica::new(rt.alloc()));
    told(&mut backup, rt.alloc(), 0, b"abc")?;
    let rows: [(u32, &[u8], Option<usize>); 4] = [
        (1, b"abcd", Some(3)),
        (1, b"ax", Some(1)),
        (1, b"", None),
        (2, b"abcd", None),
    ];
    for (segment, log, length) in rows {
        same(
            &rt,
            &copied(&mut backup, rt.alloc(), segment, log),
            &Ok(length),
        );
    }
    Ok(())
}

#[test]
fn a_device_that_fails_loses_the_message(rt: HostRuntime) {
    let replica = MemoryReplica::new(rt.alloc()).failing(&[1]).keeping(2);
    let mut backup = BackupLane::new(2, replica);
    same(
        &rt,
        &told(&mut backup, rt.alloc(), 0, b"abc"),
        &Err(Lost::Failed),
    );
    same(
        &rt,
        &copied(&mut backup, rt.alloc(), 1, b"abc"),
        &Ok(Some(2)),
    );
    same(&rt, &told(&mut backup, rt.alloc(), 0, b"abc"), &Ok(Some(3)));
}
