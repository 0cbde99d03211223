ghost use Rattle.std.specs.Prelude.{◌≡◌, ◌≤◌, length, IfOk};
ghost use Rattle.rk_entry.specs.Spelling.{spelled};
ghost use Rattle.rk_entry.specs.Lawful.{IsLawfulEntry};

use crate::comparing::same;
use crate::items::item;
use rk_entry::{Entry, FIRST_SIDE_SEGMENT, encode};
use rk_log::{MasterLog, Overreach};
use rk_segment::Segment;
use rk_types::{NoMemory, SEGMENT_BYTES};
use std::alloc::Global;
use std::process::Abort;
use std::test::Fail;

// A put of a value of so many bytes at a key of one byte.
#[tactic(auto, using(rk_entry::proofs::Sizes::held_spelled))]
fn put(alloc: Global, key: u8, count: usize) -> Result<Entry, Fail>
    ensures lawful { IfOk result IsLawfulEntry }
    ensures fits { IfOk result (λ entry. length (spelled entry) ≤ SEGMENT_BYTES) }
{
    let value = vec![in alloc; b'v'; count]?;
    let held = item(alloc, &[key], 1, value.as_slice())?;
    let _within = held.spelled();
    Ok(Entry::Held(held))
}

// Appends such a put to a log that has room.
fn append<R: Abort + AllocGlobal>(
    rt: &R,
    log: &mut MasterLog,
    key: u8,
    count: usize,
) -> Result<(), Fail>
    ensures { log.new.known ≡ log.old.known }
{
    let entry = put(rt.alloc(), key, count)?;
    assert!(rt; log.size() < 1 << 31);
    log.append(&entry)?;
    Ok(())
}

// What the first of two backups reports of a segment, or else the second.
fn told(log: &mut MasterLog, is_first: bool, segment: u32, count: u32) -> Result<(), Overreach>
    requires { length log.old.known ≡ 2 }
    ensures { length log.new.known ≡ 2 }
{
    log.stored(if is_first { 1 } else { 2 }, segment, count)
}

// What the second backup lacks first: of which segment, from which byte on, and how many bytes.
fn pending(log: &MasterLog) -> Result<Option<(u32, u32, usize)>, NoMemory>
    requires { length log.now.known ≡ 2 }
{
    let Some(piece) = log.pending(2) else {
        return Ok(None);
    };
    Ok(Some((piece.segment, piece.at, piece.bytes.len())))
}

// A log of one put, which takes 40 bytes.
fn log_of_one<R: Abort + AllocGlobal>(rt: &R) -> Result<MasterLog, Fail>
    ensures { IfOk result (λ log. length log.known ≡ 2) }
{
    let mut log = MasterLog::new(rt.alloc(), 2)?;
    append(rt, &mut log, b'a', 1)?;
    Ok(log)
}

// A backup reports what it has of a segment, and then so many entries are committed.
fn check_told<R: Abort>(rt: &R, log: &mut MasterLog, report: (bool, u32, u32), committed: u64)
    requires { length log.old.known ≡ 2 }
    ensures { length log.new.known ≡ 2 }
{
    let (is_first, segment, count) = report;
    same(rt, &told(log, is_first, segment, count), &Ok(()));
    same(rt, &log.committed(), &committed);
}

// An entry counts once the second backup holds it too.
#[test]
fn commits_what_both_hold(rt: HostRuntime) -> Result<(), Fail> {
    let mut log = log_of_one(&rt)?;
    check_told(&rt, &mut log, (true, 1, 40), 0);
    check_told(&rt, &mut log, (false, 1, 40), 1);
    check_told(&rt, &mut log, (false, 1, 7), 1);
    same(&rt, &pending(&log), &Ok(None));
    Ok(())
}

// Whether an entry is such a put.
fn check_put<R: Abort + AllocGlobal>(
    rt: &R,
    entry: &Entry,
    key: u8,
    count: usize,
) -> Result<(), Fail> {
    let wanted = put(rt.alloc(), key, count)?;
    same(rt, entry, &wanted);
    Ok(())
}

// Whether the entries from a place on are puts at these keys.
fn check_entries<R: Abort + AllocGlobal>(
    rt: &R,
    log: &MasterLog,
    place: u64,
    keys: &[u8],
    count: usize,
) -> Result<(), Fail> {
    assert!(rt; place <= log.length());
    let entries = log.entries_from(place)?;
    same(rt, &entries.len(), &keys.len());
    for (entry, key) in entries.iter().zip(keys) {
        check_put(rt, entry, *key, count)?;
    }
    Ok(())
}

#[test]
fn reads_its_entries(rt: HostRuntime) -> Result<(), Fail> {
    let log = log_of_one(&rt)?;
    check_entries(&rt, &log, 0, b"a", 1)?;
    check_entries(&rt, &log, 1, b"", 1)
}

// What is too much for the first backup to report of a segment.
fn check_excess<R: Abort>(rt: &R, log: &mut MasterLog, segment: u32, bytes: u32, limit: u32)
    requires { length log.old.known ≡ 2 }
    ensures { length log.new.known ≡ 2 }
{
    let excess = Overreach {
        length: bytes,
        limit,
    };
    same(rt, &told(log, true, segment, bytes), &Err(excess));
}

// No backup holds more than there is.
#[test]
fn refuses_what_goes_too_far(rt: HostRuntime) -> Result<(), Fail> {
    let mut log = log_of_one(&rt)?;
    check_excess(&rt, &mut log, 1, 41, 40);
    check_excess(&rt, &mut log, 2, 1, 0);
    same(&rt, &told(&mut log, true, 2, 0), &Ok(()));
    Ok(())
}

// Fifteen puts with values of 8,192 bytes take 123,465 bytes of segment 1, and the sixteenth begins segment 2.
fn log_of_sixteen<R: Abort + AllocGlobal>(rt: &R) -> Result<MasterLog, Fail>
    ensures { IfOk result (λ log. length log.known ≡ 2) }
{
    let mut log = MasterLog::new(rt.alloc(), 2)?;
    'puts: for key in b'a'..=b'p' {
        append(rt, &mut log, key, 8_192)?;
    }
    Ok(log)
}

// What the second backup lacks first.
fn check_pending<R: Abort>(rt: &R, log: &MasterLog, wanted: (u32, u32, usize))
    requires { length log.now.known ≡ 2 }
{
    same(rt, &pending(log), &Ok(Some(wanted)));
}

// Whether the bytes are those of the last of the sixteen puts.
fn check_last<R: Abort + AllocGlobal>(rt: &R, bytes: &[u8]) -> Result<(), Fail> {
    let mut last = Vec::new(rt.alloc());
    encode(&put(rt.alloc(), b'p', 8_192)?, &mut last)?;
    same(rt, &bytes, &last.as_slice());
    Ok(())
}

#[test]
fn begins_a_segment_where_an_entry_has_no_room(rt: HostRuntime) -> Result<(), Fail> {
    let log = log_of_sixteen(&rt)?;
    same(&rt, &(log.length(), log.bytes(1).len()), &(16, 123_465));
    check_pending(&rt, &log, (1, 0, 123_465));
    check_last(&rt, log.bytes(2))
}

// The last two entries end in different segments.
#[test]
fn reads_entries_of_two_segments(rt: HostRuntime) -> Result<(), Fail> {
    let log = log_of_sixteen(&rt)?;
    check_entries(&rt, &log, 14, b"op", 8_192)
}

// The last entry is not committed before those in segment 1.
#[test]
fn commits_segments_in_order(rt: HostRuntime) -> Result<(), Fail> {
    let mut log = log_of_sixteen(&rt)?;
    check_told(&rt, &mut log, (true, 2, 8_231), 0);
    check_told(&rt, &mut log, (false, 2, 8_231), 0);
    check_told(&rt, &mut log, (true, 1, 123_465), 0);
    check_told(&rt, &mut log, (false, 1, 123_465), 16);
    Ok(())
}

// A log with a side segment of four bytes alone.
fn log_with_side(alloc: Global) -> Result<MasterLog, Fail>
    ensures { IfOk result (λ log. length log.known ≡ 2) }
{
    let mut side = Segment::new(alloc, 9)?;
    side.append(b"side")?;
    let mut log = MasterLog::new(alloc, 2)?;
    log.add_side(side)?;
    Ok(log)
}

// The second backup reports what it has of segment 1, and what it lacks first then.
fn check_sent<R: Abort>(rt: &R, log: &mut MasterLog, count: u32, wanted: (u32, u32, usize))
    requires { length log.old.known ≡ 2 }
    ensures { length log.new.known ≡ 2 }
{
    same(rt, &told(log, false, 1, count), &Ok(()));
    check_pending(rt, log, wanted);
}

// Main segments come first, each from the known length on, and then the side segments.
#[test]
fn sends_main_segments_first(rt: HostRuntime) -> Result<(), Fail> {
    let mut log = log_with_side(rt.alloc())?;
    check_pending(&rt, &log, (FIRST_SIDE_SEGMENT, 0, 4));
    append(&rt, &mut log, b'a', 1)?;
    check_pending(&rt, &log, (1, 0, 40));
    check_sent(&rt, &mut log, 30, (1, 30, 10));
    check_sent(&rt, &mut log, 40, (FIRST_SIDE_SEGMENT, 0, 4));
    Ok(())
}
