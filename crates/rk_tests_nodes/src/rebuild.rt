ghost use Rattle.std.specs.Prelude.{◌≤◌, IfOk};
ghost use Rattle.rk_entry.specs.Lawful.{IsLawfulHeld};

use crate::comparing::same;
use rk_entry::{Carried, Entry, FIRST_SIDE_SEGMENT, encode};
use rk_rebuild::Gather;
use rk_tests::items::{WHOLE, ends, item};
use rk_types::{End, Held, Member};
use rk_world::{Merged, Reading};
use std::alloc::Global;
use std::process::Abort;
use std::test::Fail;

// A Joined of all of table 1 at term 1, which names the first side segment.
const JOINED: &[u8] =
    b"\x05\x00\x00\x00\x28\x00\x00\x00\x00\x00\x00\x00\x01\x00\x00\x00\x00\x00\x00\x00\x00\
    \xff\xff\xff\xff\xff\xff\xff\xff\x00\x00\x00\x00\x00\x00\x00\x01\x00\x00\x00\x01\x80\x00\x00\x01";

// An item: its client, its version, which is the seq too, its key, and its value, which a tombstone lacks.
type Row = (u32, u64, &'static [u8], &'static [u8]);

fn held(alloc: Global, row: Row) -> Result<Held, Fail>
    requires client { 1 ≤ row.0 }
    requires version { 1 ≤ row.1 }
    ensures { IfOk result IsLawfulHeld }
{
    let (client, version, key, value) = row;
    let item = item(alloc, key, version, value)?;
    Ok(Held { client, ..item })
}

// The spelling of an item is added to the bytes.
fn spell<R: Abort + AllocGlobal>(rt: &R, row: Row, bytes: &mut Vec<u8>) -> Result<(), Fail> {
    assert!(rt; row.0 > 0 && row.1 > 0);
    let entry = Entry::Held(held(rt.alloc(), row)?);
    encode(&entry, bytes)?;
    Ok(())
}

// The spellings of items.
fn spelled<R: Abort + AllocGlobal>(rt: &R, rows: &[Row]) -> Result<Vec<u8>, Fail> {
    let mut bytes = Vec::new(rt.alloc());
    for row in rows {
        spell(rt, *row, &mut bytes)?;
    }
    Ok(bytes)
}

// Master 2 gathers what these members have of table 1.
fn gather(alloc: Global, members: &[(u8, u64)]) -> Result<Gather, Fail> {
    let mut lineage = Vec::new(alloc);
    for (master, from) in members {
        lineage.push(Member {
            master: *master,
            from: *from,
        })?;
    }
    Ok(Gather::new(alloc, WHOLE, lineage, 2)?)
}

// Whether this segment of master 1 is read next and nothing else is taken; then it is taken.
fn take_next<R: Abort>(
    rt: &R,
    gather: &mut Gather,
    segment: u32,
    bytes: Option<&[u8]>,
) -> Result<(), Fail> {
    for (master, other) in [(9, segment), (1, 77)] {
        assert!(rt; !gather.take(master, other, None)?);
        same(rt, &gather.next(), &Some(Reading { master: 1, segment }));
    }
    assert!(rt; gather.take(1, segment, bytes)?);
    Ok(())
}

// The bytes of an item's value, none of a tombstone's.
fn value_of(item: &Held) -> &[u8] {
    match &item.value {
        Some(value) => value.bytes(),
        None => b"",
    }
}

// Whether these are the copies: version, key and value of each.
fn check_copies<R: Abort>(rt: &R, copies: &[Held], rows: &[(u64, &[u8], &[u8])]) {
    same(rt, &copies.len(), &rows.len());
    for (copy, (version, key, value)) in copies.iter().zip(rows) {
        same(rt, &copy.version, version);
        same(rt, &copy.key.bytes(), key);
        same(rt, &value_of(copy), value);
    }
}

// Such a segment of master 1, which has the spellings of these items and then the rest.
fn take_items<R: Abort + AllocGlobal>(
    rt: &R,
    gather: &mut Gather,
    segment: u32,
    rows: &[Row],
    rest: &[u8],
) -> Result<(), Fail> {
    let mut bytes = spelled(rt, rows)?;
    bytes.extend_from_slice(rest)?;
    take_next(rt, gather, segment, Some(bytes.as_slice()))
}

const MAIN: &[Row] = &[(1, 1, b"z", b"x"), (1, 2, b"a", b"x"), (3, 3, b"b", b"")];

// What master 1 counts from its second entry on, with the side segment that it names.
fn take_segments<R: Abort + AllocGlobal>(rt: &R, gather: &mut Gather) -> Result<(), Fail> {
    take_items(rt, gather, 1, MAIN, JOINED)?;
    take_next(rt, gather, 2, None)?;
    let side: [Row; 1] = [(4, 1, b"c", b"y")];
    take_items(rt, gather, FIRST_SIDE_SEGMENT, &side, b"")?;
    same(rt, &gather.next(), &None);
    Ok(())
}

// The copies, and the ends of calls.
fn check_merged<R: Abort + AllocGlobal>(rt: &R, merged: &Merged) -> Result<(), Fail> {
    let copies: [(u64, &[u8], &[u8]); 2] = [(1, b"c", b"y"), (3, b"b", b"")];
    check_copies(rt, merged.copies.as_slice(), &copies);
    let rows = [
        (3, 3, End::Deleted(3)),
        (4, 1, End::Written(1)),
        (1, 5, End::Written(5)),
    ];
    same(rt, &merged.ends, &ends(rt.alloc(), &rows)?);
    same(rt, &merged.floor, &6);
    Ok(())
}

// Of `a` master 2 has the newest version itself.
fn check_gathered<R: Abort + AllocGlobal>(rt: &R, gather: &Gather) -> Result<(), Fail> {
    same(rt, &gather.counted()?.len(), &3);
    let own = Entry::Held(item(rt.alloc(), b"a", 5, b"y")?);
    check_merged(rt, &gather.merge(&[&own])?)
}

// Master 2 rebuilds from its own log and from that of master 1.
#[test]
fn copies_what_the_own_log_lacks(rt: HostRuntime) -> Result<(), Fail> {
    let mut gather = gather(rt.alloc(), &[(1, 1), (2, 0)])?;
    take_segments(&rt, &mut gather)?;
    check_gathered(&rt, &gather)
}

// The log of master 1 alone.
fn take_one<R: Abort + AllocGlobal>(rt: &R, gather: &mut Gather) -> Result<(), Fail> {
    let rows: [Row; 2] = [(1, 2, b"a", b"x"), (2, 4, b"b", b"x")];
    take_items(rt, gather, 1, &rows, b"")?;
    take_next(rt, gather, 2, None)?;
    same(rt, &gather.next(), &None);
    Ok(())
}

// What master 2 carries: the end of client 1.
fn carried(alloc: Global) -> Result<Entry, Fail> {
    Ok(Entry::Carried(Carried {
        range: WHOLE,
        term: 1,
        floor: 9,
        ends: ends(alloc, &[(1, 2, End::Written(2))])?,
    }))
}

fn check_ends<R: Abort + AllocGlobal>(rt: &R, merged: &Merged) -> Result<(), Fail> {
    same(rt, &(merged.floor, merged.copies.as_slice().len()), &(9, 2));
    let rows = [(2, 4, End::Written(4)), (1, 2, End::Written(2))];
    same(rt, &merged.ends, &ends(rt.alloc(), &rows)?);
    Ok(())
}

fn check_carried<R: Abort + AllocGlobal>(rt: &R, gather: &Gather) -> Result<(), Fail> {
    let own = carried(rt.alloc())?;
    check_ends(rt, &gather.merge(&[&own])?)
}

// Master 2 is not of the lineage, and its own entries come last: the end of client 1 that they record again has its
// place there, and so the end of client 2 comes first.
#[test]
fn an_end_has_its_place_where_it_is_told_last(rt: HostRuntime) -> Result<(), Fail> {
    let mut gather = gather(rt.alloc(), &[(1, 0)])?;
    take_one(&rt, &mut gather)?;
    check_carried(&rt, &gather)
}
