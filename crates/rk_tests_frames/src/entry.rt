ghost use Rattle.std.specs.Prelude.{IfOk};
ghost use Rattle.rk_entry.specs.Lawful.{IsLawfulEntry};

use crate::comparing::{same, same_in};
use rk_entry::{
    BAD_BODY_LENGTH, BAD_CHOICE, BAD_KEY, BAD_KIND, BAD_MARK, BAD_NUMBER, BAD_VALUE, Carried,
    DecodeError, Entry, Kind, decode, encode, entries, entry_len,
};
use rk_tests::items::{ends, item, spoilt};
use rk_types::{End, NoMemory, Range};
use std::alloc::Global;
use std::process::Abort;
use std::test::Fail;

mod vectors;

// Spellings that were made apart from this code, one of each kind.
const OBJECT: &[u8] = b"\x01\x00\x00\x00\x23\
    \x00\x00\x00\x00\x00\x00\x00\x01\x00\x00\x00\x00\x00\x00\x00\x01\
    \x00\x00\x00\x01\x00\x00\x00\x00\x00\x00\x00\x01\x01a\x00\x00\x00\x01x";

const TOMBSTONE: &[u8] = b"\x02\x00\x00\x00\x1e\
    \x00\x00\x00\x00\x00\x00\x00\x01\x00\x00\x00\x00\x00\x00\x00\x02\
    \x00\x00\x00\x01\x00\x00\x00\x00\x00\x00\x00\x02\x01a";

const MET_ANOTHER: &[u8] = b"\x03\x00\x00\x00\x1f\
    \x00\x00\x00\x00\x00\x00\x00\x01\x00\x00\x00\x00\x00\x00\x00\x01\
    \x00\x00\x00\x01\x00\x00\x00\x00\x00\x00\x00\x02\x01\x01a";

const MET_NONE: &[u8] = b"\x03\x00\x00\x00\x1f\
    \x00\x00\x00\x00\x00\x00\x00\x01\x00\x00\x00\x00\x00\x00\x00\x00\
    \x00\x00\x00\x01\x00\x00\x00\x00\x00\x00\x00\x02\x02\x01a";

const CARRIED: &[u8] = b"\x04\x00\x00\x00\x7e\
    \x00\x00\x00\x00\x00\x00\x00\x01\x00\x00\x00\x00\x00\x00\x00\x10\
    \x00\x00\x00\x00\x00\x00\x00\x20\x00\x00\x00\x00\x00\x00\x00\x02\
    \x00\x00\x00\x00\x00\x00\x00\x03\x00\x04\
    \x00\x00\x00\x01\x00\x00\x00\x00\x00\x00\x00\x01\x01\x00\x00\x00\x00\x00\x00\x00\x01\
    \x00\x00\x00\x02\x00\x00\x00\x00\x00\x00\x00\x07\x02\x00\x00\x00\x00\x00\x00\x00\x02\
    \x00\x00\x00\x03\x00\x00\x00\x00\x00\x00\x00\x01\x03\x00\x00\x00\x00\x00\x00\x00\x00\
    \x00\x00\x00\x05\x00\x00\x00\x00\x00\x00\x00\x01\x04\x00\x00\x00\x00\x00\x00\x00\x00";

const JOINED: &[u8] = b"\x05\x00\x00\x00\x2c\
    \x00\x00\x00\x00\x00\x00\x00\x01\x00\x00\x00\x00\x00\x00\x00\x05\
    \x00\x00\x00\x00\x00\x00\x00\x09\x00\x00\x00\x00\x00\x00\x00\x03\
    \x00\x00\x00\x02\x80\x00\x00\x01\x80\x00\x00\x03";

const SPELLINGS: &[&[u8]] = &[OBJECT, TOMBSTONE, MET_ANOTHER, MET_NONE, CARRIED, JOINED];

// The entry that the bytes spell, whatever follows them.
fn read<R: Abort + AllocGlobal>(rt: &R, spelling: &[u8]) -> Result<Entry, Fail>
    ensures { IfOk result IsLawfulEntry }
{
    let mut bytes = Vec::from_slice(rt.alloc(), spelling)?;
    bytes.push(0)?;
    let (entry, count) = decode(rt.alloc(), bytes.as_slice())?;
    same(rt, &count, &spelling.len());
    Ok(entry)
}

// Whether the bytes are the spelling of the entry.
fn check_spelled<R: Abort + AllocGlobal>(rt: &R, entry: &Entry, spelling: &[u8]) -> Result<(), Fail>
    requires { IsLawfulEntry entry.now }
{
    same(rt, &(entry_len(entry) as usize), &spelling.len());
    let mut bytes = Vec::new(rt.alloc());
    encode(entry, &mut bytes)?;
    same(rt, &bytes.as_slice(), &spelling);
    Ok(())
}

fn check_twin<R: Abort>(rt: &R, entry: &Entry) -> Result<(), NoMemory> {
    same(rt, &entry.duplicate()?, entry);
    Ok(())
}

// Whether the bytes are read and spelled again, and a duplicate of the entry is equal.
fn check_whole<R: Abort + AllocGlobal>(rt: &R, spelling: &[u8]) -> Result<(), Fail> {
    let entry = read(rt, spelling)?;
    check_twin(rt, &entry)?;
    check_spelled(rt, &entry, spelling)
}

#[test]
fn reads_what_is_spelled(rt: HostRuntime) -> Result<(), Fail> {
    for spelling in SPELLINGS {
        check_whole(&rt, spelling)?;
    }
    Ok(())
}

#[test]
fn an_entry_is_cut_wherever_it_ends_early(rt: HostRuntime) {
    for spelling in SPELLINGS {
        for end in 0..spelling.len() {
            let found = decode(rt.alloc(), &spelling[..end]).err();
            same(&rt, &found, &Some(DecodeError::Cut));
        }
    }
}

// Whether the bytes spell the item of `a` whose value has so many bytes.
fn check_item<R: Abort + AllocGlobal>(rt: &R, spelling: &[u8], count: usize) -> Result<(), Fail> {
    let value = vec![in rt.alloc(); b'x'; count]?;
    let held = item(rt.alloc(), b"a", 1, value.as_slice())?;
    same(rt, &read(rt, spelling)?, &Entry::Held(held));
    Ok(())
}

#[test]
fn reads_an_item(rt: HostRuntime) -> Result<(), Fail> {
    check_item(&rt, OBJECT, 1)
}

#[test]
fn reads_ends_that_are_carried(rt: HostRuntime) -> Result<(), Fail> {
    let ends = ends(
        rt.alloc(),
        &[
            (1, 1, End::Written(1)),
            (2, 7, End::Deleted(2)),
            (3, 1, End::Absent),
            (5, 1, End::Mismatch(0)),
        ],
    )?;
    let carried = Entry::Carried(Carried {
        range: Range {
            table: 1,
            first: 16,
            last: 32,
        },
        term: 2,
        floor: 3,
        ends,
    });
    same(&rt, &read(&rt, CARRIED)?, &carried);
    Ok(())
}

// The rows are a place, the byte that is put there, and the fault that it makes.
fn check_faults<R: Abort + AllocGlobal>(
    rt: &R,
    spelling: &[u8],
    rows: &[(usize, u8, u8)],
) -> Result<(), Fail> {
    for (place, byte, fault) in rows {
        let bytes = spoilt(rt.alloc(), spelling, &[(*place, *byte)])?;
        let found = decode(rt.alloc(), bytes.as_slice()).err();
        same_in(rt, *place, &found, &Some(DecodeError::Bad(*fault)));
    }
    Ok(())
}

// Spellings, and faults of each that were worked out apart from this code: in each field of each kind.
const FAULTS: &[(&[u8], &[(usize, u8, u8)])] = &[
    (
        OBJECT,
        &[
            (0, 6, BAD_KIND),
            (0, 17, BAD_BODY_LENGTH),
            (4, 0x21, BAD_BODY_LENGTH),
            (4, 0x24, BAD_BODY_LENGTH),
            (12, 0, BAD_NUMBER),
            (20, 0, BAD_NUMBER),
            (24, 0, BAD_NUMBER),
            (32, 0, BAD_NUMBER),
            (33, 0, BAD_KEY),
            (33, 251, BAD_KEY),
            (34, 0x20, BAD_KEY),
            (37, 0x21, BAD_VALUE),
            (38, 2, BAD_BODY_LENGTH),
            (39, 0x7f, BAD_VALUE),
        ],
    ),
    (
        TOMBSTONE,
        &[
            (4, 0x1d, BAD_BODY_LENGTH),
            (12, 0, BAD_NUMBER),
            (20, 0, BAD_NUMBER),
            (24, 0, BAD_NUMBER),
            (32, 0, BAD_NUMBER),
            (33, 0, BAD_KEY),
            (33, 2, BAD_BODY_LENGTH),
            (34, 0x20, BAD_KEY),
        ],
    ),
    (
        MET_ANOTHER,
        &[
            (4, 0x1e, BAD_BODY_LENGTH),
            (12, 0, BAD_NUMBER),
            (24, 0, BAD_NUMBER),
            (32, 0, BAD_NUMBER),
            (33, 0, BAD_CHOICE),
            (33, 2, BAD_CHOICE),
            (33, 3, BAD_CHOICE),
            (34, 0, BAD_KEY),
            (34, 2, BAD_BODY_LENGTH),
            (35, 0x20, BAD_KEY),
        ],
    ),
    (MET_NONE, &[(20, 1, BAD_CHOICE)]),
    (
        CARRIED,
        &[
            (4, 0x7f, BAD_BODY_LENGTH),
            (12, 0, BAD_NUMBER),
            (28, 15, BAD_NUMBER),
            (36, 0, BAD_NUMBER),
            (44, 0, BAD_NUMBER),
            (46, 5, BAD_BODY_LENGTH),
            (50, 0, BAD_NUMBER),
            (58, 0, BAD_NUMBER),
            (59, 0, BAD_CHOICE),
            (59, 5, BAD_CHOICE),
            (67, 0, BAD_NUMBER),
            (71, 1, BAD_CHOICE),
            (71, 0, BAD_NUMBER),
            (109, 1, BAD_NUMBER),
            (122, 9, BAD_CHOICE),
        ],
    ),
    (
        JOINED,
        &[
            (4, 0x2d, BAD_BODY_LENGTH),
            (12, 0, BAD_NUMBER),
            (28, 4, BAD_NUMBER),
            (36, 0, BAD_NUMBER),
            (40, 3, BAD_BODY_LENGTH),
            (44, 0, BAD_NUMBER),
            (45, 0, BAD_NUMBER),
            (48, 1, BAD_CHOICE),
        ],
    ),
];

#[test]
fn names_the_first_fault(rt: HostRuntime) -> Result<(), Fail> {
    for (spelling, rows) in FAULTS {
        check_faults(&rt, spelling, rows)?;
    }
    Ok(())
}

// The spelling of an item whose value has 8,193 bytes: it has a kind of its own, and a mark.
fn long_object(alloc: Global) -> Result<Vec<u8>, NoMemory> {
    let mut bytes = Vec::from_slice(alloc, b"\x11\x00\x00\x20\x24")?;
    bytes.extend_from_slice(&OBJECT[5..35])?;
    bytes.extend_from_slice(b"\x00\x00\x20\x01")?;
    for _ in 0..8_193 {
        bytes.push(b'x')?;
    }
    bytes.push(0x54)?;
    Ok(bytes)
}

#[test]
fn marks_a_long_value(rt: HostRuntime) -> Result<(), Fail> {
    let bytes = long_object(rt.alloc())?;
    same(&rt, &bytes.len(), &8_233);
    check_whole(&rt, bytes.as_slice())?;
    check_item(&rt, bytes.as_slice(), 8_193)?;
    let rows = [(8_232, 0x55, BAD_MARK), (37, 0x1f, BAD_VALUE)];
    check_faults(&rt, bytes.as_slice(), &rows)
}

// What is spelled as a short object must not be long.
#[test]
fn a_short_object_has_no_long_value(rt: HostRuntime) -> Result<(), Fail> {
    let bytes = long_object(rt.alloc())?;
    let short = spoilt(rt.alloc(), bytes.as_slice(), &[(0, 0x01), (4, 0x22)])?;
    let found = decode(rt.alloc(), short.as_slice()).err();
    same(&rt, &found, &Some(DecodeError::Bad(BAD_VALUE)));
    Ok(())
}

#[test]
fn numbers_the_kinds(rt: HostRuntime) -> Result<(), Fail> {
    same(&rt, &read(&rt, OBJECT)?.kind(), &Kind::Object);
    Ok(())
}

// Two entries come before an entry that is cut.
#[test]
fn stops_where_no_entry_stands(rt: HostRuntime) -> Result<(), Fail> {
    let mut bytes = Vec::from_slice(rt.alloc(), OBJECT)?;
    bytes.extend_from_slice(TOMBSTONE)?;
    bytes.extend_from_slice(&JOINED[..48])?;
    let (found, count) = entries(rt.alloc(), bytes.as_slice())?;
    same(&rt, &(found.len(), count), &(2, 75));
    Ok(())
}
