use crate::comparing::same;
use crate::items::item;
use rk_types::{Key, Numbered, Range, Status, TextError, Value, bucket_of, hash, lane_of};
use std::alloc::Global;
use std::test::Fail;

// Hashes, lanes and buckets that were worked out apart from this code.
#[test]
fn hashes_keys(rt: HostRuntime) {
    let rows: [(&[u8], u64, u8, u16); 7] = [
        (b"a", 0xaf63_dc4c_8601_ec8c, 4, 401),
        (b"b", 0xaf63_df4c_8601_f1a5, 5, 564),
        (b"c", 0xaf63_de4c_8601_eff2, 2, 510),
        (b"k", 0xaf63_e64c_8601_fd8a, 2, 945),
        (b"i", 0xaf63_e44c_8601_fa24, 4, 836),
        (b"q", 0xaf63_ec4c_8602_07bc, 4, 247),
        (b"y", 0xaf63_f44c_8602_1554, 4, 682),
    ];
    for (bytes, wanted, lane, bucket) in rows {
        let found = hash(bytes);
        same(
            &rt,
            &(found, lane_of(found), bucket_of(found)),
            &(wanted, lane, bucket),
        );
    }
}

#[test]
fn refuses_what_is_no_text(rt: HostRuntime) {
    let rows: [(&[u8], Option<TextError>); 5] = [
        (b"", Some(TextError::Length(0))),
        (b"a b", Some(TextError::Byte(1))),
        (b"\x7f", Some(TextError::Byte(0))),
        (b"ab\x20", Some(TextError::Byte(2))),
        (b"!~", None),
    ];
    for (bytes, wanted) in rows {
        same(&rt, &Key::new(rt.alloc(), bytes).err(), &wanted);
    }
}

// What is wrong with a key and with a value of so many bytes.
fn faults(alloc: Global, count: usize) -> Result<(Option<TextError>, Option<TextError>), Fail> {
    let bytes = vec![in alloc; b'x'; count]?;
    let key = Key::new(alloc, bytes.as_slice()).err();
    let value = Value::new(alloc, bytes.as_slice()).err();
    Ok((key, value))
}

#[test]
fn measures_keys_and_values(rt: HostRuntime) -> Result<(), Fail> {
    for (count, key, value) in [
        (0, Some(TextError::Length(0)), None),
        (250, None, None),
        (251, Some(TextError::Length(251)), None),
        (65_000, Some(TextError::Length(65_000)), None),
        (
            65_001,
            Some(TextError::Length(65_001)),
            Some(TextError::Length(65_001)),
        ),
    ] {
        same(&rt, &faults(rt.alloc(), count)?, &(key, value));
    }
    Ok(())
}

// How many bytes the entry of an item takes whose value has so many bytes.
fn spelled(alloc: Global, count: usize) -> Result<u32, Fail> {
    let value = vec![in alloc; b'x'; count]?;
    Ok(item(alloc, b"a", 1, value.as_slice())?.spelled())
}

// Lengths of entries that were worked out apart from this code. An item without a value is a tombstone.
#[test]
fn spells_items(rt: HostRuntime) -> Result<(), Fail> {
    for (count, wanted) in [(0, 35), (1, 40), (8_192, 8_231), (8_193, 8_233)] {
        same(&rt, &spelled(rt.alloc(), count)?, &wanted);
    }
    Ok(())
}

#[test]
fn ranges_hold_hashes(rt: HostRuntime) {
    let low = Range {
        table: 1,
        first: 0,
        last: 9,
    };
    let held = [low.has(1, 9), low.has(1, 10), low.has(2, 9)];
    same(&rt, &held, &[true, false, false]);
    for (table, first, wanted) in [(1, 9, true), (1, 10, false), (2, 9, false)] {
        let last = 20;
        same(&rt, &low.meets(&Range { table, first, last }), &wanted);
    }
    same(&rt, &Status::Worn.number(), &10);
}

// The numbers 2, 5 and 7, of which 5 came twice.
fn numbered(alloc: Global) -> Result<Numbered<u64>, Fail> {
    let mut numbered = Numbered::new(alloc);
    for (number, value) in [(7, 70), (2, 20), (5, 50), (5, 51)] {
        numbered.insert(number, value)?;
    }
    Ok(numbered)
}

#[test]
fn keeps_values_by_number(rt: HostRuntime) -> Result<(), Fail> {
    let mut numbered = numbered(rt.alloc())?;
    same(
        &rt,
        &(numbered.get(5), numbered.number_at(1)),
        &(Some(&51), Some(5)),
    );
    same(
        &rt,
        &(numbered.remove(2), numbered.remove(2)),
        &(Some(20), None),
    );
    same(&rt, &numbered.count(), &2);
    Ok(())
}
