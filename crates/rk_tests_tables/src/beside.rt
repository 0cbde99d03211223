use rk_bucket_table::BucketTable;
use rk_table::{END, FIRST, RecordTable, SortedTable};
use rk_types::{BUCKETS, Held, Key, NoMemory, Range, Token, Value, bucket_of, hash};
use std::alloc::Global;
use std::process::Abort;
use std::test::Fail;

// Each assertion is proved anew, and a call of this is not.
fn same<R: Abort, T: PartialEq>(rt: &R, found: &T, wanted: &T) {
    assert!(rt; *found == *wanted);
}

// The next number of a xorshift generator.
fn next(state: &mut u64) -> u64 {
    *state ^= *state << 13;
    *state ^= *state >> 7;
    *state ^= *state << 17;
    *state
}

// A letter and the last four digits of a number, as `k0123`.
fn name_of(number: u64) -> [u8; 5] {
    let mut name = [b'k'; 5];
    let mut left = number;
    for place in 0..4 {
        name[4 - place] = b'0' + (left % 10) as u8;
        left /= 10;
    }
    name
}

// An item of this key; a tombstone for every fourth version.
fn item_of(alloc: Global, table: u64, name: &[u8], version: u64) -> Result<Held, Fail> {
    let value = if version % 4 == 3 {
        None
    } else {
        Some(Value::new(alloc, name)?)
    };
    Ok(Held {
        table,
        version,
        client: 1,
        seq: version,
        key: Key::new(alloc, name)?,
        value,
    })
}

fn put<T: RecordTable>(table: &mut T, item: Held) -> Result<bool, NoMemory> {
    table.reserve(1)?;
    Ok(table.put_if_newer(item))
}

#[derive(Drop)]
struct Both {
    sorted: SortedTable,
    buckets: BucketTable,
}

// A range of a table: all of it, or what is between two hashes.
fn some_range(state: &mut u64) -> Range {
    let table = next(state) % 2;
    if next(state) % 2 == 0 {
        return Range {
            table,
            first: 0,
            last: u64::MAX,
        };
    }
    let (one, other) = (next(state), next(state));
    Range {
        table,
        first: one.min(other),
        last: one.max(other),
    }
}

// Scans both tables in batches from the first token to the end, at most so many times.
fn scan_all<R: Abort>(
    rt: &R,
    alloc: Global,
    both: &Both,
    range: &Range,
    limit: u32,
) -> Result<(), Fail> {
    let mut token = FIRST;
    for _ in 0..10_000 {
        if token == END || both.sorted.len() >= 1_000_000 || both.buckets.len() >= 1_000_000 {
            break;
        }
        let (mut found, mut wanted) = (Vec::new(alloc), Vec::new(alloc));
        let after = both.sorted.scan(range, &token, limit, &mut wanted)?;
        same(
            rt,
            &both.buckets.scan(range, &token, limit, &mut found)?,
            &after,
        );
        same(rt, &found.as_slice(), &wanted.as_slice());
        token = after;
    }
    same(rt, &token, &END);
    Ok(())
}

// One scan of both tables from some token on.
fn scan_once<R: Abort>(
    rt: &R,
    alloc: Global,
    both: &Both,
    range: &Range,
    from: &Token,
    limit: u32,
) -> Result<(), Fail> {
    if both.sorted.len() >= 1_000_000 || both.buckets.len() >= 1_000_000 {
        return Ok(());
    }
    let (mut found, mut wanted) = (Vec::new(alloc), Vec::new(alloc));
    let after = both.sorted.scan(range, from, limit, &mut wanted)?;
    same(
        rt,
        &both.buckets.scan(range, from, limit, &mut found)?,
        &after,
    );
    same(rt, &found.as_slice(), &wanted.as_slice());
    Ok(())
}

// What both tables have of a range, and of a hash.
fn look<R: Abort>(
    rt: &R,
    alloc: Global,
    both: &Both,
    range: &Range,
    hash: u64,
) -> Result<(), Fail> {
    let (mut found, mut wanted) = (Vec::new(alloc), Vec::new(alloc));
    both.sorted.live_items(range, &mut wanted)?;
    both.buckets.live_items(range, &mut found)?;
    both.sorted.at_hash(range, hash, &mut wanted)?;
    both.buckets.at_hash(range, hash, &mut found)?;
    same(rt, &found.as_slice(), &wanted.as_slice());
    same(rt, &both.buckets.len(), &both.sorted.len());
    Ok(())
}

// Puts an item into both tables.
fn put_both<R: Abort>(
    rt: &R,
    alloc: Global,
    both: &mut Both,
    table: u64,
    name: &[u8],
    version: u64,
) -> Result<(), Fail> {
    let put_there = put(&mut both.sorted, item_of(alloc, table, name, version)?)?;
    let put_here = put(&mut both.buckets, item_of(alloc, table, name, version)?)?;
    same(rt, &put_here, &put_there);
    Ok(())
}

// One call of both tables, picked as by chance.
fn turn<R: Abort>(rt: &R, alloc: Global, both: &mut Both, state: &mut u64) -> Result<(), Fail> {
    let name = name_of(next(state) % 1_500);
    let key = Key::new(alloc, &name)?;
    let table = next(state) % 2;
    match next(state) % 64 {
        0 => {
            let range = some_range(state);
            both.sorted.drop_range(&range);
            both.buckets.drop_range(&range);
        }
        1 => look(rt, alloc, both, &some_range(state), hash(&name))?,
        2 => scan_all(
            rt,
            alloc,
            both,
            &some_range(state),
            (next(state) % 400) as u32,
        )?,
        3..=7 => {
            let from = Token {
                bucket: bucket_of(hash(&name)),
                skip: (next(state) % 4) as u32,
            };
            scan_once(
                rt,
                alloc,
                both,
                &some_range(state),
                &from,
                (next(state) % 400) as u32,
            )?;
        }
        8..=15 => same(
            rt,
            &both.buckets.get(table, &key),
            &both.sorted.get(table, &key),
        ),
        _ => put_both(rt, alloc, both, table, &name, next(state) % 1_000)?,
    }
    Ok(())
}

#[test]
fn answers_as_the_sorted_table(rt: HostRuntime) -> Result<(), Fail> {
    let mut both = Both {
        sorted: SortedTable::new(rt.alloc()),
        buckets: BucketTable::new(rt.alloc())?,
    };
    let mut state = 88_172_645_463_325_252;
    for _ in 0..4_000 {
        turn(&rt, rt.alloc(), &mut both, &mut state)?;
    }
    look(&rt, rt.alloc(), &both, &some_range(&mut state), 0)?;
    Ok(())
}

// The bucket that is the first to have four of the keys k0 to k3072; they are more than three for each bucket.
fn bucket_of_four(alloc: Global) -> Result<u16, Fail> {
    let mut counts = vec![in alloc; 0_u16; usize::from(BUCKETS)]?;
    for number in 0..3_073 {
        let bucket = bucket_of(hash(format!(in alloc; "k{number}")?.as_bytes()));
        if let Some(count) = counts.get_mut(usize::from(bucket)) {
            *count = count.wrapping_add(1);
            if *count == 4 {
                return Ok(bucket);
            }
        }
    }
    Err(Fail::from("no bucket has four of the keys"))
}

// The last three of the four keys of the bucket in tables 1 and 2, and a tombstone of the first one in table 1.
fn table_of_four(alloc: Global, bucket: u16) -> Result<BucketTable, Fail> {
    let mut table = BucketTable::new(alloc)?;
    let mut count = 0;
    for number in 0..3_073 {
        let name = format!(in alloc; "k{number}")?;
        let name = name.as_bytes();
        if bucket_of(hash(name)) != bucket || count >= 4 {
            continue;
        }
        if count == 0 {
            put(&mut table, item_of(alloc, 1, name, 3)?)?;
        } else {
            put(&mut table, item_of(alloc, 1, name, 1)?)?;
            put(&mut table, item_of(alloc, 2, name, 1)?)?;
        }
        count += 1;
    }
    Ok(table)
}

// One scan of all of table 1 with a limit of one byte appends one item, and answers this token.
fn scan_one<R: Abort>(
    rt: &R,
    table: &BucketTable,
    from: &Token,
    next: Token,
    into: &mut Vec<Held>,
) -> Result<(), Fail> {
    let all = Range {
        table: 1,
        first: 0,
        last: u64::MAX,
    };
    let count = into.len();
    if table.len() < 1_000_000 {
        same(rt, &table.scan(&all, from, 1, into)?, &next);
    }
    same(rt, &into.len().wrapping_sub(count), &1);
    Ok(())
}

// Within a bucket items are counted one by one in the order of their hashes: those of another table and tombstones are not.
#[test]
fn counts_in_one_bucket(rt: HostRuntime) -> Result<(), Fail> {
    let bucket = bucket_of_four(rt.alloc())?;
    let table = table_of_four(rt.alloc(), bucket)?;
    same(&rt, &table.len(), &7);
    let (one, two) = (Token { bucket, skip: 1 }, Token { bucket, skip: 2 });
    let mut into = Vec::new(rt.alloc());
    scan_one(&rt, &table, &FIRST, one, &mut into)?;
    scan_one(&rt, &table, &one, two, &mut into)?;
    scan_one(&rt, &table, &two, END, &mut into)?;
    let mut last = 0;
    for item in into.as_slice() {
        same(
            &rt,
            &(item.table, last <= hash(item.key.bytes())),
            &(1, true),
        );
        last = hash(item.key.bytes());
    }
    Ok(())
}

#[test]
fn answers_as_the_sorted_table_once_chains_have_doubled(rt: HostRuntime) -> Result<(), Fail> {
    let mut both = Both {
        sorted: SortedTable::new(rt.alloc()),
        buckets: BucketTable::new(rt.alloc())?,
    };
    for number in 0..6_000 {
        put_both(&rt, rt.alloc(), &mut both, 1, &name_of(number), number)?;
    }
    let all = Range {
        table: 1,
        first: 0,
        last: u64::MAX,
    };
    look(&rt, rt.alloc(), &both, &all, hash(b"k1234"))?;
    scan_all(&rt, rt.alloc(), &both, &all, 20_480)
}
