use crate::comparing::same;
use rk_priority::Wanted;
use rk_types::NoMemory;
use std::alloc::Global;
use std::process::Abort;
use std::test::Fail;

// The hashes 0 to 16 are wanted, each for the first time.
fn seventeen(alloc: Global) -> Result<Wanted, NoMemory> {
    let mut wanted = Wanted::new(alloc);
    for hash in 0..17 {
        wanted.want(hash)?;
    }
    Ok(wanted)
}

// Nothing is wanted: then 7 is once, and is the next batch.
fn check_first<R: Abort>(rt: &R, wanted: &mut Wanted) -> Result<(), Fail> {
    same(rt, &wanted.next_batch().len(), &0);
    same(rt, &wanted.got(&[]), &false);
    same(rt, &wanted.want(7)?, &true);
    same(rt, &wanted.want(7)?, &false);
    same(rt, &wanted.next_batch(), &[7].as_slice());
    Ok(())
}

// Only the batch that was sent is got, once, and 7 is resolved then.
fn check_got<R: Abort>(rt: &R, wanted: &mut Wanted) {
    for (hash, is_batch) in &[(8, false), (7, true), (7, false)] {
        same(rt, &wanted.got(&[*hash]), is_batch);
        same(rt, &wanted.resolved(7), &(*hash == 7));
    }
}

#[test]
fn wants_a_hash_once(rt: HostRuntime) -> Result<(), Fail> {
    let mut wanted = Wanted::new(rt.alloc());
    check_first(&rt, &mut wanted)?;
    check_got(&rt, &mut wanted);
    same(&rt, &wanted.want(7)?, &false);
    wanted.clear();
    same(&rt, &wanted.want(7)?, &true);
    Ok(())
}

const FIRST: &[u64] = &[0, 1, 2, 3, 4, 5, 6, 7, 8, 9, 10, 11, 12, 13, 14, 15];

// Seventeen distinct hashes make a batch of 16 and one of 1, which one more joins.
fn check_batches<R: Abort>(rt: &R, wanted: &mut Wanted) -> Result<(), Fail> {
    same(rt, &wanted.next_batch(), &FIRST);
    same(rt, &wanted.want(20)?, &true);
    same(rt, &wanted.next_batch(), &FIRST);
    same(rt, &wanted.got(FIRST), &true);
    same(rt, &wanted.next_batch(), &[16, 20].as_slice());
    Ok(())
}

#[test]
fn batches_of_sixteen(rt: HostRuntime) -> Result<(), Fail> {
    let mut wanted = seventeen(rt.alloc())?;
    check_batches(&rt, &mut wanted)
}
