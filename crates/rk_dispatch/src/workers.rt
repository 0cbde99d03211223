// The queue at work: two givers and two takers, each on a thread of its own.
ghost use Rattle.std.specs.Prelude.{◌≡◌, ◌<◌, ◌-◌, ◌++◌, [], IfOk, take};
ghost use Rattle.rk_dispatch.specs.Balance.{AreSame, PARTS, account, joined as both};
ghost use Rattle.rk_dispatch.specs.Queue.{HasGiven, HasTaken, IsOf, account_of};

use crate::parcels::{ParcelPass, Parcels};
use rk_types::{NoMemory, Parcel};
use std::alloc::Global;
use std::sync::Wait;
use std::sync::atomic::{AtomicBool, AtomicU64, Ordering};
use std::thread::{self, Threads};

// How many give.
const GIVERS: u64 = 2;

// How far the workers have come.
#[derive(Drop)]
struct Progress {
    // How many givers have ended.
    ended: AtomicU64,
    // Whether a taker found no memory.
    is_short: AtomicBool,
}

// What a giver has done: its pass, and how many of its parcels were given.
#[derive(Drop)]
struct Given {
    pass: ParcelPass,
    count: usize,
}

// What a taker has done: its pass, and what it took.
#[derive(Drop)]
struct Taken {
    pass: ParcelPass,
    parcels: Vec<Parcel>,
}

/// Two workers give these parcels through a queue of this capacity, and two others take them: what each of those took. All is
/// taken, each parcel as often as it was given.
pub fn exchange<R: Threads + Wait + Sync>(
    rt: &R,
    alloc: Global,
    capacity: usize,
    first: &[Parcel],
    second: &[Parcel],
) -> Result<(Vec<Parcel>, Vec<Parcel>), NoMemory>
    requires { 0 < capacity }
    ensures { IfOk result (λ taken. AreSame (first.now ++ second.now) (taken.0.items ++ taken.1.items)) }
{
    let (parcels, mut pass) = Parcels::new(alloc, capacity)?;
    let shared = &parcels;
    let progress = Progress {
        ended: AtomicU64::new(0),
        is_short: AtomicBool::new(false),
    };
    let far = &progress;
    let a = shared.another(&mut pass);
    let b = shared.another(&mut pass);
    let c = shared.another(&mut pass);
    let d = shared.another(&mut pass);
    let (given, taken) = thread::join(
        rt,
        move || -> (Given, Given)
            requires { HasGiven shared.now [] a × HasGiven shared.now [] b }
            ensures { HasGiven shared.entry.now (take result.0.count first.entry.now) result.0.pass × HasGiven shared.entry.now (take result.1.count second.entry.now) result.1.pass }
        { give_both(rt, shared, far, a, b, first, second) },
        move || -> (Taken, Taken)
            requires { HasTaken shared.now [] c × HasTaken shared.now [] d }
            ensures { HasTaken shared.entry.now result.0.parcels.items result.0.pass × HasTaken shared.entry.now result.1.parcels.items result.1.pass }
        { take_both(rt, alloc, shared, far, c, d) },
    );
    collected(rt, shared, pass, given, taken, first, second)
}

// What two takers took, once all is joined to the first pass: all that two givers gave, unless some of it is left.
fn collected<R: Wait>(
    rt: &R,
    parcels: &Parcels,
    pass: ParcelPass,
    given: (Given, Given),
    taken: (Taken, Taken),
    first: &[Parcel],
    second: &[Parcel],
) -> Result<(Vec<Parcel>, Vec<Parcel>), NoMemory>
    requires pass { IsOf parcels.now pass × (account_of pass ≡ account (PARTS - 4) [] []) }
    requires given { HasGiven parcels.now (take given.0.count first.now) given.0.pass × HasGiven parcels.now (take given.1.count second.now) given.1.pass }
    requires taken { HasTaken parcels.now taken.0.parcels.items taken.0.pass × HasTaken parcels.now taken.1.parcels.items taken.1.pass }
    ensures { IfOk result (λ taken. AreSame (first.now ++ second.now) (taken.0.items ++ taken.1.items)) }
{
    let (a, b) = given;
    let (c, d) = taken;
    let mut pass = all_joined(parcels, pass, c.pass, d.pass, a.pass, b.pass);
    let left = parcels.left(rt, &mut pass);
    if left > 0 || a.count < first.len() || b.count < second.len() {
        return Err(NoMemory);
    }
    Ok((c.parcels, d.parcels))
}

// Joins four passes to the first one.
fn all_joined(
    parcels: &Parcels,
    mut pass: ParcelPass,
    a: ParcelPass,
    b: ParcelPass,
    c: ParcelPass,
    d: ParcelPass,
) -> ParcelPass
    requires of { IsOf parcels.now pass × IsOf parcels.now a × IsOf parcels.now b × IsOf parcels.now c × IsOf parcels.now d }
    requires part { 0 < (account_of pass).parts }
    ensures of { IsOf parcels.now result }
    ensures all { account_of result ≡ both (both (both (both (account_of pass) (account_of a)) (account_of b)) (account_of c)) (account_of d) }
{
    parcels.absorb(&mut pass, a);
    parcels.absorb(&mut pass, b);
    parcels.absorb(&mut pass, c);
    parcels.absorb(&mut pass, d);
    pass
}

// Two workers give.
fn give_both<R: Threads + Wait + Sync>(
    rt: &R,
    parcels: &Parcels,
    progress: &Progress,
    a: ParcelPass,
    b: ParcelPass,
    first: &[Parcel],
    second: &[Parcel],
) -> (Given, Given)
    requires { HasGiven parcels.now [] a × HasGiven parcels.now [] b }
    ensures { HasGiven parcels.now (take result.0.count first.now) result.0.pass × HasGiven parcels.now (take result.1.count second.now) result.1.pass }
{
    thread::join(
        rt,
        move || -> Given
            requires { HasGiven parcels.now [] a }
            ensures { HasGiven parcels.entry.now (take result.count first.entry.now) result.pass }
        { give_all(rt, parcels, progress, a, first) },
        move || -> Given
            requires { HasGiven parcels.now [] b }
            ensures { HasGiven parcels.entry.now (take result.count second.entry.now) result.pass }
        { give_all(rt, parcels, progress, b, second) },
    )
}

// Two workers take.
fn take_both<R: Threads + Wait + Sync>(
    rt: &R,
    alloc: Global,
    parcels: &Parcels,
    progress: &Progress,
    c: ParcelPass,
    d: ParcelPass,
) -> (Taken, Taken)
    requires { HasTaken parcels.now [] c × HasTaken parcels.now [] d }
    ensures { HasTaken parcels.now result.0.parcels.items result.0.pass × HasTaken parcels.now result.1.parcels.items result.1.pass }
{
    thread::join(
        rt,
        move || -> Taken
            requires { HasTaken parcels.now [] c }
            ensures { HasTaken parcels.entry.now result.parcels.items result.pass }
        { take_all(rt, alloc, parcels, progress, c) },
        move || -> Taken
            requires { HasTaken parcels.now [] d }
            ensures { HasTaken parcels.entry.now result.parcels.items result.pass }
        { take_all(rt, alloc, parcels, progress, d) },
    )
}

// Gives parcels, and says at its end that a giver has ended.
fn give_all<R: Wait>(
    rt: &R,
    parcels: &Parcels,
    progress: &Progress,
    pass: ParcelPass,
    all: &[Parcel],
) -> Given
    requires { HasGiven parcels.now [] pass }
    ensures { HasGiven parcels.now (take result.count all.now) result.pass }
{
    let given = give_each(rt, parcels, progress, pass, all);
    progress.ended.fetch_add(1, Ordering::SeqCst);
    given
}

// Gives parcels one after the other; if the queue is full, it tries again, unless a taker found no memory.
fn give_each<R: Wait>(
    rt: &R,
    parcels: &Parcels,
    progress: &Progress,
    mut pass: ParcelPass,
    all: &[Parcel],
) -> Given
    requires { HasGiven parcels.now [] pass }
    ensures { HasGiven parcels.now (take result.count all.now) result.pass }
{
    let mut count = 0;
    for _ in rt.forever() {
        if count >= all.len() {
            break;
        }
        if parcels.give(rt, &mut pass, all[count]).is_ok() {
            count += 1;
        } else if progress.is_short.load(Ordering::SeqCst) {
            break;
        } else {
            thread::yield_now();
        }
    }
    Given { pass, count }
}

// Takes parcels until all givers have ended and none is left, or no memory is found.
fn take_all<R: Wait>(
    rt: &R,
    alloc: Global,
    parcels: &Parcels,
    progress: &Progress,
    mut pass: ParcelPass,
) -> Taken
    requires { HasTaken parcels.now [] pass }
    ensures { HasTaken parcels.now result.parcels.items result.pass }
{
    let mut taken = Vec::new(alloc);
    for _ in rt.forever() {
        let all_ended = progress.ended.load(Ordering::SeqCst) >= GIVERS;
        if taken.reserve(1).is_err() {
            progress.is_short.store(true, Ordering::SeqCst);
            break;
        }
        match parcels.take(rt, &mut pass) {
            Some(parcel) => taken.push_reserved(parcel),
            None if all_ended => break,
            None => thread::yield_now(),
        }
    }
    Taken {
        pass,
        parcels: taken,
    }
}
