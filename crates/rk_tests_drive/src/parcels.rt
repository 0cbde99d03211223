// The queue of parcels: a full one, what is left, and four threads.
use rk_dispatch::{Parcels, exchange};
use rk_types::Parcel;
use std::alloc::{AllocError, Global};
use std::test::*;

// Each giver's count of parcels.
const EACH: u64 = 50_000;

// A queue of one: the second parcel comes back, the first one is taken, and then there is none.
#[test]
fn a_queue_of_one(rt: HostRuntime) -> Result<(), Fail> {
    let (parcels, mut pass) = Parcels::new(rt.alloc(), 1)?;
    assert_eq!(rt; parcels.capacity(), 1);
    let first = Parcel { lane: 4, number: 7 };
    let second = Parcel { lane: 5, number: 7 };
    assert_eq!(rt; parcels.give(&rt, &mut pass, first), Ok(()));
    let mut other = parcels.another(&mut pass);
    assert_eq!(rt; parcels.give(&rt, &mut other, second), Err(second));
    assert_eq!(rt; parcels.take(&rt, &mut other), Some(first));
    assert_eq!(rt; parcels.take(&rt, &mut other), None);
    parcels.absorb(&mut pass, other);
    assert_eq!(rt; parcels.left(&rt, &mut pass), 0);
    Ok(())
}

// What is not taken is left.
#[test]
fn two_are_left_of_three(rt: HostRuntime) -> Result<(), Fail> {
    let (parcels, mut pass) = Parcels::new(rt.alloc(), 3)?;
    let first = Parcel { lane: 0, number: 1 };
    let second = Parcel { lane: 0, number: 2 };
    let third = Parcel { lane: 0, number: 3 };
    assert_eq!(rt; parcels.give(&rt, &mut pass, first), Ok(()));
    assert_eq!(rt; parcels.give(&rt, &mut pass, second), Ok(()));
    assert_eq!(rt; parcels.give(&rt, &mut pass, third), Ok(()));
    assert_eq!(rt; parcels.take(&rt, &mut pass), Some(first));
    assert_eq!(rt; parcels.left(&rt, &mut pass), 2);
    Ok(())
}

// Parcels of a lane, by rising number.
fn numbered(alloc: Global, lane: u8) -> Result<Vec<Parcel>, AllocError> {
    let mut parcels = Vec::new(alloc);
    for number in 0..EACH {
        parcels.push(Parcel { lane, number })?;
    }
    Ok(parcels)
}

// Two givers and two takers on threads of their own: a hundred thousand parcels go through a queue of 64, and each of them is
// taken once.
#[test]
fn a_hundred_thousand_parcels(rt: HostRuntime) -> Result<(), Fail> {
    let first = numbered(rt.alloc(), 1)?;
    let second = numbered(rt.alloc(), 2)?;
    let (taken, more) = exchange(&rt, rt.alloc(), 64, first.as_slice(), second.as_slice())?;
    let mut all = first;
    all.extend_from_slice(second.as_slice())?;
    let mut found = taken;
    found.extend_from_slice(more.as_slice())?;
    all.sort_by_key(|parcel| (parcel.lane, parcel.number))?;
    found.sort_by_key(|parcel| (parcel.lane, parcel.number))?;
    assert!(rt; all == found);
    Ok(())
}
