// How things are dealt to lanes, and gathered again.
ghost use Rattle.std.specs.Prelude.{◌≡◌, ◌≤◌, ◌*◌, ◌++◌, ℕ, [], All, drop, length, take, IfOk, OnOk};
ghost use Rattle.rk_types.specs.declared.hashing.TheConstants.{LANES as lane_count};
ghost use Rattle.rk_cluster.specs.Dealt.{AreDealt};

use rk_types::{LANES, NoMemory};
use std::alloc::Global;

/// Deals things to eight lanes in turn, lane 0 first. A step for each thing.
pub(crate) fn deal<T: Drop>(alloc: Global, things: Vec<T>) -> Result<Vec<Vec<T>>, NoMemory>
    ensures { IfOk result (λ hands. AreDealt things.items hands.items) }
{
    let mut hands = empty_hands(alloc, things.len() / LANES as usize + 1)?;
    let mut place = 0;
    for thing in things {
        hands[place].push(thing)?;
        place = (place + 1) % LANES as usize;
    }
    Ok(hands)
}

/// Gathers what eight lanes have: the first thing of each, lane 0 first, then the second of each, and so on, up to so many of
/// each. After `NoMemory` those that were gathered are dropped. A step for each thing.
pub(crate) fn gather<T: Drop>(
    alloc: Global,
    hands: &mut Vec<Vec<T>>,
    most: u8,
) -> Result<Vec<T>, NoMemory>
    requires { length hands.old.items ≡ lane_count }
    ensures dealt { IfOk result (λ things. (count : ℕ) → count ≤ most → All (λ hand. length hand.items ≡ count) hands.old.items
        → AreDealt things.items hands.old.items) }
    ensures count { IfOk result (λ things. (count : ℕ) → count ≤ most → All (λ hand. length hand.items ≡ count) hands.old.items
        → length things.items ≡ lane_count * count) }
{
    let places = LANES as usize * most as usize;
    let mut things = Vec::with_capacity(alloc, places)?;
    for place in 0..places {
        pass_first(&mut hands[place % LANES as usize], &mut things)?;
    }
    Ok(things)
}

// The first thing of a hand, if it has one, goes behind these things.
fn pass_first<T: Drop>(hand: &mut Vec<T>, things: &mut Vec<T>) -> Result<(), NoMemory>
    ensures passed { OnOk result (things.new.items ≡ things.old.items ++ take 1 hand.old.items) }
    ensures left { OnOk result (hand.new.items ≡ drop 1 hand.old.items) }
{
    if !hand.is_empty() {
        things.push(hand.remove(0))?;
    }
    Ok(())
}

// Eight empty lists, each with room for so many things.
fn empty_hands<T: Drop>(alloc: Global, most: usize) -> Result<Vec<Vec<T>>, NoMemory>
    ensures count { IfOk result (λ hands. length hands.items ≡ lane_count) }
    ensures empty { IfOk result (λ hands. All (λ hand. hand.items ≡ []) hands.items) }
{
    let mut hands = Vec::with_capacity(alloc, LANES as usize)?;
    for _ in 0..LANES {
        hands.push(Vec::with_capacity(alloc, most)?)?;
    }
    Ok(hands)
}
