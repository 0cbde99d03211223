// How the replicas of a run are lent to its cluster, and given back.
ghost use Rattle.std.specs.Prelude.{◌≡◌, ◌+◌, ◌*◌, ◌≤◌, ◌<◌, ◌++◌, ℕ, [], All, drop, length, map, take, vec_capacity, IfOk, OnErr};
ghost use Rattle.rk_types.specs.declared.hashing.TheConstants.{LANES as lane_count};
ghost use Rattle.rk_log.specs.declared.copied.TheConstants.{MOST_BACKUPS as most_backups};
ghost use Rattle.rk_lane.specs.LaneState.{replicas_of};
ghost use Rattle.rk_cluster.specs.Dealt.{AreDealt};
ghost use Rattle.rk_cluster.specs.Masters.{backups_of};
ghost use Rattle.rk_lending.specs.Lent.{AreGivenBack, HasLent, IsRoom, IsRoomFor};

use rk_cluster::Cluster;
use rk_lane::Lane;
use rk_outside::Replica;
use rk_types::{LANES, NoMemory};
use std::alloc::Global;
use std::mem;

/// How many replicas a run has: one for each of four backups and eight lanes.
pub const REPLICAS: usize = rk_types::REPLICAS;

/// What is kept of the replicas of a run while its cluster has those of so many backups: the others, and room for the replicas
/// of each lane.
#[derive(Drop)]
pub struct Kept<R> {
    pub backups: u8,
    pub others: Vec<R>,
    pub hands: Vec<Vec<R>>,
}

/// Takes the replicas of so many backups out of those of a run, which have room for them when they come back. If memory is wanting, none
/// is taken.
pub fn lend<R: Drop>(
    alloc: Global,
    backups: u8,
    replicas: &mut Vec<R>,
) -> Result<(Vec<R>, Kept<R>), NoMemory>
    requires few { backups ≤ most_backups }
    requires count { length replicas.old.items ≡ REPLICAS }
    ensures ok { IfOk result (λ lent. HasLent backups replicas.old replicas.new lent.0 lent.1) }
    ensures err { OnErr result (replicas.new.items ≡ replicas.old.items) }
{
    let room = Vec::with_capacity(alloc, REPLICAS)?;
    let hands = Vec::with_capacity(alloc, LANES as usize)?;
    let others = replicas.split_off(LANES as usize * backups as usize)?;
    let its = mem::replace(replicas, room);
    Ok((
        its,
        Kept {
            backups,
            others,
            hands,
        },
    ))
}

/// Puts the replicas of a cluster back before those that were kept. Takes no memory. A step for each replica.
pub fn give_back<R: Replica + Drop>(cluster: Cluster<R>, kept: Kept<R>, replicas: &mut Vec<R>)
    requires backups { backups_of cluster ≡ kept.backups }
    requires room { IsRoom kept replicas.old }
    ensures { AreGivenBack cluster.lanes kept.others.items replicas.new.items }
{
    // By the contracts of `masters` and `backups`, the cluster has eight lanes, and in each as many backups.
    let _masters = cluster.masters();
    let _backups = cluster.backups();
    let mut hands = hands_of(cluster.into_lanes(), kept.hands);
    gather(&mut hands, replicas);
    put_behind(kept.others, replicas);
}

// The replicas of each lane, lane 0 first.
fn hands_of<R: Replica + Drop>(lanes: Vec<Lane<R>>, room: Vec<Vec<R>>) -> Vec<Vec<R>>
    requires count { length lanes.items ≡ lane_count }
    requires room { IsRoomFor lane_count room }
    ensures { map (λ hand. hand.items) result.items ≡ map (λ lane. replicas_of lane.backups) lanes.items }
{
    let mut hands = room;
    for lane in lanes {
        hands.push_reserved(lane.into_replicas());
    }
    hands
}

// Gathers what eight lanes have: the first thing of each, lane 0 first, then the second of each, and so on.
fn gather<T: Drop>(hands: &mut Vec<Vec<T>>, things: &mut Vec<T>)
    requires eight { length hands.old.items ≡ lane_count }
    requires room { IsRoomFor REPLICAS things.old }
    ensures dealt { (count : ℕ) → count ≤ most_backups → All (λ hand. length hand.items ≡ count) hands.old.items
        → AreDealt things.new.items hands.old.items }
    ensures count { (count : ℕ) → count ≤ most_backups → All (λ hand. length hand.items ≡ count) hands.old.items
        → length things.new.items ≡ lane_count * count }
    ensures room { vec_capacity things.new ≡ vec_capacity things.old }
{
    for place in 0..REPLICAS {
        pass_first(&mut hands[place % LANES as usize], things);
    }
}

// The first thing of a hand, if it has one, goes behind these things.
fn pass_first<T: Drop>(hand: &mut Vec<T>, things: &mut Vec<T>)
    requires { length things.old.items < vec_capacity things.old }
    ensures passed { things.new.items ≡ things.old.items ++ take 1 hand.old.items }
    ensures left { hand.new.items ≡ drop 1 hand.old.items }
    ensures room { vec_capacity things.new ≡ vec_capacity things.old }
{
    if !hand.is_empty() {
        things.push_reserved(hand.remove(0));
    }
}

// Puts things behind others, which have room for them.
fn put_behind<T: Drop>(things: Vec<T>, all: &mut Vec<T>)
    requires { length all.old.items + length things.items ≤ vec_capacity all.old }
    ensures { all.new.items ≡ all.old.items ++ things.items }
{
    for thing in things {
        all.push_reserved(thing);
    }
}
