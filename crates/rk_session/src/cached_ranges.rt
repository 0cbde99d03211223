ghost use Rattle.std.specs.Prelude.{◌≡◌, ◌<◌, ◌++◌, OnOk, slice_set, true, replicate, []};
ghost use Rattle.std.specs.List.{find};
ghost use Rattle.rk_world.specs.Client.{call_lane, has_call, owned_range};
ghost use Rattle.rk_session.specs.Cached.{HasRoom, apart_from, ranges_for, ranges_of, without_call};

use crate::lane_ranges::LaneRanges;
use rk_message::Located;
use rk_types::{Call, LANES, NoMemory, hash, lane_of};
use std::alloc::Global;

const LANE_COUNT: usize = LANES as usize;

/// The ranges that a client cached, by lane.
#[derive(Drop)]
pub(crate) struct CachedRanges {
    lanes: [LaneRanges; LANE_COUNT],
}

impl CachedRanges {
    /// No ranges. Takes no memory.
    pub(crate) fn new(alloc: Global) -> CachedRanges
        ensures { ranges_of result.lanes ≡ replicate LANES [] }
    {
        CachedRanges {
            lanes: [
                LaneRanges::new(alloc),
                LaneRanges::new(alloc),
                LaneRanges::new(alloc),
                LaneRanges::new(alloc),
                LaneRanges::new(alloc),
                LaneRanges::new(alloc),
                LaneRanges::new(alloc),
                LaneRanges::new(alloc),
            ],
        }
    }

    /// The range that has the key of this call. A look at each range of its lane.
    pub(crate) fn find(&self, call: &Call) -> Option<Located>
        ensures { result ≡ find (has_call call.now) (ranges_for call.now (ranges_of self.now.lanes)) }
    {
        let hash = hash(call.key.bytes());
        let lane = &self.lanes[usize::from(lane_of(hash))];
        lane.find(call.table, hash)
    }

    /// Makes room for one more range in the lane of this call, and leaves the ranges as they are.
    pub(crate) fn reserve_one(&mut self, call: &Call) -> Result<(), NoMemory>
        ensures ranges { ranges_of self.new.lanes ≡ ranges_of self.old.lanes }
        ensures ok { OnOk result (HasRoom call.now self.new.lanes) }
    {
        let lane = &mut self.lanes[lane_index(call)];
        lane.reserve_one()
    }

    /// Drops each range that has the key of this call. A look at each range of its lane.
    pub(crate) fn forget(&mut self, call: &Call)
        ensures ranges { ranges_of self.new.lanes ≡ slice_set (ranges_of self.old.lanes) (call_lane call.now)
            (without_call call.now (ranges_for call.now (ranges_of self.old.lanes))) }
        ensures room { HasRoom call.now self.old.lanes → HasRoom call.now self.new.lanes }
    {
        let lane = &mut self.lanes[lane_index(call)];
        lane.forget(call);
    }

    /// Puts a range that has the key of this call in place of those that it meets, or drops those if it has no owner.
    /// A look at each range of the lane; takes no memory.
    pub(crate) fn put(&mut self, call: &Call, located: Located)
        requires its { has_call call.now located ≡ true }
        requires room { HasRoom call.now self.old.lanes }
        ensures ranges { ranges_of self.new.lanes ≡ slice_set (ranges_of self.old.lanes) (call_lane call.now)
            (apart_from located (ranges_for call.now (ranges_of self.old.lanes)) ++ owned_range located located.owner) }
        ensures room { HasRoom call.now self.new.lanes }
    {
        let lane = &mut self.lanes[lane_index(call)];
        lane.put(located);
    }
}

// The index of a call's lane among the lanes.
fn lane_index(call: &Call) -> usize
    ensures lane { result ≡ call_lane call.now }
    ensures within { result < LANES }
{
    usize::from(lane_of(hash(call.key.bytes())))
}
