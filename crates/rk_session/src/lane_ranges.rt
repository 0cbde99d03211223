ghost use Rattle.std.specs.Prelude.{◌≡◌, ◌<◌, ◌≤◌, [], ◌++◌, length, OnOk, OnErr};
ghost use Rattle.std.specs.List.{find};
ghost use Rattle.rk_types.specs.Range.{has};
ghost use Rattle.rk_world.specs.Client.{has_call as has_call_lem, owned_range};
ghost use Rattle.rk_session.specs.Cached.{apart_from, without_call};

use rk_message::Located;
use rk_types::{Call, NoMemory, hash};
use std::alloc::Global;
use std::marker::Model;

/// The ranges of one lane that a client cached. Contracts see them beside the number that finds room.
#[derive(Drop)]
pub(crate) struct LaneRanges {
    ranges: Vec<Located>,
}

impl Model for LaneRanges {
    ghost use Rattle.std.specs.Prelude.{vec_capacity};
    ghost use Rattle.rk_session.specs.Cached.{Cached};

    ghost Value = { Cached };

    ghost view = { λ a. record { ranges = a.ranges.items; capacity = vec_capacity a.ranges } };
}

impl LaneRanges {
    /// No ranges, and room for none. Takes no memory.
    pub(crate) fn new(alloc: Global) -> LaneRanges
        ensures { result.ranges ≡ [] }
    {
        LaneRanges {
            ranges: Vec::new(alloc),
        }
    }

    /// The range of this table that has this hash. A look at each range.
    pub(crate) fn find(&self, table: u64, hash: u64) -> Option<Located>
        ensures { result ≡ find (λ located. has located.range table hash) self.now.ranges }
    {
        find_in(self.ranges.as_slice(), table, hash)
    }

    /// Makes room for one more range, and leaves the ranges as they are.
    pub(crate) fn reserve_one(&mut self) -> Result<(), NoMemory>
        ensures ranges { self.new.ranges ≡ self.old.ranges }
        ensures ok { OnOk result (length self.new.ranges < self.new.capacity) }
    {
        self.ranges.reserve(1)?;
        Ok(())
    }

    /// Drops each range that has the key of this call. A look at each range.
    pub(crate) fn forget(&mut self, call: &Call)
        ensures ranges { self.new.ranges ≡ without_call call.now self.old.ranges }
        ensures capacity { self.new.capacity ≡ self.old.capacity }
    {
        self.ranges.retain(|located| !has_call(call, located));
    }

    /// Puts a range in place of those that it meets, or drops those if it has no owner. A look at each range; takes
    /// no memory.
    pub(crate) fn put(&mut self, located: Located)
        requires { length (apart_from located self.old.ranges) < self.old.capacity }
        ensures ranges { self.new.ranges ≡ apart_from located self.old.ranges ++ owned_range located located.owner }
        ensures capacity { self.old.capacity ≤ self.new.capacity }
    {
        self.ranges
            .retain(|other| !other.range.meets(&located.range));
        if located.owner.is_some() {
            let _ = self.ranges.push(located);
        }
    }
}

/// Whether the range has the key of the call.
pub(crate) fn has_call(call: &Call, located: &Located) -> bool
    ensures { result ≡ has_call_lem call.now located.now }
{
    located.range.has(call.table, hash(call.key.bytes()))
}

// The first range of a table that has a hash.
fn find_in(ranges: &[Located], table: u64, hash: u64) -> Option<Located>
    ensures { result ≡ find (λ located. has located.range table hash) ranges.now }
{
    for located in ranges {
        if located.range.has(table, hash) {
            return Some(*located);
        }
    }
    None
}
