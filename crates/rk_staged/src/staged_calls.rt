ghost use Rattle.std.specs.Prelude.{◌≡◌, ℕ, ◌-◌, [], IfNone, OnOk, OnErr};
ghost use Rattle.std.specs.Option.{option_copied};
ghost use Rattle.rk_types.specs.NumberMap as map;
ghost use Rattle.rk_staged.specs.Counts.{IsCounted, counted, has_call, name_of, weight};

use crate::call_counts::CallCounts;
use rk_types::{Call, NoMemory, Numbered};
use std::alloc::Global;
use std::marker::Model;

/// The calls that wait for their entries, by the place of the entry in the log, counted from 0. Contracts see the map
/// by place.
#[derive(Drop)]
pub struct StagedCalls {
    calls: Numbered<Call>,
    counts: CallCounts,
}

impl Model for StagedCalls {
    ghost use Rattle.rk_types.specs.NumberMap.{NumberMap, number_map_code};
    ghost use Rattle.rk_types.specs.declared.call.Call.{Call};
    ghost use Rattle.rk_types.specs.contracts.call.Call as call_type;
    ghost use Rattle.rk_staged.specs.Counts.{IsCounted};

    ghost Value = { NumberMap Call };

    ghost coded = { number_map_code call_type.the_row.coded };

    ghost view = { λ staged. staged.calls };

    ghost invariant = { λ staged. IsCounted staged.counts staged.calls };
}

impl StagedCalls {
    /// No calls, which takes no memory.
    pub fn new(alloc: Global) -> StagedCalls
        ensures { result ≡ [] }
    {
        StagedCalls {
            calls: Numbered::new(alloc),
            counts: CallCounts::new(alloc),
        }
    }

    /// Whether a call of this client with this seq is staged. One search.
    pub fn is_staged(&self, client: u32, seq: u64) -> bool
        ensures { result ≡ has_call self.now client seq }
    {
        self.counts.count(client, seq) > 0
    }

    /// The call of this place. One search.
    pub fn get(&self, place: u64) -> Option<&Call>
        ensures { option_copied result ≡ map.get self.now place }
    {
        self.calls.get(place)
    }

    /// Stages a call at this place; a call that was there is dropped. After `NoMemory` the calls are as they were, and
    /// the new one is dropped. A few searches.
    pub fn insert(&mut self, place: u64, call: Call) -> Result<(), NoMemory>
        ensures ok { OnOk result (self.new ≡ map.insert self.old place call) }
        ensures err { OnErr result (self.new ≡ self.old) }
    {
        put(&mut self.calls, &mut self.counts, place, call)
    }

    /// Takes the call of this place out, if there is one. A few searches.
    pub fn take(&mut self, place: u64) -> Option<Call>
        ensures value { result ≡ map.get self.old place }
        ensures removed { self.new ≡ map.remove self.old place }
        ensures unchanged { IfNone result (self.new ≡ self.old) }
    {
        remove(&mut self.calls, &mut self.counts, place)
    }
}

// The client and the seq of the call of this place.
fn name_at(calls: &Numbered<Call>, place: u64) -> Option<(u32, u64)>
    ensures { result ≡ name_of (map.get calls.now place) }
{
    let call = calls.get(place)?;
    Some((call.client, call.seq))
}

// Counts one call less of this client and seq, if they are given.
fn forget(counts: &mut CallCounts, name: Option<(u32, u64)>)
    ensures { (client seq : ℕ) → counted counts.new client seq ≡ counted counts.old client seq - weight name client seq }
{
    if let Some((client, seq)) = name {
        counts.subtract(client, seq);
    }
}

// Puts a call at a place. What is counted stays what is there.
fn put(
    calls: &mut Numbered<Call>,
    counts: &mut CallCounts,
    place: u64,
    call: Call,
) -> Result<(), NoMemory>
    requires { IsCounted counts.old calls.old }
    ensures counted { IsCounted counts.new calls.new }
    ensures ok { OnOk result (calls.new ≡ map.insert calls.old place call) }
    ensures err { OnErr result (calls.new ≡ calls.old) }
{
    let before = name_at(calls, place);
    let (client, seq) = (call.client, call.seq);
    counts.add(client, seq)?;
    if let Err(error) = calls.insert(place, call) {
        counts.subtract(client, seq);
        return Err(error);
    }
    forget(counts, before);
    Ok(())
}

// Takes the call of a place out. What is counted stays what is there.
fn remove(calls: &mut Numbered<Call>, counts: &mut CallCounts, place: u64) -> Option<Call>
    requires { IsCounted counts.old calls.old }
    ensures counted { IsCounted counts.new calls.new }
    ensures value { result ≡ map.get calls.old place }
    ensures removed { calls.new ≡ map.remove calls.old place }
    ensures unchanged { IfNone result (calls.new ≡ calls.old) }
{
    let call = calls.remove(place)?;
    counts.subtract(call.client, call.seq);
    Some(call)
}
