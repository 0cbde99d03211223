// What a source answers to a target that pulls: batches of its live items, and those with the hashes that are wanted first.
ghost use Rattle.std.specs.Prelude.{◌≡◌, ◌++◌, IfOk, OnOk};
ghost use Rattle.std.specs.List.{flat_map};
ghost use Rattle.rk_types.specs.NumberMap.{IsInOrder};
ghost use Rattle.rk_table.specs.Items.{at_hash, live_in};
ghost use Rattle.rk_bucket_table.specs.Tables.{items_of as records_of};
ghost use Rattle.rk_world.specs.Material.{as_entries};
ghost use Rattle.rk_world.specs.Pulls as pulls;
ghost use Rattle.rk_master.specs.Parts.{worked_of};
ghost use Rattle.rk_types.specs.Places.{IsAt};
ghost use Rattle.rk_master.specs.Pulls.{batch_answer, want_answer};
ghost use Rattle.rk_master.specs.State.{IsState, master_of};

use crate::state::MasterState;
use crate::tablets::search;
use crate::work::Worked;
use rk_bucket_table::BucketTable;
use rk_entry::Entry;
use rk_message::{Body, Got, Message, Pull, Pulled, Want};
use rk_pull::batch;
use rk_table::RecordTable;
use rk_types::{Held, Listed, NoMemory, Node, Range};
use std::alloc::Global;

// So many records are too many for the token of a batch.
const MOST_RECORDS: usize = 1 << 32;

/// A master takes a Pull of a node: if the tablet is frozen at its term, it answers with the batch from the token on.
/// `NoMemory` also if there are [`MOST_RECORDS`]. A search, and a step for each item and each chain of the records from the
/// token's bucket to the first live item of the range behind the batch.
pub(crate) fn take_pull(state: &MasterState, from: Node, pull: Pull) -> Result<Worked, NoMemory>
    requires state { IsState state.now }
    ensures { IfOk result (λ work. worked_of (master_of state.now) work ≡ pulls.pull_taken (master_of state.now) from pull) }
{
    let Ok(at) = search(state.tablets.as_slice(), pull.tenure.tablet) else {
        return Ok(state.nothing());
    };
    answer_pull(state, at, from, pull)
}

// The tablet at a place answers a Pull if it is frozen at its term.
fn answer_pull(state: &MasterState, at: usize, from: Node, pull: Pull) -> Result<Worked, NoMemory>
    requires order { IsInOrder state.now.tablets.items }
    requires place { IsAt pull.tenure.tablet state.now.tablets.items at }
    ensures { IfOk result (λ work. worked_of (master_of state.now) work ≡ pulls.pull_taken (master_of state.now) from pull) }
{
    let tablet = &state.tablets[at].1;
    let mut work = state.nothing();
    if !tablet.is_frozen_at(pull.tenure.term) {
        return Ok(work);
    }
    work.send(state.batch_message(from, &tablet.handover.range, pull)?)?;
    Ok(work)
}

/// A master takes a Want of a node: if the tablet is frozen at its term, it answers with the live items that have the
/// wanted hashes. A search for the tablet and one for each hash, a step for each item that has it, and a copy of the hashes.
pub(crate) fn take_want(state: &MasterState, from: Node, want: &Want) -> Result<Worked, NoMemory>
    requires state { IsState state.now }
    ensures { IfOk result (λ work. worked_of (master_of state.now) work ≡ pulls.want_taken (master_of state.now) from want.now) }
{
    let Ok(at) = search(state.tablets.as_slice(), want.tenure.tablet) else {
        return Ok(state.nothing());
    };
    answer_want(state, at, from, want)
}

// The tablet at a place answers a Want if it is frozen at its term.
fn answer_want(state: &MasterState, at: usize, from: Node, want: &Want) -> Result<Worked, NoMemory>
    requires order { IsInOrder state.now.tablets.items }
    requires place { IsAt want.now.tenure.tablet state.now.tablets.items at }
    ensures { IfOk result (λ work. worked_of (master_of state.now) work ≡ pulls.want_taken (master_of state.now) from want.now) }
{
    let tablet = &state.tablets[at].1;
    let mut work = state.nothing();
    if !tablet.is_frozen_at(want.tenure.term) {
        return Ok(work);
    }
    work.send(state.wanted_message(from, &tablet.handover.range, want)?)?;
    Ok(work)
}

impl MasterState {
    // The live items of a range from the token of a Pull on, for the node that pulls. `NoMemory` also if the records
    // cannot be counted by 32 bits.
    fn batch_message(&self, to: Node, range: &Range, pull: Pull) -> Result<Message, NoMemory>
        ensures { IfOk result (λ message. message ≡ batch_answer (master_of self.now) to range.now pull) }
    {
        if self.records.len() >= MOST_RECORDS {
            return Err(NoMemory);
        }
        let alloc = *self.tablets.allocator();
        let (items, next) = batch(alloc, &self.records, range, &pull.token)?;
        Ok(Message {
            from: Node::Master(self.number),
            to,
            body: Body::Pulled(Pulled {
                tenure: pull.tenure,
                token: pull.token,
                next,
                entries: entries_of(items)?,
            }),
        })
    }

    // The live items of a range that have the hashes of a Want, for the node that wants them.
    fn wanted_message(&self, to: Node, range: &Range, want: &Want) -> Result<Message, NoMemory>
        ensures { IfOk result (λ message. message ≡ want_answer (master_of self.now) to range.now want.now) }
    {
        let alloc = *self.tablets.allocator();
        let items = with_hashes(alloc, &self.records, range, want.hashes.as_slice())?;
        Ok(Message {
            from: Node::Master(self.number),
            to,
            body: Body::Got(Got {
                tenure: want.tenure,
                hashes: want.hashes.duplicate()?,
                entries: entries_of(items)?,
            }),
        })
    }
}

// The live items of a range that have these hashes, hash by hash.
fn with_hashes(
    alloc: Global,
    records: &BucketTable,
    range: &Range,
    hashes: &[u64],
) -> Result<Vec<Held>, NoMemory>
    ensures { IfOk result (λ items. items.items ≡ flat_map (λ hash. at_hash hash (live_in range.now (records_of records.now))) hashes.now) }
{
    let mut items = Vec::new(alloc);
    for hash in hashes {
        records.at_hash(range, *hash, &mut items)?;
    }
    Ok(items)
}

// The entries of items.
fn entries_of(items: Vec<Held>) -> Result<Listed<Entry>, NoMemory>
    ensures { IfOk result (λ entries. entries ≡ as_entries items.items) }
{
    let mut entries = Listed::new(*items.allocator());
    for item in items {
        entries.push(Entry::Held(item))?;
    }
    Ok(entries)
}
