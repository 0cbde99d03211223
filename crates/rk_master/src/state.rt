ghost use Rattle.std.specs.Prelude.{◌≡◌, ◌≤◌, List, [], None, Option, true, replicate, IfOk};
ghost use Rattle.rk_log.specs.Known.{nothing};
ghost use Rattle.std.specs.List.{find};
ghost use Rattle.std.specs.Option.{option_copied, option_map, option_or};
ghost use Rattle.rk_types.specs.declared.held.Held.{Held as Item};
ghost use Rattle.rk_model.specs.Merged.{is_mutation as is_mutation_lem};
ghost use Rattle.rk_overlay.specs.Newest.{newest};
ghost use Rattle.rk_table.specs.Items.{found};
ghost use Rattle.rk_bucket_table.specs.Tables.{items_of as records_of};
ghost use Rattle.rk_done.specs.Completions.{look as look_lem};
ghost use Rattle.rk_world.specs.Master.{new_master, serves_key};
ghost use Rattle.rk_world.specs.Requests as requests;
ghost use Rattle.rk_staged.specs.Kept.{IsKept};
ghost use Rattle.rk_tablet.specs.Tablets.{seen_of, tablet_of};
ghost use Rattle.rk_master.specs.Parts.{tablets_of};
ghost use Rattle.rk_master.specs.State.{IsState, master_of};

use crate::work::Worked;
use rk_bucket_table::BucketTable;
use rk_done::Look;
use rk_log::{MOST_BACKUPS, MasterLog};
use rk_staged::{StagedCalls, StagedEntries};
use rk_table::RecordTable;
use rk_tablet::{Seen, TabletLane, fresh_mutation, fresh_read, is_mutation};
use rk_types::{Call, Key, NoMemory};
use rk_world::Choice;
use std::alloc::Global;

/// All that a master has in a lane. Contracts see it by its fields, and say by `master_of` which master of the
/// definitions it represents.
#[derive(Drop)]
pub(crate) struct MasterState {
    pub(crate) number: u8,
    pub(crate) backups: u8,
    pub(crate) log: MasterLog,
    pub(crate) applied: u64,
    pub(crate) calls: StagedCalls,
    pub(crate) staged: StagedEntries,
    pub(crate) records: BucketTable,
    pub(crate) tablets: Vec<(u32, TabletLane)>,
}

impl MasterState {
    /// A master that knows nothing yet, with so many backups, which are numbered from 1.
    pub(crate) fn new(alloc: Global, number: u8, backups: u8) -> Result<MasterState, NoMemory>
        requires first { 1 ≤ backups }
        requires last { backups ≤ MOST_BACKUPS }
        ensures ok { IfOk result (λ state. master_of state ≡ new_master number (replicate backups nothing)) }
        ensures state { IfOk result IsState }
    {
        let records = BucketTable::new(alloc)?;
        Ok(MasterState {
            number,
            backups,
            log: MasterLog::new(alloc, backups)?,
            applied: 0,
            calls: StagedCalls::new(alloc),
            staged: StagedEntries::new(alloc),
            records,
            tablets: Vec::new(alloc),
        })
    }

    /// Nothing is sent, no call served, and nothing marked.
    pub(crate) fn nothing(&self) -> Worked
        ensures sends { result.sends.items ≡ [] }
        ensures served { result.served.items ≡ [] }
        ensures marked { result.marked ≡ None }
    {
        Worked::nothing(*self.tablets.allocator())
    }

    /// What is done with a call; nothing is changed. A look at each tablet, and a few searches.
    pub(crate) fn choice_of(&self, call: &Call) -> Result<Choice, NoMemory>
        requires { IsState self.now }
        ensures { IfOk result (λ choice. choice ≡ requests.choice_of (master_of self.now) call.now) }
    {
        let tablets = self.tablets.as_slice();
        let Some(entry) = serving(tablets, call.table, &call.key) else {
            return Ok(Choice::Redirects);
        };
        if is_mutation(&call.op) {
            return self.mutation_choice(entry.0, &entry.1, call);
        }
        let there = self.records.get(call.table, &call.key);
        fresh_read(entry.0, &entry.1, call, there)
    }

    // What is done with a mutation at a tablet.
    fn mutation_choice(
        &self,
        number: u32,
        tablet: &TabletLane,
        call: &Call,
    ) -> Result<Choice, NoMemory>
        requires { IsState self.now }
        ensures { IfOk result (λ choice. is_mutation_lem call.now.op ≡ true
            → choice ≡ requests.mutation_choice (master_of self.now) number (tablet_of tablet.now) call.now
            (look_lem (tablet_of tablet.now).completions call.now.client call.now.seq)) }
    {
        match tablet.completions.look(call.client, call.seq) {
            Look::Same(end) => Ok(Choice::Repeats(end)),
            Look::Old(_) => Ok(Choice::Ignores),
            Look::New => self.new_mutation(number, tablet, call),
        }
    }

    // What is done with a mutation that has not ended.
    fn new_mutation(
        &self,
        number: u32,
        tablet: &TabletLane,
        call: &Call,
    ) -> Result<Choice, NoMemory>
        requires { IsState self.now }
        ensures { IfOk result (λ choice. is_mutation_lem call.now.op ≡ true
            → choice ≡ requests.mutation_choice (master_of self.now) number (tablet_of tablet.now) call.now Look.New) }
    {
        if self.calls.is_staged(call.client, call.seq) {
            return Ok(Choice::Ignores);
        }
        let name = (call.table, call.key.duplicate()?);
        let seen = seen(&self.staged, &self.records, &name);
        Ok(fresh_mutation(number, tablet, call, seen))
    }
}

// The tablet that is served here and has the key, with its number. A look at each tablet.
fn serving<'a>(
    tablets: &'a [(u32, TabletLane)],
    table: u64,
    key: &Key,
) -> Option<&'a (u32, TabletLane)>
    ensures { option_map (λ entry. (entry.0, tablet_of entry.1)) (option_copied result)
        ≡ find (λ entry. serves_key table key.now entry.1) (tablets_of tablets.now) }
{
    for entry in tablets {
        if entry.1.serves(table, key) {
            return Some(entry);
        }
    }
    None
}

// What a mutation sees of a record: the newest staged item, else that of the records.
fn seen(staged: &StagedEntries, records: &BucketTable, name: &(u64, Key)) -> Option<Seen>
    ensures { (items : List Item) → IsKept staged.now.newest items
        → result ≡ seen_of (option_or (newest items name.now.0 name.now.1) (found name.now.0 name.now.1 (records_of records.now))) }
{
    if let Some(kept) = staged.look(name) {
        return Some(Seen {
            version: kept.version,
            is_live: kept.is_live,
        });
    }
    match records.get(name.0, &name.1) {
        Some(held) => Some(Seen::new(held)),
        None => None,
    }
}
