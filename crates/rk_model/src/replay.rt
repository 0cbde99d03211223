// A history, walked from its first record, against what is at each key so far.
ghost use Rattle.std.specs.Prelude.{◌≡◌, IfOk, OnOk, MatchOption};
ghost use Rattle.std.specs.Bool.{Decides};
ghost use Rattle.std.specs.Option.{option_map};
ghost use Rattle.rk_model.specs.History.{IsLegal, IsFirstWrong, Map, empty_map, map_with, with_entry};
ghost use Rattle.rk_model.specs.Machine.{Allowed, change_of, IsDeletedAbove, IsWrittenAbove, last_version as last_version_lem, live_version as live_version_lem, read_of};
ghost use Rattle.rk_model.specs.Standing.{StandsFor, entry_of};

use rk_types::{Key, NoMemory, Op, Outcome, Placed, Value};
use std::alloc::Global;
use std::collections::BTreeMap;

/// What is at a key: nothing so far, a record with its version and value, or the version of its removal.
#[derive(Clone, Copy)]
enum Standing<'a> {
    Never,
    Live(u64, &'a Value),
    Gone(u64),
}

/// What is at each key of each table that a record changed.
type Standings<'a> = BTreeMap<(u64, &'a Key), Standing<'a>>;

impl<'a> Standing<'a> {
    // The version that was given last, 0 if none was.
    fn last_version(&self) -> u64
        ensures { result ≡ last_version_lem (entry_of self.now) }
    {
        match self {
            Standing::Never => 0,
            Standing::Live(version, _) | Standing::Gone(version) => *version,
        }
    }

    // The version of the record that is there, 0 if none is.
    fn live_version(&self) -> u64
        ensures { result ≡ live_version_lem (entry_of self.now) }
    {
        match self {
            Standing::Live(version, _) => *version,
            Standing::Never | Standing::Gone(_) => 0,
        }
    }

    // Whether a read returns this.
    fn is_told_by(&self, outcome: &Outcome) -> bool
        ensures { Decides result (outcome.now ≡ read_of (entry_of self.now)) }
    {
        match self {
            Standing::Live(version, value) => match outcome {
                Outcome::Found(found, told) => found == version && *told == **value,
                _ => false,
            },
            Standing::Never | Standing::Gone(_) => is_absent(outcome),
        }
    }

    // Whether the operation may have this outcome here.
    fn allows(&self, op: &Op, outcome: &Outcome) -> bool
        ensures { Decides result (Allowed (entry_of self.now) op.now outcome.now) }
    {
        match op {
            Op::Get => self.is_told_by(outcome),
            Op::Put(_) => is_written_above(self.last_version(), outcome),
            Op::CondPut(expected, _) => {
                let live = self.live_version();
                if *expected == live {
                    is_written_above(self.last_version(), outcome)
                } else {
                    is_mismatch(live, outcome)
                }
            }
            Op::Delete => match self {
                Standing::Live(version, _) => is_deleted_above(*version, outcome),
                Standing::Never | Standing::Gone(_) => is_absent(outcome),
            },
        }
    }
}

// Whether nothing was there.
fn is_absent(outcome: &Outcome) -> bool
    ensures { Decides result (outcome.now ≡ Outcome.Absent) }
{
    matches!(outcome, Outcome::Absent)
}

// Whether this is a write with a version above that one.
fn is_written_above(last: u64, outcome: &Outcome) -> bool
    ensures { Decides result (IsWrittenAbove last outcome.now) }
{
    match outcome {
        Outcome::Written(version) => *version > last,
        _ => false,
    }
}

// Whether this is a removal with a version above that one.
fn is_deleted_above(last: u64, outcome: &Outcome) -> bool
    ensures { Decides result (IsDeletedAbove last outcome.now) }
{
    match outcome {
        Outcome::Deleted(version) => *version > last,
        _ => false,
    }
}

// Whether this is a refusal that names that live version.
fn is_mismatch(live: u64, outcome: &Outcome) -> bool
    ensures { Decides result (outcome.now ≡ Outcome.Mismatch live) }
{
    match outcome {
        Outcome::Mismatch(version) => *version == live,
        _ => false,
    }
}

// What the operation with this outcome leaves at its key; none if what is there stays.
fn change<'a>(op: &'a Op, outcome: &Outcome) -> Option<Standing<'a>>
    ensures { option_map entry_of result ≡ change_of op.now outcome.now }
{
    match op {
        Op::Put(value) | Op::CondPut(_, value) => match outcome {
            Outcome::Written(version) => Some(Standing::Live(*version, value)),
            _ => None,
        },
        Op::Delete => match outcome {
            Outcome::Deleted(version) => Some(Standing::Gone(*version)),
            _ => None,
        },
        Op::Get => None,
    }
}

// What is at a key of a table.
fn standing_at<'a>(standings: &Standings<'a>, table: u64, key: &'a Key) -> Standing<'a>
    ensures { (map : Map) → StandsFor standings.now map → entry_of result ≡ map table key.now }
{
    match standings.get(&(table, key)) {
        Some(standing) => *standing,
        None => Standing::Never,
    }
}

// Sets what is at a key of a table.
fn set<'a>(
    standings: &mut Standings<'a>,
    table: u64,
    key: &'a Key,
    standing: Standing<'a>,
) -> Result<(), NoMemory>
    ensures { OnOk result ((map : Map)
        → StandsFor standings.old map
        → StandsFor standings.new (with_entry map table key.now (entry_of standing.entry))) }
{
    standings.insert((table, key), standing)?;
    Ok(())
}

// Takes in what a record leaves at its key.
fn take_in<'a>(standings: &mut Standings<'a>, placed: &'a Placed) -> Result<(), NoMemory>
    ensures { OnOk result ((map : Map)
        → StandsFor standings.old map → StandsFor standings.new (map_with map placed.now)) }
{
    if let Some(next) = change(&placed.call.op, &placed.outcome) {
        set(standings, placed.call.table, &placed.call.key, next)?;
    }
    Ok(())
}

/// None exactly when the history is legal from the empty map, and otherwise the place, counted from 0, of the first
/// record that is not allowed after those before it. `NoMemory` may come in place of either.
///
/// The call walks the history once and copies no key and no value. A record costs one look-up, and one insertion if it
/// changes its key, in a tree of the keys that were changed so far.
pub fn replays(alloc: Global, history: &[Placed]) -> Result<Option<u64>, NoMemory>
    ensures { IfOk result (λ wrong. MatchOption wrong (IsLegal empty_map history.now) (IsFirstWrong history.now)) }
{
    let mut standings = BTreeMap::new(alloc);
    for (place, placed) in history.iter().enumerate() {
        let standing = standing_at(&standings, placed.call.table, &placed.call.key);
        if !standing.allows(&placed.call.op, &placed.outcome) {
            return Ok(Some(place as u64));
        }
        take_in(&mut standings, placed)?;
    }
    Ok(None)
}
