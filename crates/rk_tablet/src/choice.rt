// What is to be done with a call, by what is known of its record.
ghost use Rattle.std.specs.Prelude.{◌≡◌, IfOk, Option, true, false, is_some, if◌then◌else◌};
ghost use Rattle.std.specs.Option.{option_copied};
ghost use Rattle.rk_model.specs.Merged.{is_mutation as is_mutation_lem};
ghost use Rattle.rk_overlay.specs.Live.{record_of};
ghost use Rattle.rk_types.specs.declared.held.Held.{Held as Item};
ghost use Rattle.rk_world.specs.Ends.{outcome_of as outcome_of_lem};
ghost use Rattle.rk_world.specs.Requests as requests;
ghost use Rattle.rk_tablet.specs.Tablets.{seen_of, tablet_of};
ghost use Rattle.rk_world.specs.RoleTests.{is_receiving as is_receiving_lem};

use crate::tablet_lane::TabletLane;
use rk_transfer::Role;
use rk_types::{Call, End, Held, NoMemory, Op, Outcome, hash};
use rk_world::Choice;

/// Whether an operation is a mutation: all but a read are.
pub fn is_mutation(op: &Op) -> bool
    ensures { result ≡ is_mutation_lem op.now }
{
    !matches!(op, Op::Get)
}

// Whether an operation needs to know what is there: all but a put do.
fn needs_state(op: &Op) -> bool
    ensures { result ≡ requests.needs_state op.now }
{
    !matches!(op, Op::Put(_))
}

/// Whether the role is that of a target that pulls.
pub(crate) fn is_receiving(role: Role) -> bool
    ensures { result ≡ is_receiving_lem role }
{
    matches!(role, Role::Receiving)
}

// What a read returns for an item.
fn read_of(there: Option<&Held>) -> Result<Outcome, NoMemory>
    ensures { IfOk result (λ outcome. outcome ≡ requests.read_of (record_of (option_copied there.entry))) }
{
    let Some(held) = there else {
        return Ok(Outcome::Absent);
    };
    let Some(value) = &held.value else {
        return Ok(Outcome::Absent);
    };
    Ok(Outcome::Found(held.version, value.duplicate()?))
}

/// What a mutation sees of the item that is there: its version, and whether it has a value.
#[derive(Clone, Copy)]
pub struct Seen {
    pub version: u64,
    pub is_live: bool,
}

impl Seen {
    /// What a mutation sees of an item.
    pub fn new(held: &Held) -> Seen
        ensures { Some result ≡ seen_of (Some held.now) }
    {
        Seen {
            version: held.version,
            is_live: held.value.is_some(),
        }
    }
}

// The version that a mutation sees, 0 if there is no record.
fn version_seen(seen: Option<Seen>) -> u64
    ensures { (state : Option Item) → seen ≡ seen_of state → result ≡ requests.version_of (record_of state) }
{
    match seen {
        Some(it) => { if it.is_live { it.version } else { 0 } }
        None => 0,
    }
}

// Whether a mutation sees a record.
fn sees_record(seen: Option<Seen>) -> bool
    ensures { (state : Option Item) → seen ≡ seen_of state → result ≡ is_some (record_of state) }
{
    match seen {
        Some(it) => it.is_live,
        None => false,
    }
}

// What a mutation does at a tablet, by what it sees.
fn mutation(tablet: u32, op: &Op, seen: Option<Seen>) -> Choice
    ensures { (state : Option Item) → seen ≡ seen_of state → is_mutation_lem op.now ≡ true
        → result ≡ requests.operation tablet op.now (record_of state) }
{
    match op {
        Op::Get => Choice::Ignores,
        Op::Put(_) => Choice::Writes(tablet),
        Op::CondPut(expected, _) => {
            let found = version_seen(seen);
            if *expected != found {
                return Choice::Refuses(found, false);
            }
            Choice::Writes(tablet)
        }
        Op::Delete => removal(tablet, sees_record(seen)),
    }
}

/// What is done with a mutation that has not ended and is not staged.
pub fn fresh_mutation(number: u32, tablet: &TabletLane, call: &Call, seen: Option<Seen>) -> Choice
    ensures { (state : Option Item) → seen ≡ seen_of state → is_mutation_lem call.now.op ≡ true
        → result ≡ requests.fresh_choice number (tablet_of tablet.now) call.now state }
{
    if needs_state(&call.op) && !tablet.is_known(hash(call.key.bytes()), seen.is_some()) {
        return Choice::Wants(number);
    }
    mutation(number, &call.op, seen)
}

/// What is done with a read.
pub fn fresh_read(
    number: u32,
    tablet: &TabletLane,
    call: &Call,
    there: Option<&Held>,
) -> Result<Choice, NoMemory>
    ensures { IfOk result (λ choice. is_mutation_lem call.now.op ≡ false
        → choice ≡ requests.fresh_choice number (tablet_of tablet.now) call.now (option_copied there.entry)) }
{
    if !tablet.is_known(hash(call.key.bytes()), there.is_some()) {
        return Ok(Choice::Wants(number));
    }
    Ok(Choice::Reads(read_of(there)?))
}

/// The outcome that an end gives.
pub fn outcome_of(end: End) -> Outcome
    ensures { result ≡ outcome_of_lem end }
{
    match end {
        End::Written(version) => Outcome::Written(version),
        End::Deleted(version) => Outcome::Deleted(version),
        End::Absent => Outcome::Absent,
        End::Mismatch(version) => Outcome::Mismatch(version),
    }
}

// What a removal does.
fn removal(tablet: u32, is_there: bool) -> Choice
    ensures { result ≡ (if is_there then Choice.Writes tablet else Choice.Refuses 0 true) }
{
    if is_there {
        Choice::Writes(tablet)
    } else {
        Choice::Refuses(0, true)
    }
}
