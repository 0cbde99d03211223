// The tablets of a master, by rising number.
ghost use Rattle.std.specs.Prelude.{◌≡◌, ◌≢◌, true, None, map, IsSome, IfOk, IfErr, OnOk, OnErr};
ghost use Rattle.std.specs.Int.{w64};
ghost use Rattle.std.specs.List.{list_all};
ghost use Rattle.rk_types.specs.NumberMap.{IsInOrder, get, insert};
ghost use Rattle.rk_entry.specs.Numbers.{IsNumber};
ghost use Rattle.rk_priority.specs.Hashes.{is_waiting as is_waiting_lem};
ghost use Rattle.rk_world.specs.RoleTests.{is_gathering as is_gathering_lem};
ghost use Rattle.rk_world.specs.Tablet.{no_tablet, with_handover, without_merged};
ghost use Rattle.rk_world.specs.Handovers.{is_above};
ghost use Rattle.rk_world.specs.Requests.{counted_up, with_wanted};
ghost use Rattle.rk_tablet.specs.Tablets.{tablet_of};
ghost use Rattle.rk_tablet.specs.Rebuilding.{with_gather};
ghost use Rattle.rk_master.specs.Parts.{AreTablets, changing, given_up_but, served, tablet_in, tablets_of};
ghost use Rattle.rk_types.specs.Places.{IsAt, IsBetween};

use rk_rebuild::Gather;
use rk_tablet::TabletLane;
use rk_transfer::{Handover, Role};
use rk_types::{NoMemory, Range};

// The handover of a tablet that a master does not know.
const NO_HANDOVER: Handover = Handover {
    role: Role::Absent,
    term: 0,
    range: Range {
        table: 0,
        first: 0,
        last: 0,
    },
    counter: 1,
};

/// The place of the tablet of this number, or where it would be inserted. One binary search.
pub(crate) fn search(tablets: &[(u32, TabletLane)], number: u32) -> Result<usize, usize>
    requires { IsInOrder tablets.now }
    ensures found { IfOk result (IsAt number tablets.now) }
    ensures absent { IfErr result (IsBetween number tablets.now) }
{
    tablets.binary_search_by_key(&number, |entry| entry.0)
}

/// The place of the tablet of this number, which is there. One binary search.
pub(crate) fn place_of(tablets: &[(u32, TabletLane)], number: u32) -> usize
    requires order { IsInOrder tablets.now }
    requires there { IsSome (get tablets.now number) }
    ensures { IsAt number tablets.now result }
{
    search(tablets, number).unwrap()
}

/// Gives the next version of the tablet of this number, which is there: its counter rises by one. `NoMemory` if no
/// version is left. One binary search.
pub(crate) fn next_version(tablets: &mut [(u32, TabletLane)], number: u32) -> Result<u64, NoMemory>
    requires tablets { AreTablets tablets.old }
    requires there { IsSome (get tablets.old number) }
    ensures version { IfOk result (λ version. version ≡ (tablet_in tablets.old number).handover.counter) }
    ensures lawful { IfOk result (IsNumber w64 1) }
    ensures counter { OnOk result (tablets_of tablets.new ≡ insert (tablets_of tablets.old) number (counted_up (tablet_in tablets.old number))) }
    ensures tablets { OnOk result (AreTablets tablets.new) }
{
    let at = place_of(tablets, number);
    let tablet = &mut tablets[at].1;
    let version = tablet.next_version()?;
    Ok(version)
}

/// Wants a hash for the tablet of this number, which is there. One binary search, and a step for each hash that the
/// tablet wants or has wanted.
pub(crate) fn want(
    tablets: &mut [(u32, TabletLane)],
    number: u32,
    hash: u64,
) -> Result<(), NoMemory>
    requires tablets { AreTablets tablets.old }
    requires there { IsSome (get tablets.old number) }
    ensures wanted { OnOk result (tablets_of tablets.new ≡ insert (tablets_of tablets.old) number (with_wanted (tablet_in tablets.old number) hash)) }
    ensures tablets { OnOk result (AreTablets tablets.new) }
{
    let at = place_of(tablets, number);
    let tablet = &mut tablets[at].1;
    tablet.want(hash)?;
    Ok(())
}

/// The tablet of this number, which is there to be rebuilt, begins to gather. One binary search.
pub(crate) fn begin_gather(tablets: &mut [(u32, TabletLane)], number: u32, gather: Gather)
    requires tablets { AreTablets tablets.old }
    requires there { IsSome (get tablets.old number) }
    requires role { is_gathering_lem (tablet_in tablets.old number).handover.role ≡ true }
    ensures gathers { tablets_of tablets.new ≡ insert (tablets_of tablets.old) number (with_gather (tablet_in tablets.old number) gather) }
    ensures tablets { AreTablets tablets.new }
{
    let at = place_of(tablets, number);
    let tablet = &mut tablets[at].1;
    tablet.begin_gather(gather);
}

/// The handover of the tablet of this number; if it is not there, the role is Absent and the term 0. One binary
/// search.
pub(crate) fn handover_of(tablets: &[(u32, TabletLane)], number: u32) -> Handover
    requires { IsInOrder tablets.now }
    ensures { result ≡ (tablet_in tablets.now number).handover }
{
    match search(tablets, number) {
        Ok(at) => tablets[at].1.handover,
        Err(_) => NO_HANDOVER,
    }
}

/// Whether the tablet of this number asked for hashes that have not come, or has some to ask for. One binary search.
pub(crate) fn is_waiting(tablets: &[(u32, TabletLane)], number: u32) -> bool
    requires { IsInOrder tablets.now }
    ensures { result ≡ is_waiting_lem (tablet_in tablets.now number).pulling.hashes }
{
    match search(tablets, number) {
        Ok(at) => tablets[at].1.wanted.is_waiting(),
        Err(_) => false,
    }
}

/// Whether a term is above those of all tablets whose range meets this one. A look at each tablet.
pub(crate) fn is_above_all(tablets: &[(u32, TabletLane)], range: &Range, term: u64) -> bool
    ensures { result ≡ list_all (is_above range.now term) (tablets_of tablets.now) }
{
    for entry in tablets {
        if entry.1.handover.range.meets(range) && entry.1.handover.term >= term {
            return false;
        }
    }
    true
}

/// Each tablet but that of this number whose range meets this one is given up. A look at each tablet.
pub(crate) fn give_up_others(tablets: &mut [(u32, TabletLane)], number: u32, range: &Range)
    requires { AreTablets tablets.old }
    ensures others { tablets_of tablets.new ≡ map (changing (given_up_but number range.now)) (tablets_of tablets.old) }
    ensures tablets { AreTablets tablets.new }
{
    for entry in tablets.iter_mut() {
        give_up_other(&mut entry.1, entry.0, number, range);
    }
}

// A tablet is given up if it is not that of `kept` and its range meets this one.
fn give_up_other(tablet: &mut TabletLane, number: u32, kept: u32, range: &Range)
    ensures { tablet_of tablet.new ≡ given_up_but kept range.now number (tablet_of tablet.old) }
{
    if number == kept || !tablet.handover.range.meets(range) {
        return;
    }
    tablet.give_up();
}

/// The tablet of this number is served from now on, at term 1. After `NoMemory` nothing has changed. One binary search,
/// and what an insertion takes.
pub(crate) fn serve(
    tablets: &mut Vec<(u32, TabletLane)>,
    number: u32,
    range: Range,
) -> Result<(), NoMemory>
    requires { AreTablets tablets.old.items }
    ensures ok { OnOk result (tablets_of tablets.new.items ≡ insert (tablets_of tablets.old.items) number
        (with_handover (tablet_in tablets.old.items number) (served range))) }
    ensures tablets { AreTablets tablets.new.items }
    ensures err { OnErr result (tablets.new.items ≡ tablets.old.items) }
{
    let handover = Handover {
        role: Role::Serving,
        term: 1,
        range,
        counter: 1,
    };
    match search(tablets.as_slice(), number) {
        Ok(at) => {
            tablets[at].1.handover = handover;
            Ok(())
        }
        Err(at) => {
            insert_new(tablets, at, number, handover)?;
            Ok(())
        }
    }
}

/// The tablet of this number has this handover from now on, and what was gathered and merged is forgotten. After
/// `NoMemory` nothing has changed. One binary search, and what an insertion takes.
pub(crate) fn hand(
    tablets: &mut Vec<(u32, TabletLane)>,
    number: u32,
    handover: Handover,
) -> Result<(), NoMemory>
    requires tablets { AreTablets tablets.old.items }
    requires receiving { handover.role ≢ Role.Receiving }
    requires joining { handover.role ≢ Role.Joining None }
    ensures ok { OnOk result (tablets_of tablets.new.items ≡ insert (tablets_of tablets.old.items) number
        (without_merged (with_handover (tablet_in tablets.old.items number) handover))) }
    ensures tablets { AreTablets tablets.new.items }
    ensures err { OnErr result (tablets.new.items ≡ tablets.old.items) }
{
    match search(tablets.as_slice(), number) {
        Ok(at) => {
            tablets[at].1.hand(handover);
            Ok(())
        }
        Err(at) => {
            insert_new(tablets, at, number, handover)?;
            Ok(())
        }
    }
}

// A tablet that the master does not know is inserted with this handover where its number belongs. After `NoMemory`
// nothing has changed. What an insertion takes.
fn insert_new(
    tablets: &mut Vec<(u32, TabletLane)>,
    at: usize,
    number: u32,
    handover: Handover,
) -> Result<(), NoMemory>
    requires tablets { AreTablets tablets.old.items }
    requires place { IsBetween number tablets.old.items at }
    requires receiving { handover.role ≢ Role.Receiving }
    requires joining { handover.role ≢ Role.Joining None }
    ensures ok { OnOk result (tablets_of tablets.new.items ≡ insert (tablets_of tablets.old.items) number (with_handover no_tablet handover)) }
    ensures tablets { AreTablets tablets.new.items }
    ensures err { OnErr result (tablets.new.items ≡ tablets.old.items) }
{
    let tablet = TabletLane::new(*tablets.allocator(), handover);
    tablets.insert(at, (number, tablet))?;
    Ok(())
}
