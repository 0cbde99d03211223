ghost use Rattle.std.specs.Prelude.{◌≡◌, find, is_some, not, [], false, true, drop};
ghost use Rattle.std.specs.List.{AllByRecursion};
ghost use Rattle.std.specs.Option.{option_copied};
ghost use Rattle.rk_types.specs.NumberMap.{get};
ghost use Rattle.rk_types.specs.declared.range.Range.{Range as Hashes};
ghost use Rattle.rk_world.specs.Gather as gathers;
ghost use Rattle.rk_rebuild.specs.Logs.{IsGathered, IsShort, KnowsNamed, gathered_at, is_unread as is_unread_lem, log_of as log_of_lem, members_of};

use rk_entry::Entry;
use rk_types::{Listed, Member, Numbered};
use rk_world::Reading;
use std::alloc::Global;

/// What was read of the log of a master: its main segments, whether the last one was passed, and its side segments.
#[derive(Drop)]
pub(crate) struct ReadLog {
    pub master: u8,
    pub main: Listed<Listed<Entry>>,
    pub main_read: bool,
    pub sides: Numbered<Listed<Entry>>,
}

/// A member of a lineage, with the side segments that its entries name, each once, and how many first ones of them were
/// read. These are known once the last main segment of its master was passed.
#[derive(Drop)]
pub(crate) struct Reader {
    pub member: Member,
    pub named: Listed<u32>,
    pub done: usize,
}

impl ReadLog {
    /// Nothing was read of a master so far, which takes no memory.
    pub(crate) fn new(alloc: Global, master: u8) -> ReadLog
        ensures master { result.master ≡ master }
        ensures main { result.main ≡ [] }
        ensures passed { result.main_read ≡ false }
        ensures sides { result.sides ≡ [] }
    {
        ReadLog {
            master,
            main: Listed::new(alloc),
            main_read: false,
            sides: Numbered::new(alloc),
        }
    }
}

/// What was read of a master, if anything was. A look at each log.
pub(crate) fn log_of(logs: &[ReadLog], master: u8) -> Option<&ReadLog>
    ensures { option_copied result ≡ log_of_lem logs.now master }
{
    for log in logs {
        if log.master == master {
            return Some(log);
        }
    }
    None
}

/// What is read next of these members, the first of them first. A look at each member.
pub(crate) fn next_of(logs: &[ReadLog], readers: &[Reader]) -> Option<Reading>
    requires { AllByRecursion IsShort logs.now }
    ensures { (range : Hashes) → AllByRecursion (KnowsNamed range logs.now) readers.now
        → result ≡ gathers.next_of range (members_of logs.now readers.now) }
{
    for reader in readers {
        if let Some(segment) = next_segment(logs, reader) {
            return Some(Reading {
                master: reader.member.master,
                segment,
            });
        }
    }
    None
}

// The segment of a member that is read next: the main ones in their order, and then the side ones.
fn next_segment(logs: &[ReadLog], reader: &Reader) -> Option<u32>
    requires { AllByRecursion IsShort logs.now }
    ensures { (range : Hashes) → KnowsNamed range logs.now reader.now
        → result ≡ gathers.next_segment range (gathered_at logs.now reader.now.member) }
{
    let Some(log) = log_of(logs, reader.member.master) else {
        return Some(1);
    };
    if log.main_read {
        return next_side(left_of(reader.named.as_slice(), reader.done), &log.sides);
    }
    Some(log.main.as_slice().len() as u32 + 1)
}

/// The numbers behind the first ones of these.
pub(crate) fn left_of(numbers: &[u32], done: usize) -> &[u32]
    ensures { result.now ≡ drop done numbers.now }
{
    numbers.split_at(done.min(numbers.len())).1
}

// The first of these side segments that was not read. A search for each of them up to that one.
fn next_side(named: &[u32], sides: &Numbered<Listed<Entry>>) -> Option<u32>
    ensures { result ≡ find (is_unread_lem sides.now) named.now }
{
    for segment in named {
        if is_unread(sides, *segment) {
            return Some(*segment);
        }
    }
    None
}

/// Whether a side segment was not read. One search.
pub(crate) fn is_unread(sides: &Numbered<Listed<Entry>>, segment: u32) -> bool
    ensures { result ≡ is_unread_lem sides.now segment }
{
    sides.get(u64::from(segment)).is_none()
}
