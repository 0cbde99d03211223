// What a segment that was read changes.
ghost use Rattle.std.specs.Prelude.{◌≡◌, ◌+◌, ◌<◌, ◌∷◌, ◌++◌, [], drop, length, map as map_list, IfOk, OnOk, OnErr, true, vec_len};
ghost use Rattle.std.specs.List.{AllByRecursion, flat_map, position_or_len};
ghost use Rattle.std.specs.Option.{option_map};
ghost use Rattle.rk_types.specs.NumberMap.{insert as insert_lem};
ghost use Rattle.rk_types.specs.declared.lineage.Member.{Member as Member_of};
ghost use Rattle.rk_outside.specs.Segments.{bytes_of};
ghost use Rattle.rk_entry.specs.Entries.{entries_of};
ghost use Rattle.rk_world.specs.Gather.{LAST_MAIN_SEGMENT as LAST, with_read};
ghost use Rattle.rk_rebuild.specs.Lent.{lent};
ghost use Rattle.rk_rebuild.specs.declared.member.ReadLog.{ReadLog as Log};
ghost use Rattle.rk_rebuild.specs.Logs.{IsGathered, IsShort, advanced, gathered_at, is_by, is_unread as is_unread_lem, members_of, passed};

use crate::material::{lend_all, named};
use crate::member::{ReadLog, Reader, is_unread, left_of};
use rk_entry::{Entry, entries};
use rk_types::{Listed, NoMemory, Numbered, Range};
use std::alloc::Global;

/// The last main segment that there can be.
const LAST_MAIN_SEGMENT: usize = 2_147_483_648;

/// A segment of a master was read, or was never written. After `NoMemory` nothing has changed of what was read; it comes
/// too if a master's main segments are as many as there can be. A step for each entry of the segment, and for each
/// entry of the log if its main segments are passed by this.
pub(crate) fn read(
    alloc: Global,
    range: &Range,
    logs: &mut Vec<ReadLog>,
    readers: &mut Vec<Reader>,
    master: u8,
    segment: u32,
    bytes: Option<&[u8]>,
) -> Result<(), NoMemory>
    requires { IsGathered range.now logs.old.items readers.old.items }
    ensures ok { OnOk result (members_of logs.new.items readers.new.items
        ≡ with_read (members_of logs.old.items readers.old.items) master segment (option_map (λ b. b.now) bytes.entry)) }
    ensures err { OnErr result (members_of logs.new.items readers.new.items ≡ members_of logs.old.items readers.old.items) }
    ensures kept { IsGathered range.now logs.new.items readers.new.items }
{
    let place = opened(alloc, logs, master)?;
    let log = &mut logs[place];
    if log.main_read {
        read_side(alloc, log, segment, bytes)?;
        advance(readers, log);
        return Ok(());
    }
    match bytes {
        Some(bytes) => read_main(alloc, log, bytes),
        None => pass_main(alloc, range, log, readers),
    }
}

// The place of the log of a master; one of which nothing was read is put behind the others.
fn opened(alloc: Global, logs: &mut Vec<ReadLog>, master: u8) -> Result<usize, NoMemory>
    ensures same { (member : Member_of) → gathered_at logs.new.items member ≡ gathered_at logs.old.items member }
    ensures short { AllByRecursion IsShort logs.old.items → AllByRecursion IsShort logs.new.items }
    ensures place { IfOk result (λ place. place ≡ position_or_len (is_by master) logs.new.items) }
    ensures within { IfOk result (λ place. place < vec_len logs.new) }
{
    let place = place_of(logs.as_slice(), master);
    if place < logs.len() {
        return Ok(place);
    }
    logs.push(ReadLog::new(alloc, master))?;
    Ok(place)
}

// The place of the log of a master, or past the last one if there is none. A look at each log.
fn place_of(logs: &[ReadLog], master: u8) -> usize
    ensures { result ≡ position_or_len (is_by master) logs.now }
{
    for (place, log) in logs.iter().enumerate() {
        if log.master == master {
            return place;
        }
    }
    logs.len()
}

// A side segment was read; if it was never written, it has no entries.
fn read_side(
    alloc: Global,
    log: &mut ReadLog,
    segment: u32,
    bytes: Option<&[u8]>,
) -> Result<(), NoMemory>
    ensures ok { OnOk result (log.new ≡ record log.old
        { sides = insert_lem log.old.sides segment (entries_of (bytes_of (option_map (λ b. b.now) bytes.entry))) }) }
    ensures err { OnErr result (log.new ≡ log.old) }
{
    let (side, _) = entries(alloc, bytes.unwrap_or(&[]))?;
    log.sides.insert(u64::from(segment), Listed::from_vec(side))
}

// The readers of a master are moved on to the first side segment that was not read. A search for each that they pass.
fn advance(readers: &mut Vec<Reader>, log: &ReadLog)
    ensures { readers.new.items ≡ map_list (advanced log.now) readers.old.items }
{
    for reader in readers.iter_mut() {
        advance_one(reader, log);
    }
}

// A reader is moved on, if it is one of the master.
fn advance_one(reader: &mut Reader, log: &ReadLog)
    ensures { reader.new ≡ advanced log.now reader.old }
{
    if reader.member.master != log.master {
        return;
    }
    let passed = read_first(left_of(reader.named.as_slice(), reader.done), &log.sides);
    reader.done += passed;
}

// How many first ones of these side segments were read. A search for each of them.
fn read_first(segments: &[u32], sides: &Numbered<Listed<Entry>>) -> usize
    ensures { result ≡ position_or_len (is_unread_lem sides.now) segments.now }
{
    for (place, segment) in segments.iter().enumerate() {
        if is_unread(sides, *segment) {
            return place;
        }
    }
    segments.len()
}

// A main segment was read.
fn read_main(alloc: Global, log: &mut ReadLog, bytes: &[u8]) -> Result<(), NoMemory>
    ensures ok { OnOk result (log.new ≡ record log.old { main = log.old.main ++ entries_of bytes.now ∷ [] }) }
    ensures short { OnOk result (length log.old.main + 1 < LAST) }
    ensures err { OnErr result (log.new ≡ log.old) }
{
    if log.main.as_slice().len() + 1 >= LAST_MAIN_SEGMENT {
        return Err(NoMemory);
    }
    let (segment, _) = entries(alloc, bytes)?;
    log.main.push(Listed::from_vec(segment))
}

// The main segments of a master are passed: its readers know now which side segments are named.
fn pass_main(
    alloc: Global,
    range: &Range,
    log: &mut ReadLog,
    readers: &mut Vec<Reader>,
) -> Result<(), NoMemory>
    ensures ok { OnOk result (log.new ≡ record log.old { main_read = true }) }
    ensures readers { OnOk result (readers.new.items ≡ map_list (passed range.now log.old) readers.old.items) }
    ensures err { OnErr result (log.new ≡ log.old) }
    ensures same { OnErr result (readers.new.items ≡ readers.old.items) }
{
    *readers = all_passed(alloc, range, log, readers.as_slice())?;
    log.main_read = true;
    Ok(())
}

// The readers once the main segments of a master are passed.
fn all_passed(
    alloc: Global,
    range: &Range,
    log: &ReadLog,
    readers: &[Reader],
) -> Result<Vec<Reader>, NoMemory>
    ensures { IfOk result (λ now. now.items ≡ map_list (passed range.now log.now) readers.now) }
{
    let lent = lend_all(alloc, log.main.as_slice())?;
    let mut now = Vec::new(alloc);
    for reader in readers {
        now.push(one_passed(alloc, range, log.master, lent.as_slice(), reader)?)?;
    }
    Ok(now)
}

// A reader once the main segments of a master are passed, which have these entries.
fn one_passed(
    alloc: Global,
    range: &Range,
    master: u8,
    entries: &[&Entry],
    reader: &Reader,
) -> Result<Reader, NoMemory>
    ensures { IfOk result (λ now. (log : Log) → log.master ≡ master → flat_map (λ segment. segment) log.main ≡ lent entries.now
        → now ≡ passed range.now log reader.now) }
{
    if reader.member.master != master {
        return Ok(Reader {
            member: reader.member,
            named: reader.named.duplicate()?,
            done: reader.done,
        });
    }
    Ok(Reader {
        member: reader.member,
        named: named(alloc, range, behind(entries, reader.member.from))?,
        done: 0,
    })
}

/// The entries from a place on.
pub(crate) fn behind<'a, 'b>(entries: &'b [&'a Entry], from: u64) -> &'b [&'a Entry]
    ensures { result.now ≡ drop from entries.now }
{
    let place = (from as usize).min(entries.len());
    entries.split_at(place).1
}
