ghost use Rattle.std.specs.Prelude.{◌≡◌, ◌≤◌, ◌++◌, List, ℕ, length, drop, Ok, IfOk};
ghost use Rattle.rk_entry.specs.declared.entry.Entry.{Entry};
ghost use Rattle.rk_entry.specs.Steps.{Gives};
ghost use Rattle.rk_entry.specs.Spelling.{mark_of, spelled};
ghost use Rattle.rk_entry.specs.Lawful.{IsLawfulEntry};
ghost use Rattle.rk_entry.specs.Entries.{StandsFirst};
ghost use Rattle.rk_entry.specs.Texts.{read_value_length};
ghost use Rattle.rk_entry.specs.Reading.{shortest_value, longest_value, read_kind, read_body_length, read_tombstone, read_object, read_refused, read_carried, read_joined, read_fields, read_mark, read_entry};

use crate::entry::{Carried, Entry, Joined, Refused};
use crate::error::{BAD_BODY_LENGTH, BAD_KIND, BAD_MARK, DecodeError};
use crate::fields::{
    read_key, read_key_length, read_range, read_u8, read_u16, read_u32, read_u64_from, read_value,
    read_value_length,
};
use crate::head::{read_head, read_why};
use crate::kind::{
    CARRIED_BYTES, END_BYTES, JOINED_BYTES, Kind, OBJECT_BYTES, REFUSED_BYTES,
    SEGMENT_NUMBER_BYTES, TOMBSTONE_BYTES, mark_count,
};
use crate::lists::{read_ends, read_segments};
use crate::mark::mark_of;
use rk_types::{Held, LONGEST_SHORT_VALUE, LONGEST_VALUE};
use std::alloc::Global;

// The kind of an entry.
#[tactic(auto, unfolding(crate::specs::Reading::read_kind))]
fn read_kind(bytes: &[u8]) -> Result<(Kind, &[u8]), DecodeError>
    ensures { Gives (λ x. (x.0, x.1.now)) result (read_kind bytes.now) }
{
    let (number, rest) = read_u8(bytes)?;
    let kind = Kind::numbered(number).ok_or(DecodeError::Bad(BAD_KIND))?;
    Ok((kind, rest))
}

// The length of a body of this kind.
#[tactic(auto, unfolding(crate::specs::Reading::read_body_length))]
fn read_body_length(kind: Kind, bytes: &[u8]) -> Result<(u32, &[u8]), DecodeError>
    ensures { Gives (λ x. (x.0, x.1.now)) result (read_body_length kind bytes.now) }
{
    let (count, rest) = read_u32(bytes)?;
    if !kind.is_body_length(count) {
        return Err(DecodeError::Bad(BAD_BODY_LENGTH));
    }
    Ok((count, rest))
}

// The fields of an item without a value.
#[tactic(auto, unfolding(crate::specs::Reading::read_tombstone))]
fn read_tombstone(alloc: Global, body: u32, bytes: &[u8]) -> Result<(Entry, &[u8]), DecodeError>
    ensures { Gives (λ x. (x.0, x.1.now)) result (read_tombstone body bytes.now) }
{
    let (head, rest) = read_head(1, bytes)?;
    let (count, rest) = read_key_length(rest)?;
    if body != TOMBSTONE_BYTES + count as u32 {
        return Err(DecodeError::Bad(BAD_BODY_LENGTH));
    }
    let (key, rest) = read_key(alloc, count, rest)?;
    let held = Held {
        table: head.table,
        version: head.version,
        client: head.client,
        seq: head.seq,
        key,
        value: None,
    };
    Ok((Entry::Held(held), rest))
}

// The length of the value of an object, with a mark or without.
fn read_object_length(marked: bool, bytes: &[u8]) -> Result<(u32, &[u8]), DecodeError>
    ensures given { Gives (λ x. (x.0, x.1.now)) result (read_value_length (shortest_value marked) (longest_value marked) bytes.now) }
    ensures within { IfOk result (λ x. x.0 ≤ LONGEST_VALUE) }
{
    if marked {
        return read_value_length(LONGEST_SHORT_VALUE as u32 + 1, LONGEST_VALUE as u32, bytes);
    }
    read_value_length(0, LONGEST_SHORT_VALUE as u32, bytes)
}

// The fields of an item with a value, all but its mark.
#[tactic(auto, unfolding(crate::specs::Reading::read_object))]
fn read_object(
    alloc: Global,
    marked: bool,
    body: u32,
    bytes: &[u8],
) -> Result<(Entry, &[u8]), DecodeError>
    ensures { Gives (λ x. (x.0, x.1.now)) result (read_object marked body bytes.now) }
{
    let (head, rest) = read_head(1, bytes)?;
    let (key_count, rest) = read_key_length(rest)?;
    let (key, rest) = read_key(alloc, key_count, rest)?;
    let (count, rest) = read_object_length(marked, rest)?;
    if body != OBJECT_BYTES + key_count as u32 + count + mark_count(marked) {
        return Err(DecodeError::Bad(BAD_BODY_LENGTH));
    }
    let (value, rest) = read_value(alloc, count, rest)?;
    let held = Held {
        table: head.table,
        version: head.version,
        client: head.client,
        seq: head.seq,
        key,
        value: Some(value),
    };
    Ok((Entry::Held(held), rest))
}

// The fields of a refusal.
#[tactic(auto, unfolding(crate::specs::Reading::read_refused))]
fn read_refused(alloc: Global, body: u32, bytes: &[u8]) -> Result<(Entry, &[u8]), DecodeError>
    ensures { Gives (λ x. (x.0, x.1.now)) result (read_refused body bytes.now) }
{
    let (head, rest) = read_head(0, bytes)?;
    let (absent, rest) = read_why(head.version, rest)?;
    let (count, rest) = read_key_length(rest)?;
    if body != REFUSED_BYTES + count as u32 {
        return Err(DecodeError::Bad(BAD_BODY_LENGTH));
    }
    let (key, rest) = read_key(alloc, count, rest)?;
    let refused = Refused {
        table: head.table,
        found: head.version,
        client: head.client,
        seq: head.seq,
        absent,
        key,
    };
    Ok((Entry::Refused(refused), rest))
}

// The fields of the ends that came with a tablet.
#[tactic(auto, unfolding(crate::specs::Reading::read_carried))]
fn read_carried(alloc: Global, body: u32, bytes: &[u8]) -> Result<(Entry, &[u8]), DecodeError>
    ensures { Gives (λ x. (x.0, x.1.now)) result (read_carried body bytes.now) }
{
    let (range, rest) = read_range(bytes)?;
    let (term, rest) = read_u64_from(1, rest)?;
    let (floor, rest) = read_u64_from(1, rest)?;
    let (count, rest) = read_u16(rest)?;
    if body != CARRIED_BYTES + END_BYTES * count as u32 {
        return Err(DecodeError::Bad(BAD_BODY_LENGTH));
    }
    let (ends, rest) = read_ends(alloc, count, rest)?;
    let carried = Carried {
        range,
        term,
        floor,
        ends,
    };
    Ok((Entry::Carried(carried), rest))
}

// The fields of the side segments that became part of the log.
#[tactic(auto, unfolding(crate::specs::Reading::read_joined))]
fn read_joined(alloc: Global, body: u32, bytes: &[u8]) -> Result<(Entry, &[u8]), DecodeError>
    ensures { Gives (λ x. (x.0, x.1.now)) result (read_joined body bytes.now) }
{
    let (range, rest) = read_range(bytes)?;
    let (term, rest) = read_u64_from(1, rest)?;
    let (count, rest) = read_u32(rest)?;
    if body as u64 != JOINED_BYTES as u64 + SEGMENT_NUMBER_BYTES as u64 * count as u64 {
        return Err(DecodeError::Bad(BAD_BODY_LENGTH));
    }
    let (segments, rest) = read_segments(alloc, count, rest)?;
    let joined = Joined {
        range,
        term,
        segments,
    };
    Ok((Entry::Joined(joined), rest))
}

// The fields of an entry of this kind with a body of so many bytes.
fn read_fields(
    alloc: Global,
    kind: Kind,
    body: u32,
    bytes: &[u8],
) -> Result<(Entry, &[u8]), DecodeError>
    ensures { Gives (λ x. (x.0, x.1.now)) result (read_fields kind body bytes.now) }
{
    match kind {
        Kind::Object => read_object(alloc, false, body, bytes),
        Kind::Tombstone => read_tombstone(alloc, body, bytes),
        Kind::Refused => read_refused(alloc, body, bytes),
        Kind::Carried => read_carried(alloc, body, bytes),
        Kind::Joined => read_joined(alloc, body, bytes),
        Kind::LongObject => read_object(alloc, true, body, bytes),
    }
}

// The mark after the bytes `front` of an entry of this kind, if it has one.
#[tactic(auto, unfolding(crate::specs::Reading::read_mark))]
fn read_mark<'a>(kind: Kind, front: &[u8], bytes: &'a [u8]) -> Result<&'a [u8], DecodeError>
    ensures { Gives (λ rest. rest.now) result (read_mark kind front.now bytes.now) }
{
    if !kind.is_marked() {
        return Ok(bytes);
    }
    let (mark, rest) = read_u8(bytes)?;
    if mark != mark_of(front) {
        return Err(DecodeError::Bad(BAD_MARK));
    }
    Ok(rest)
}

// The entry at the front of the bytes, and the bytes after it.
#[tactic(auto, unfolding(crate::specs::Reading::read_entry))]
fn read_entry(alloc: Global, bytes: &[u8]) -> Result<(Entry, &[u8]), DecodeError>
    ensures { Gives (λ x. (x.0, x.1.now)) result (read_entry bytes.now) }
{
    let (kind, rest) = read_kind(bytes)?;
    let (body, rest) = read_body_length(kind, rest)?;
    let (entry, rest) = read_fields(alloc, kind, body, rest)?;
    let front = &bytes[..bytes.len() - rest.len()];
    let rest = read_mark(kind, front, rest)?;
    Ok((entry, rest))
}

/// The entry whose spelling begins the bytes, and how many bytes it takes; any bytes may follow. `Cut` comes if the
/// bytes end before the field that is being read is whole and every field before it is lawful, `Bad` if a field is
/// whole and unlawful with those before it.
pub fn decode(alloc: Global, bytes: &[u8]) -> Result<(Entry, usize), DecodeError>
    // What is read is spelled so.
    ensures found { IfOk result (λ x. StandsFirst bytes.now x.0 x.1) }

    // What is spelled so is read, whatever follows it, unless memory runs out.
    ensures only { (entry : Entry) (rest : List ℕ) → IsLawfulEntry entry → bytes.now ≡ spelled entry ++ rest → Gives (λ x. x) result (Ok (entry, length (spelled entry))) }

    // A fault is the first one from the left.
    ensures exact { Gives (λ x. (x.0, drop x.1 bytes.now)) result (read_entry bytes.now) }
{
    let (entry, rest) = read_entry(alloc, bytes)?;
    Ok((entry, bytes.len() - rest.len()))
}
