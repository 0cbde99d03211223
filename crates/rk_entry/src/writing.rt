ghost use Rattle.std.specs.Prelude.{◌≡◌, ◌+◌, ◌++◌, length, OnOk, OnErr};
ghost use Rattle.rk_types.specs.Held.{spelled_of};
ghost use Rattle.rk_entry.specs.Numbers.{HasRoom, Gains};
ghost use Rattle.rk_entry.specs.Spelling.{spelled, item_value_bytes, held_bytes, refused_bytes, carried_bytes, joined_bytes, fields_bytes, body_length, front_bytes};
ghost use Rattle.rk_entry.specs.Lawful.{IsLawfulEntry, IsLawfulCarried, IsLawfulJoined};
ghost use Rattle.rk_entry.specs.Lengths.{value_count, held_count, refused_count, carried_count, joined_count, fields_count};

use crate::entry::{Carried, Entry, Joined, Refused};
use crate::fields::{put_key, put_range, put_u8, put_u16, put_u32, put_u64, put_value};
use crate::head::{Head, put_head, put_why};
use crate::kind::{
    CARRIED_BYTES, END_BYTES, HEAD_BYTES, JOINED_BYTES, REFUSED_BYTES, SEGMENT_NUMBER_BYTES,
};
use crate::lists::{put_ends, put_segments};
use crate::mark::mark_of;
use rk_types::{Held, NoMemory, Value};

// Puts the value of an item at the end, if it has one.
fn put_item_value(into: &mut Vec<u8>, value: &Option<Value>)
    requires { HasRoom into.old (value_count value.now) }
    ensures { Gains into.old into.new (item_value_bytes value.now) (value_count value.now) }
{
    if let Some(value) = value {
        put_value(into, value);
    }
}

// Puts the fields of an item at the end.
#[tactic(auto, unfolding(crate::specs::Spelling::held_bytes))]
fn put_held(into: &mut Vec<u8>, held: &Held)
    requires { HasRoom into.old (held_count held.now) }
    ensures { Gains into.old into.new (held_bytes held.now) (held_count held.now) }
{
    let head = Head {
        table: held.table,
        version: held.version,
        client: held.client,
        seq: held.seq,
    };
    put_head(into, &head);
    put_key(into, &held.key);
    put_item_value(into, &held.value);
}

// Puts the fields of a refusal at the end.
#[tactic(auto, unfolding(crate::specs::Spelling::refused_bytes))]
fn put_refused(into: &mut Vec<u8>, refused: &Refused)
    requires { HasRoom into.old (refused_count refused.now) }
    ensures { Gains into.old into.new (refused_bytes refused.now) (refused_count refused.now) }
{
    let head = Head {
        table: refused.table,
        version: refused.found,
        client: refused.client,
        seq: refused.seq,
    };
    put_head(into, &head);
    put_why(into, refused.absent);
    put_key(into, &refused.key);
}

// Puts the fields of the ends that came with a tablet at the end.
#[tactic(auto, unfolding(crate::specs::Spelling::carried_bytes))]
fn put_carried(into: &mut Vec<u8>, carried: &Carried)
    requires lawful { IsLawfulCarried carried.now }
    requires room { HasRoom into.old (carried_count carried.now) }
    ensures { Gains into.old into.new (carried_bytes carried.now) (carried_count carried.now) }
{
    let ends = carried.ends.as_slice();
    put_range(into, &carried.range);
    put_u64(into, carried.term);
    put_u64(into, carried.floor);
    put_u16(into, ends.len() as u16);
    put_ends(into, ends);
}

// Puts the fields of the side segments that became part of the log at the end.
#[tactic(auto, unfolding(crate::specs::Spelling::joined_bytes))]
fn put_joined(into: &mut Vec<u8>, joined: &Joined)
    requires lawful { IsLawfulJoined joined.now }
    requires room { HasRoom into.old (joined_count joined.now) }
    ensures { Gains into.old into.new (joined_bytes joined.now) (joined_count joined.now) }
{
    let segments = joined.segments.as_slice();
    put_range(into, &joined.range);
    put_u64(into, joined.term);
    put_u32(into, segments.len() as u32);
    put_segments(into, segments);
}

// Puts the fields of an entry at the end, all but its mark.
fn put_fields(into: &mut Vec<u8>, entry: &Entry)
    requires lawful { IsLawfulEntry entry.now }
    requires room { HasRoom into.old (fields_count entry.now) }
    ensures { Gains into.old into.new (fields_bytes entry.now) (fields_count entry.now) }
{
    match entry {
        Entry::Held(held) => put_held(into, held),
        Entry::Refused(refused) => put_refused(into, refused),
        Entry::Carried(carried) => put_carried(into, carried),
        Entry::Joined(joined) => put_joined(into, joined),
    }
}

// Puts an entry with a body of `body` bytes at the end, all but its mark.
#[tactic(auto, unfolding(crate::specs::Spelling::front_bytes))]
fn put_front(into: &mut Vec<u8>, entry: &Entry, body: u32)
    requires lawful { IsLawfulEntry entry.now }
    requires body { body ≡ body_length entry.now }
    requires room { HasRoom into.old (HEAD_BYTES + fields_count entry.now) }
    ensures { Gains into.old into.new (front_bytes entry.now) (HEAD_BYTES + fields_count entry.now) }
{
    put_u8(into, entry.kind().number());
    put_u32(into, body);
    put_fields(into, entry);
}

/// How many bytes the spelling of a lawful entry takes.
pub fn entry_len(entry: &Entry) -> u32
    requires { IsLawfulEntry entry.now }
    ensures { result ≡ length (spelled entry.now) }
{
    match entry {
        Entry::Held(held) => held.spelled(),
        Entry::Refused(refused) => HEAD_BYTES + REFUSED_BYTES + refused.key.bytes().len() as u32,
        Entry::Carried(carried) => {
            HEAD_BYTES + CARRIED_BYTES + END_BYTES * carried.ends.as_slice().len() as u32
        }
        Entry::Joined(joined) => {
            HEAD_BYTES
                + JOINED_BYTES
                + SEGMENT_NUMBER_BYTES * joined.segments.as_slice().len() as u32
        }
    }
}

/// Puts the spelling of a lawful entry at the end, in memory that was taken before.
#[tactic(auto, using(crate::proofs::Sizes::spelled_count, crate::proofs::Sizes::body_count, crate::proofs::Sizes::front_count))]
pub fn put_entry(into: &mut Vec<u8>, entry: &Entry)
    requires lawful { IsLawfulEntry entry.now }
    requires room { HasRoom into.old (length (spelled entry.now)) }
    ensures { Gains into.old into.new (spelled entry.now) (length (spelled entry.now)) }
{
    let start = into.len();
    put_front(into, entry, entry_len(entry) - HEAD_BYTES);
    if entry.kind().is_marked() {
        let (_, front) = into.split_at(start);
        let mark = mark_of(front);
        put_u8(into, mark);
    }
}

/// Puts the spelling of a lawful entry at the end of `into`. After `NoMemory` it is as it was.
pub fn encode(entry: &Entry, into: &mut Vec<u8>) -> Result<(), NoMemory>
    requires { IsLawfulEntry entry.now }
    ensures ok { OnOk result (into.new.items ≡ into.old.items ++ spelled entry.now) }
    ensures err { OnErr result (into.new.items ≡ into.old.items) }
{
    into.reserve(entry_len(entry) as usize)?;
    put_entry(into, entry);
    Ok(())
}
