ghost use Rattle.std.specs.Prelude.{◌≡◌, ◌++◌, List, ℕ, length, drop, Ok, IfOk};
ghost use Rattle.rk_message.specs.declared.message.Message.{Message};
ghost use Rattle.rk_entry.specs.Steps.{Gives};
ghost use Rattle.rk_message.specs.Frames.{frame_bytes, IsLawfulMessage, StandsFirst, is_size, is_body_length, read_kind, read_size, read_fields, read_frame};

use crate::calls::{
    LOCATED_BYTES, LOOKUP_BYTES, REPLY_BYTES, REQUEST_BYTES, read_located, read_lookup, read_reply,
    read_request,
};
use crate::fields::{NODES_BYTES, TENURE_BYTES, read_node, read_tenure};
use crate::handover::{
    GRANT_BYTES, PREPARE_BYTES, READY_BYTES, TRANSFER_BYTES, read_grant, read_prepare, read_ready,
    read_transfer,
};
use crate::kind::Kind;
use crate::message::{Body, Message};
use crate::pulling::{
    GOT_BYTES, HASH_BYTES, PULL_BYTES, PULLED_BYTES, SHORTEST_ENTRY, WANT_BYTES, read_got,
    read_pull, read_pulled, read_want,
};
use crate::rebuilding::{
    COPY_BYTES, MEMBER_BYTES, READ_SEGMENT_BYTES, REBUILD_BYTES, REBUILT_BYTES, read_copy,
    read_read_segment, read_rebuild, read_rebuilt,
};
use crate::replication::{APPEND_BYTES, STORED_BYTES, read_append, read_stored};
use rk_entry::fields::{read_u8, read_u32};
use rk_entry::{
    BAD_BODY_LENGTH, BAD_KIND, DecodeError, END_BYTES, LONGEST_BODY, is_list, is_within,
};
use rk_types::{LONGEST_KEY, LONGEST_VALUE};
use std::alloc::Global;

// Whether the fields of some lawful message of this kind take so many bytes, as far as their number alone shows.
#[tactic(auto, unfolding(crate::specs::Frames::is_size))]
fn is_size(kind: Kind, size: u32) -> bool
    ensures { result ≡ is_size kind size }
{
    let key = LONGEST_KEY as u32;
    let value = LONGEST_VALUE as u32;
    match kind {
        Kind::Request => is_within(REQUEST_BYTES + 1, REQUEST_BYTES + key + 12 + value, size),
        Kind::Reply => size == REPLY_BYTES
            || is_within(REPLY_BYTES + 2, REPLY_BYTES + 12 + value, size),
        Kind::Lookup => size == LOOKUP_BYTES,
        Kind::Located => size == LOCATED_BYTES,
        Kind::Append => size >= APPEND_BYTES,
        Kind::Stored => size == STORED_BYTES,
        Kind::Prepare => size == PREPARE_BYTES,
        Kind::Ready => size == READY_BYTES,
        Kind::Close | Kind::Joined | Kind::Own | Kind::Release => size == TENURE_BYTES,
        Kind::Transfer => is_list(TRANSFER_BYTES, END_BYTES, LONGEST_BODY, size),
        Kind::Grant => is_list(GRANT_BYTES, END_BYTES, LONGEST_BODY, size),
        Kind::Pull => size == PULL_BYTES,
        Kind::Pulled => size == PULLED_BYTES || size >= PULLED_BYTES + SHORTEST_ENTRY,
        Kind::Want => is_list(WANT_BYTES, HASH_BYTES, LONGEST_BODY, size),
        Kind::Got => {
            is_list(GOT_BYTES, HASH_BYTES, LONGEST_BODY, size) || size >= GOT_BYTES + SHORTEST_ENTRY
        }
        Kind::Rebuild => is_list(REBUILD_BYTES, MEMBER_BYTES, LONGEST_BODY, size),
        Kind::Read => size == READ_SEGMENT_BYTES,
        Kind::Copy => size >= COPY_BYTES,
        Kind::Rebuilt => is_list(REBUILT_BYTES, END_BYTES, LONGEST_BODY, size),
    }
}

// The kind of a message.
#[tactic(auto, unfolding(crate::specs::Frames::read_kind))]
fn read_kind(bytes: &[u8]) -> Result<(Kind, &[u8]), DecodeError>
    ensures { Gives (λ x. (x.0, x.1.now)) result (read_kind bytes.now) }
{
    let (number, rest) = read_u8(bytes)?;
    let kind = Kind::numbered(number).ok_or(DecodeError::Bad(BAD_KIND))?;
    Ok((kind, rest))
}

// Whether some lawful message of this kind has a body of so many bytes, as far as their number alone shows.
fn is_body_length(kind: Kind, body: u32) -> bool
    ensures { result ≡ is_body_length kind body }
{
    is_within(NODES_BYTES, LONGEST_BODY, body) && is_size(kind, body - NODES_BYTES)
}

// How many bytes of a body of this kind are fields.
#[tactic(auto, unfolding(crate::specs::Frames::read_size))]
fn read_size(kind: Kind, bytes: &[u8]) -> Result<(u32, &[u8]), DecodeError>
    ensures { Gives (λ x. (x.0, x.1.now)) result (read_size kind bytes.now) }
{
    let (body, rest) = read_u32(bytes)?;
    if !is_body_length(kind, body) {
        return Err(DecodeError::Bad(BAD_BODY_LENGTH));
    }
    Ok((body - NODES_BYTES, rest))
}

// A body of this kind, made of what was read. A `match`, since a function with twenty-two `?` takes three times as long to prove.
macro_rules! body {
    ($kind:ident, $read:expr) => {
        match $read {
            Ok((fields, rest)) => Ok((Body::$kind(fields), rest)),
            Err(error) => Err(error),
        }
    };
}

// The fields, which take `size` bytes, of a message of this kind.
#[tactic(auto, unfolding(crate::specs::Frames::read_fields))]
fn read_fields(
    alloc: Global,
    kind: Kind,
    size: u32,
    bytes: &[u8],
) -> Result<(Body, &[u8]), DecodeError>
    ensures { Gives (λ x. (x.0, x.1.now)) result (read_fields kind size bytes.now) }
{
    match kind {
        Kind::Request => body!(Request, read_request(alloc, size, bytes)),
        Kind::Reply => body!(Reply, read_reply(alloc, size, bytes)),
        Kind::Lookup => body!(Lookup, read_lookup(bytes)),
        Kind::Located => body!(Located, read_located(bytes)),
        Kind::Append => body!(Append, read_append(alloc, size, bytes)),
        Kind::Stored => body!(Stored, read_stored(bytes)),
        Kind::Prepare => body!(Prepare, read_prepare(bytes)),
        Kind::Ready => body!(Ready, read_ready(bytes)),
        Kind::Close => body!(Close, read_tenure(bytes)),
        Kind::Transfer => body!(Transfer, read_transfer(alloc, size, bytes)),
        Kind::Grant => body!(Grant, read_grant(alloc, size, bytes)),
        Kind::Pull => body!(Pull, read_pull(bytes)),
        Kind::Pulled => body!(Pulled, read_pulled(alloc, size, bytes)),
        Kind::Want => body!(Want, read_want(alloc, size, bytes)),
        Kind::Got => body!(Got, read_got(alloc, size, bytes)),
        Kind::Joined => body!(Joined, read_tenure(bytes)),
        Kind::Own => body!(Own, read_tenure(bytes)),
        Kind::Release => body!(Release, read_tenure(bytes)),
        Kind::Rebuild => body!(Rebuild, read_rebuild(alloc, size, bytes)),
        Kind::Read => body!(Read, read_read_segment(bytes)),
        Kind::Copy => body!(Copy, read_copy(alloc, size, bytes)),
        Kind::Rebuilt => body!(Rebuilt, read_rebuilt(alloc, size, bytes)),
    }
}

// The message at the front of the bytes.
#[tactic(auto, unfolding(crate::specs::Frames::read_frame))]
fn read_frame(alloc: Global, bytes: &[u8]) -> Result<(Message, &[u8]), DecodeError>
    ensures { Gives (λ x. (x.0, x.1.now)) result (read_frame bytes.now) }
{
    let (kind, rest) = read_kind(bytes)?;
    let (size, rest) = read_size(kind, rest)?;
    let (from, rest) = read_node(rest)?;
    let (to, rest) = read_node(rest)?;
    let (body, rest) = read_fields(alloc, kind, size, rest)?;
    Ok((Message { from, to, body }, rest))
}

/// The message whose frame begins the bytes, and how many bytes the frame takes; any bytes may follow. `Cut` comes
/// if the bytes end before the field that is being read is whole and every field before it is lawful, `Bad` if a field
/// is whole and unlawful with those before it.
pub fn decode_frame(alloc: Global, bytes: &[u8]) -> Result<(Message, usize), DecodeError>
    // What is read is spelled so.
    ensures found { IfOk result (λ x. StandsFirst bytes.now x.0 x.1) }

    // What is spelled so is read, whatever follows it, unless memory runs out.
    ensures only { (message : Message) (rest : List ℕ) → IsLawfulMessage message → bytes.now ≡ frame_bytes message ++ rest → Gives (λ x. x) result (Ok (message, length (frame_bytes message))) }

    // A fault is the first one from the left.
    ensures exact { Gives (λ x. (x.0, drop x.1 bytes.now)) result (read_frame bytes.now) }
{
    let (message, rest) = read_frame(alloc, bytes)?;
    Ok((message, bytes.len() - rest.len()))
}
