ghost use Rattle.std.specs.Prelude.{◌≡◌, ◌<◌, ◌++◌, ◌^◌, length, OnOk, OnErr};
ghost use Rattle.rk_entry.specs.Numbers.{HasRoom, Gains};
ghost use Rattle.rk_message.specs.Frames.{fields_bytes, fields_count, IsLawfulBody, body_count, frame_bytes, frame_len, IsLawfulMessage};

use crate::calls::{
    LOCATED_BYTES, LOOKUP_BYTES, put_located, put_lookup, put_reply, put_request, reply_len,
    request_len,
};
use crate::fields::{NODES_BYTES, TENURE_BYTES, put_node, put_tenure};
use crate::handover::{
    PREPARE_BYTES, READY_BYTES, grant_len, put_grant, put_prepare, put_ready, put_transfer,
    transfer_len,
};
use crate::message::{Body, Message};
use crate::pulling::{
    PULL_BYTES, got_len, pulled_len, put_got, put_pull, put_pulled, put_want, want_len,
};
use crate::rebuilding::{
    READ_SEGMENT_BYTES, copy_len, put_copy, put_read_segment, put_rebuild, put_rebuilt,
    rebuild_len, rebuilt_len,
};
use crate::replication::{STORED_BYTES, append_len, put_append, put_stored};
use rk_entry::HEAD_BYTES;
use rk_entry::fields::{put_u8, put_u32};
use rk_types::NoMemory;

// How many bytes the fields of a lawful body take.
fn fields_len(body: &Body) -> u32
    requires lawful { IsLawfulBody body.now }
    requires within { fields_count body.now < 2 ^ 32 }
    ensures { result ≡ fields_count body.now }
{
    match body {
        Body::Request(request) => request_len(request),
        Body::Reply(reply) => reply_len(reply),
        Body::Lookup(_) => LOOKUP_BYTES,
        Body::Located(_) => LOCATED_BYTES,
        Body::Append(append) => append_len(append),
        Body::Stored(_) => STORED_BYTES,
        Body::Prepare(_) => PREPARE_BYTES,
        Body::Ready(_) => READY_BYTES,
        Body::Close(_) => TENURE_BYTES,
        Body::Transfer(transfer) => transfer_len(transfer),
        Body::Grant(grant) => grant_len(grant),
        Body::Pull(_) => PULL_BYTES,
        Body::Pulled(pulled) => pulled_len(pulled),
        Body::Want(want) => want_len(want),
        Body::Got(got) => got_len(got),
        Body::Joined(_) => TENURE_BYTES,
        Body::Own(_) => TENURE_BYTES,
        Body::Release(_) => TENURE_BYTES,
        Body::Rebuild(rebuild) => rebuild_len(rebuild),
        Body::Read(_) => READ_SEGMENT_BYTES,
        Body::Copy(copy) => copy_len(copy),
        Body::Rebuilt(rebuilt) => rebuilt_len(rebuilt),
    }
}

// Puts the fields of a lawful body at the end.
fn put_fields(into: &mut Vec<u8>, body: &Body)
    requires lawful { IsLawfulBody body.now }
    requires within { fields_count body.now < 2 ^ 32 }
    requires room { HasRoom into.old (fields_count body.now) }
    ensures { Gains into.old into.new (fields_bytes body.now) (fields_count body.now) }
{
    match body {
        Body::Request(request) => put_request(into, request),
        Body::Reply(reply) => put_reply(into, reply),
        Body::Lookup(lookup) => put_lookup(into, lookup),
        Body::Located(located) => put_located(into, located),
        Body::Append(append) => put_append(into, append),
        Body::Stored(stored) => put_stored(into, stored),
        Body::Prepare(prepare) => put_prepare(into, prepare),
        Body::Ready(ready) => put_ready(into, ready),
        Body::Close(tenure) => put_tenure(into, tenure),
        Body::Transfer(transfer) => put_transfer(into, transfer),
        Body::Grant(grant) => put_grant(into, grant),
        Body::Pull(pull) => put_pull(into, pull),
        Body::Pulled(pulled) => put_pulled(into, pulled),
        Body::Want(want) => put_want(into, want),
        Body::Got(got) => put_got(into, got),
        Body::Joined(tenure) => put_tenure(into, tenure),
        Body::Own(tenure) => put_tenure(into, tenure),
        Body::Release(tenure) => put_tenure(into, tenure),
        Body::Rebuild(rebuild) => put_rebuild(into, rebuild),
        Body::Read(wanted) => put_read_segment(into, wanted),
        Body::Copy(copy) => put_copy(into, copy),
        Body::Rebuilt(rebuilt) => put_rebuilt(into, rebuilt),
    }
}

/// How many bytes the frame of a lawful message takes.
pub fn frame_len(message: &Message) -> u32
    requires { IsLawfulMessage message.now }
    ensures length { result ≡ length (frame_bytes message.now) }
    ensures counted { result ≡ frame_len message.now }
{
    HEAD_BYTES + NODES_BYTES + fields_len(&message.body)
}

/// Puts the frame of a lawful message at the end of `into`. After `NoMemory` it is as it was.
#[tactic(auto, unfolding(crate::specs::Frames::frame_bytes, crate::specs::Frames::body_bytes))]
pub fn encode_frame(message: &Message, into: &mut Vec<u8>) -> Result<(), NoMemory>
    requires { IsLawfulMessage message.now }
    ensures ok { OnOk result (into.new.items ≡ into.old.items ++ frame_bytes message.now) }
    ensures err { OnErr result (into.new.items ≡ into.old.items) }
{
    let length = frame_len(message);
    into.reserve(length as usize)?;
    put_u8(into, message.body.kind().number());
    put_u32(into, length - HEAD_BYTES);
    put_node(into, &message.from);
    put_node(into, &message.to);
    put_fields(into, &message.body);
    Ok(())
}
