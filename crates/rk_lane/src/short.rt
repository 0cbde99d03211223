// Whether messages can be spelled in a frame, whose length has four bytes.
ghost use Rattle.std.specs.Prelude.{◌≡◌, ◌≤◌, ◌+◌, ◌^◌, ◌-◌, length, min, true, All};
ghost use Rattle.std.specs.List.{sum_by};
ghost use Rattle.rk_entry.specs.Lawful.{IsLawfulEntry};
ghost use Rattle.rk_entry.specs.Spelling.{spelled};
ghost use Rattle.rk_entry.specs.declared.kind.TheConstants.{LONGEST_BODY};
ghost use Rattle.rk_message.specs.Calls.{op_count, told_count};
ghost use Rattle.rk_message.specs.Frames.{IsLawfulBody, fields_count};
ghost use Rattle.rk_message.specs.declared.fields.TheConstants.{NODES_BYTES};

use rk_entry::{Entry, entry_len};
use rk_message::Body;
use rk_types::{Answer, Op, Outcome};

/// As many elements as a list of a message has at most.
const MOST_LISTED: usize = 0x100_0000;

/// As many bytes as the entries of a message take at most.
const MOST_ENTRY_BYTES: u64 = 0x4000_0000;

/// Whether a body is short enough for a frame. All that a lane sends is far shorter. A step for each entry.
pub(crate) fn is_short(body: &Body) -> bool
    requires { IsLawfulBody body.now }
    ensures { result ≡ true → NODES_BYTES + fields_count body.now ≤ LONGEST_BODY }
{
    match body {
        Body::Request(request) => is_short_op(&request.op)
            && request.key.bytes().len() <= MOST_LISTED,
        Body::Reply(reply) => is_short_answer(&reply.answer),
        Body::Append(append) => append.bytes.as_slice().len() <= MOST_LISTED,
        Body::Transfer(transfer) => transfer.ends.as_slice().len() <= MOST_LISTED,
        Body::Grant(grant) => grant.ends.as_slice().len() <= MOST_LISTED,
        Body::Rebuilt(rebuilt) => rebuilt.ends.as_slice().len() <= MOST_LISTED,
        Body::Rebuild(rebuild) => rebuild.lineage.as_slice().len() <= MOST_LISTED,
        Body::Want(want) => want.hashes.as_slice().len() <= MOST_LISTED,
        Body::Pulled(pulled) => entry_bytes(pulled.entries.as_slice()) <= MOST_ENTRY_BYTES,
        Body::Got(got) => {
            got.hashes.as_slice().len() <= MOST_LISTED
                && entry_bytes(got.entries.as_slice()) <= MOST_ENTRY_BYTES
        }
        Body::Copy(copy) => match &copy.bytes {
            Some(bytes) => bytes.as_slice().len() <= MOST_LISTED,
            None => true,
        },
        Body::Lookup(_)
        | Body::Located(_)
        | Body::Stored(_)
        | Body::Prepare(_)
        | Body::Ready(_)
        | Body::Close(_)
        | Body::Pull(_)
        | Body::Joined(_)
        | Body::Own(_)
        | Body::Release(_)
        | Body::Read(_) => true,
    }
}

// Whether an answer has a short value or key.
fn is_short_answer(answer: &Answer) -> bool
    ensures { result ≡ true → told_count answer.now ≤ 2 ^ 25 }
{
    match answer {
        Answer::Done(Outcome::Found(_, value)) => value.bytes().len() <= MOST_LISTED,
        Answer::NotYet(key) => key.bytes().len() <= MOST_LISTED,
        Answer::Done(_) | Answer::Moved(_) => true,
    }
}

// Whether an operation has a short value.
fn is_short_op(op: &Op) -> bool
    ensures { result ≡ true → op_count op.now ≤ 2 ^ 25 }
{
    match op {
        Op::Put(value) | Op::CondPut(_, value) => value.bytes().len() <= MOST_LISTED,
        Op::Get | Op::Delete => true,
    }
}

// How many bytes entries take; 2^64 - 1 if they are more.
fn entry_bytes(entries: &[Entry]) -> u64
    requires { All IsLawfulEntry entries.now }
    ensures { result ≡ min (sum_by (λ entry. length (spelled entry)) entries.now) (2 ^ 64 - 1) }
{
    let mut bytes: u64 = 0;
    for entry in entries {
        bytes = bytes.saturating_add(u64::from(entry_len(entry)));
    }
    bytes
}
