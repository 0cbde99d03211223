ghost use Rattle.std.specs.Prelude.{◌≡◌, ◌<◌, ◌^◌, length};
ghost use Rattle.rk_entry.specs.Numbers.{HasRoom, Gains};
ghost use Rattle.rk_message.specs.Replication.{append_bytes, append_count, stored_bytes};

use crate::fields::put_bytes;
use crate::replication::{APPEND_BYTES, Append, STORED_BYTES, Stored};
use rk_entry::fields::put_u32;

/// Puts an Append at the end.
#[tactic(auto, unfolding(crate::specs::Replication::append_bytes))]
pub fn put_append(into: &mut Vec<u8>, append: &Append)
    requires few { length append.now.bytes < 2 ^ 32 }
    requires room { HasRoom into.old (append_count append.now) }
    ensures { Gains into.old into.new (append_bytes append.now) (append_count append.now) }
{
    put_u32(into, append.segment);
    put_u32(into, append.at);
    put_bytes(into, append.bytes.as_slice());
}

/// Puts a Stored at the end.
#[tactic(auto, unfolding(crate::specs::Replication::stored_bytes))]
pub fn put_stored(into: &mut Vec<u8>, stored: &Stored)
    requires { HasRoom into.old STORED_BYTES }
    ensures { Gains into.old into.new (stored_bytes stored.now) STORED_BYTES }
{
    put_u32(into, stored.segment);
    put_u32(into, stored.length);
}

/// How many bytes the fields of an Append take.
pub fn append_len(append: &Append) -> u32
    requires { append_count append.now < 2 ^ 32 }
    ensures { result ≡ append_count append.now }
{
    APPEND_BYTES + append.bytes.as_slice().len() as u32
}
