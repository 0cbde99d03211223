ghost use Rattle.std.specs.Prelude.{◌≡◌, ◌<◌, ◌+◌, ◌*◌, ◌^◌, length};
ghost use Rattle.std.specs.List.{AllByRecursion};
ghost use Rattle.rk_entry.specs.Ends.{IsLawfulEnd};
ghost use Rattle.rk_entry.specs.Numbers.{HasRoom, Gains};
ghost use Rattle.rk_message.specs.Handover.{prepare_bytes, ready_bytes, ends_bytes, transfer_bytes, transfer_count, grant_bytes, grant_count};

use crate::fields::{COUNT_BYTES, put_list, put_tenure};
use crate::handover::{
    GRANT_BYTES, Grant, PREPARE_BYTES, Prepare, READY_BYTES, Ready, TRANSFER_BYTES, Transfer,
};
use rk_entry::END_BYTES;
use rk_entry::fields::{put_range, put_u8, put_u64};
use rk_types::Ended;

/// Puts a Prepare at the end.
#[tactic(auto, unfolding(crate::specs::Handover::prepare_bytes))]
pub fn put_prepare(into: &mut Vec<u8>, prepare: &Prepare)
    requires { HasRoom into.old PREPARE_BYTES }
    ensures { Gains into.old into.new (prepare_bytes prepare.now) PREPARE_BYTES }
{
    put_tenure(into, &prepare.tenure);
    put_range(into, &prepare.range);
}

/// Puts a Ready at the end.
#[tactic(auto, unfolding(crate::specs::Handover::ready_bytes))]
pub fn put_ready(into: &mut Vec<u8>, ready: &Ready)
    requires { HasRoom into.old READY_BYTES }
    ensures { Gains into.old into.new (ready_bytes ready.now) READY_BYTES }
{
    put_tenure(into, &ready.tenure);
    put_u64(into, ready.place);
}

/// Puts lawful ends of calls after their count at the end.
#[tactic(auto, unfolding(crate::specs::Handover::ends_bytes))]
pub fn put_ends(into: &mut Vec<u8>, ends: &[Ended])
    requires few { length ends.now < 2 ^ 32 }
    requires lawful { AllByRecursion IsLawfulEnd ends.now }
    requires room { HasRoom into.old (COUNT_BYTES + END_BYTES * length ends.now) }
    ensures { Gains into.old into.new (ends_bytes ends.now) (COUNT_BYTES + END_BYTES * length ends.now) }
{
    put_list(into, ends);
}

/// Puts a Transfer with lawful ends at the end.
#[tactic(auto, unfolding(crate::specs::Handover::transfer_bytes))]
pub fn put_transfer(into: &mut Vec<u8>, transfer: &Transfer)
    requires few { length transfer.now.ends < 2 ^ 32 }
    requires lawful { AllByRecursion IsLawfulEnd transfer.now.ends }
    requires room { HasRoom into.old (transfer_count transfer.now) }
    ensures { Gains into.old into.new (transfer_bytes transfer.now) (transfer_count transfer.now) }
{
    put_tenure(into, &transfer.tenure);
    put_u64(into, transfer.floor);
    put_ends(into, transfer.ends.as_slice());
}

/// Puts a Grant with lawful ends at the end.
#[tactic(auto, unfolding(crate::specs::Handover::grant_bytes))]
pub fn put_grant(into: &mut Vec<u8>, grant: &Grant)
    requires few { length grant.now.ends < 2 ^ 32 }
    requires lawful { AllByRecursion IsLawfulEnd grant.now.ends }
    requires room { HasRoom into.old (grant_count grant.now) }
    ensures { Gains into.old into.new (grant_bytes grant.now) (grant_count grant.now) }
{
    put_tenure(into, &grant.tenure);
    put_u8(into, grant.source);
    put_u64(into, grant.floor);
    put_ends(into, grant.ends.as_slice());
}

/// How many bytes the fields of a Transfer take.
pub fn transfer_len(transfer: &Transfer) -> u32
    requires { transfer_count transfer.now < 2 ^ 32 }
    ensures { result ≡ transfer_count transfer.now }
{
    TRANSFER_BYTES + END_BYTES * transfer.ends.as_slice().len() as u32
}

/// How many bytes the fields of a Grant take.
pub fn grant_len(grant: &Grant) -> u32
    requires { grant_count grant.now < 2 ^ 32 }
    ensures { result ≡ grant_count grant.now }
{
    GRANT_BYTES + END_BYTES * grant.ends.as_slice().len() as u32
}
