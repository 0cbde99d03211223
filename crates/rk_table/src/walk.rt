// Walks over slots in scan order.
ghost use Rattle.std.specs.Prelude.{◌≡◌, ◌+◌, ◌-◌, ◌^◌, ◌<◌, ◌≤◌, ◌++◌, true, length, take, drop, vec_len, OnOk, OnErr, All};
ghost use Rattle.std.specs.List.{HoldsAt, list_any};
ghost use Rattle.rk_table.specs.Order.{IsInScanOrder, item_bucket};
ghost use Rattle.rk_table.specs.Items.{is_live_in, live_in};
ghost use Rattle.rk_table.specs.Scans.{batch_of, left, token_behind as token_behind_lem};

use crate::search::count_before_bucket;
use crate::slot::Slot;
use rk_types::{Held, NoMemory, Range, Token};

/// How many slots a scan passes over that begins at the token, given that the first slot is in its bucket or behind it.
pub(crate) fn passed_over(slots: &[Slot], range: &Range, from: &Token) -> usize
    requires order { IsInScanOrder slots.now }
    requires from_there { All (λ item. from.now.bucket ≤ item_bucket item) slots.now }
    ensures within { result ≤ length slots.now }
    ensures left { live_in range.now (drop result slots.now) ≡ left from.now (live_in range.now slots.now) }
{
    let mut passed = 0;
    for (at, slot) in slots.iter().enumerate() {
        if passed == from.skip || slot.bucket() != from.bucket {
            return at;
        }
        if slot.is_live_in(range) {
            passed += 1;
        }
    }
    slots.len()
}

/// How many slots have the first batch of live items of the range; all if the batch does not reach its limit.
pub(crate) fn batch_end(slots: &[Slot], range: &Range, limit: u32) -> usize
    ensures within { result ≤ length slots.now }
    ensures batch { live_in range.now (take result slots.now) ≡ batch_of limit (live_in range.now slots.now) }
    ensures closed { result < length slots.now
        → (0 < result) × HoldsAt (λ item. is_live_in range.now item ≡ true) slots.now (result - 1) }
{
    let mut wanted = limit;
    for (at, slot) in slots.iter().enumerate() {
        if slot.is_live_in(range) {
            let bytes = slot.held().spelled();
            if wanted <= bytes {
                return at + 1;
            }
            wanted -= bytes;
        }
    }
    slots.len()
}

// Appends duplicates of the live items of the range; after `NoMemory` of some first ones.
fn push_live(slots: &[Slot], range: &Range, into: &mut Vec<Held>) -> Result<(), NoMemory>
    ensures ok { OnOk result (into.new.items ≡ into.old.items ++ live_in range.now slots.now) }
    ensures before { take (vec_len into.old) into.new.items ≡ into.old.items }
{
    for slot in slots {
        if slot.is_live_in(range) {
            into.push(slot.held().duplicate()?)?;
        }
    }
    Ok(())
}

/// Appends duplicates of the live items of the range. After `NoMemory` `into` is as it was.
pub(crate) fn append_live(
    slots: &[Slot],
    range: &Range,
    into: &mut Vec<Held>,
) -> Result<(), NoMemory>
    ensures ok { OnOk result (into.new.items ≡ into.old.items ++ live_in range.now slots.now) }
    ensures err { OnErr result (into.new.items ≡ into.old.items) }
{
    let before = into.len();
    match push_live(slots, range, into) {
        Ok(()) => Ok(()),
        Err(error) => {
            into.truncate(before);
            Err(error)
        }
    }
}

/// Whether a live item of the range is there.
pub(crate) fn has_live(slots: &[Slot], range: &Range) -> bool
    ensures { result ≡ list_any (is_live_in range.now) slots.now }
{
    slots.iter().any(|slot| slot.is_live_in(range))
}

/// How many live items of the range are there.
pub(crate) fn count_live(slots: &[Slot], range: &Range) -> u32
    requires { length slots.now < 2 ^ 32 }
    ensures { result ≡ length (live_in range.now slots.now) }
{
    let mut count = 0;
    for slot in slots {
        if slot.is_live_in(range) {
            count += 1;
        }
    }
    count
}

/// The token behind the first `end` slots, the last of which has a live item of the range.
pub(crate) fn token_behind(slots: &[Slot], end: usize, range: &Range) -> Token
    requires order { IsInScanOrder slots.now }
    requires few { length slots.now < 2 ^ 32 }
    requires some { 0 < end }
    requires within { end ≤ length slots.now }
    requires last { HoldsAt (λ item. is_live_in range.now item ≡ true) slots.now (end - 1) }
    ensures { result ≡ token_behind_lem (live_in range.now (take end slots.now)) }
{
    let bucket = slots[end - 1].bucket();
    let start = count_before_bucket(slots, bucket);
    Token {
        bucket,
        skip: count_live(&slots[start..end], range),
    }
}
