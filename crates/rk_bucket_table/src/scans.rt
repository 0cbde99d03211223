// What is picked from a walk along chains.
ghost use Rattle.std.specs.Prelude.{◌≡◌, ◌==◌, ◌&&◌, ◌+◌, ◌<◌, ◌^◌, ◌++◌, nat_lt, ◌∷◌, [], length, take, vec_len, OnOk, OnErr, IfOk};
ghost use Rattle.std.specs.List.{list_any};
ghost use Rattle.rk_table.specs.Order.{IsInScanOrder};
ghost use Rattle.rk_table.specs.Items.{at_hash, is_live_in, live_in};
ghost use Rattle.rk_table.specs.Scans.{batch_at, passed, rest_at, token_behind};
ghost use Rattle.rk_bucket_table.specs.Scanning.{IsFrom, counted_by};

use crate::hashed::Hashed;
use crate::rest::Rest;
use rk_types::{Held, NoMemory, Range, Token};

// Appends a duplicate of an item.
fn push_duplicate(item: &Hashed, into: &mut Vec<Held>) -> Result<(), NoMemory>
    ensures ok { OnOk result (into.new.items ≡ into.old.items ++ item.now ∷ []) }
    ensures err { OnErr result (into.new.items ≡ into.old.items) }
{
    into.push(item.held().duplicate()?)?;
    Ok(())
}

/// Appends duplicates of the live items of the range; after `NoMemory` of some first ones.
pub(crate) fn push_live(
    mut items: Rest<'_>,
    range: &Range,
    into: &mut Vec<Held>,
) -> Result<(), NoMemory>
    ensures ok { OnOk result (into.new.items ≡ into.old.items ++ live_in range.now items.entry) }
    ensures before { take (vec_len into.old) into.new.items ≡ into.old.items }
{
    'items: while let Some(item) = items.next() {
        if item.is_live_in(range) {
            push_duplicate(item, into)?;
        }
    }
    Ok(())
}

/// Appends duplicates of the live items of the range that have this hash; after `NoMemory` of some first ones.
pub(crate) fn push_with_hash(
    mut items: Rest<'_>,
    range: &Range,
    hash: u64,
    into: &mut Vec<Held>,
) -> Result<(), NoMemory>
    ensures ok { OnOk result (into.new.items ≡ into.old.items ++ at_hash hash (live_in range.now items.entry)) }
    ensures before { take (vec_len into.old) into.new.items ≡ into.old.items }
{
    'items: while let Some(item) = items.next() {
        if item.is_live_with_hash(range, hash) {
            push_duplicate(item, into)?;
        }
    }
    Ok(())
}

/// Whether a live item of the range is left.
pub(crate) fn has_live(mut items: Rest<'_>, range: &Range) -> bool
    ensures { result ≡ list_any (is_live_in range.now) items.entry }
{
    'items: while let Some(item) = items.next() {
        if item.is_live_in(range) {
            return true;
        }
    }
    false
}

/// The token behind one more live item.
fn counted(token: Token, bucket: u16) -> Token
    requires { token.skip + 1 < 2 ^ 32 }
    ensures { result ≡ counted_by token bucket }
{
    Token {
        bucket,
        skip: if bucket == token.bucket {
            token.skip + 1
        } else {
            1
        },
    }
}

/// Whether one more live item of this bucket is among those that a scan skips.
fn skips(from: &Token, token: &Token, bucket: u16) -> bool
    ensures { result ≡ (bucket == from.now.bucket && nat_lt token.now.skip from.now.skip) }
{
    bucket == from.bucket && token.skip < from.skip
}

/// Passes over the live items that the token skips, appends duplicates of those of the batch, and answers the token behind
/// the last of them. After `NoMemory` some first ones were appended.
pub(crate) fn push_batch(
    items: &mut Rest<'_>,
    range: &Range,
    from: &Token,
    limit: u32,
    into: &mut Vec<Held>,
) -> Result<Token, NoMemory>
    requires order { IsInScanOrder items.old }
    requires from_there { IsFrom from.now.bucket items.old }
    requires few { length items.old < 2 ^ 32 }
    ensures batch { OnOk result (into.new.items ≡ into.old.items ++ batch_at from.now limit (live_in range.now items.old)) }
    ensures rest { OnOk result (live_in range.now items.new ≡ rest_at from.now limit (live_in range.now items.old)) }
    ensures token { IfOk result (λ token. 0 < length (batch_at from.now limit (live_in range.now items.old)) → token
        ≡ token_behind (passed from.now (live_in range.now items.old) ++ batch_at from.now limit (live_in range.now items.old))) }
    ensures before { take (vec_len into.old) into.new.items ≡ into.old.items }
{
    let mut token = Token {
        bucket: from.bucket,
        skip: 0,
    };
    let mut wanted = limit;
    'items: while let Some(item) = items.next() {
        if !item.is_live_in(range) {
            continue;
        }
        let is_skipped = skips(from, &token, item.bucket());
        token = counted(token, item.bucket());
        if is_skipped {
            continue;
        }
        push_duplicate(item, into)?;
        let bytes = item.held().spelled();
        if wanted <= bytes {
            return Ok(token);
        }
        wanted -= bytes;
    }
    Ok(token)
}
