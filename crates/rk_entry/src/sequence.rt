ghost use Rattle.std.specs.Prelude.{◌≡◌, length, drop, IfOk, IfSome};
ghost use Rattle.std.specs.Option.{option_map};
ghost use Rattle.std.specs.Result.{result_ok};
ghost use Rattle.rk_entry.specs.Reading.{read_entry};
ghost use Rattle.rk_entry.specs.Entries.{StandsFirst, Stand, spelled_all, entries_of};

use crate::entry::Entry;
use crate::error::DecodeError;
use crate::reading::decode;
use rk_types::NoMemory;
use std::alloc::Global;

/// The entries that follow one another at the front of the bytes, up to the first place where there is no whole entry,
/// and how many bytes they take.
pub fn entries(alloc: Global, bytes: &[u8]) -> Result<(Vec<Entry>, usize), NoMemory>
    ensures stand { IfOk result (λ x. Stand bytes.now x.0.items (drop x.1 bytes.now)) }
    ensures count { IfOk result (λ x. x.1 ≡ length (spelled_all x.0.items)) }
    ensures exact { IfOk result (λ x. x.0.items ≡ entries_of bytes.now) }
{
    let mut entries = Vec::new(alloc);
    let mut taken = 0;
    'entries: while let Some((entry, count)) = first_entry(alloc, bytes.split_at(taken).1)? {
        entries.push(entry)?;
        taken += count;
    }
    Ok((entries, taken))
}

// The entry at the front of the bytes, if there is one, and how many bytes it takes.
fn first_entry(alloc: Global, bytes: &[u8]) -> Result<Option<(Entry, usize)>, NoMemory>
    ensures found { IfOk result (λ first. IfSome first (λ x. StandsFirst bytes.now x.0 x.1)) }
    ensures exact { IfOk result (λ first. option_map (λ x. (x.0, drop x.1 bytes.now)) first ≡ result_ok (read_entry bytes.now)) }
{
    match decode(alloc, bytes) {
        Ok(first) => Ok(Some(first)),
        Err(DecodeError::NoMemory) => Err(NoMemory),
        Err(DecodeError::Cut) => Ok(None),
        Err(DecodeError::Bad(_)) => Ok(None),
    }
}
