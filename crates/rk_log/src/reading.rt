// The entries of a log, read from the bytes of its segments.
ghost use Rattle.std.specs.Prelude.{◌≡◌, ◌++◌, drop, IfOk, OnOk};
ghost use Rattle.rk_entry.specs.Entries.{entries_of};
ghost use Rattle.rk_log.specs.Parts.{bytes_in};
ghost use Rattle.rk_log.specs.Stored.{spelled_behind, spelled_in};

use crate::copied::Copied;
use rk_entry::{Entry, entries};
use rk_types::NoMemory;
use std::alloc::Global;

/// The entries that these segments spell, those of the first segment from this byte on; no more than the first segment's
/// bytes are skipped. It takes the time to read them.
pub(crate) fn read_behind(
    alloc: Global,
    offset: u32,
    segments: &[Copied],
) -> Result<Vec<Entry>, NoMemory>
    ensures { IfOk result (λ found. found.items ≡ spelled_behind offset (bytes_in segments.now)) }
{
    let mut found = Vec::new(alloc);
    let Some((first, others)) = segments.split_first() else {
        return Ok(found);
    };
    let bytes = first.segment.bytes();
    read_more(
        alloc,
        &mut found,
        bytes.split_at((offset as usize).min(bytes.len())).1,
    )?;
    read_all(alloc, &mut found, others)?;
    Ok(found)
}

// Adds the entries that these segments spell.
fn read_all(alloc: Global, found: &mut Vec<Entry>, segments: &[Copied]) -> Result<(), NoMemory>
    ensures { OnOk result (found.new.items ≡ found.old.items ++ spelled_in (bytes_in segments.now)) }
{
    for copied in segments {
        read_more(alloc, found, copied.segment.bytes())?;
    }
    Ok(())
}

// Adds the entries that bytes spell, up to the first place where there is none.
fn read_more(alloc: Global, found: &mut Vec<Entry>, bytes: &[u8]) -> Result<(), NoMemory>
    ensures { OnOk result (found.new.items ≡ found.old.items ++ entries_of bytes.now) }
{
    let (mut more, _) = entries(alloc, bytes)?;
    found.append(&mut more)?;
    Ok(())
}
