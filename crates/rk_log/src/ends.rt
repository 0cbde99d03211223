ghost use Rattle.std.specs.Prelude.{◌≡◌, ◌+◌, ◌<◌, ◌≤◌, length, drop};
ghost use Rattle.std.specs.List.{prefix_len};
ghost use Rattle.rk_log.specs.Cut.{end_of};
ghost use Rattle.rk_log.specs.Parts.{bytes_in, lengths_in, is_held_at, AreWithin};

use crate::copied::{Copied, MOST_BACKUPS};
use rk_entry::FIRST_SIDE_SEGMENT;

/// Where the spelling of an entry ends: after the first `offset` bytes of a main segment.
#[derive(Clone, Copy)]
pub(crate) struct EntryEnd {
    pub(crate) segment: u32,
    pub(crate) offset: u32,
}

/// Where the last entry of these segments ends. There is at least one segment.
pub(crate) fn end_of(main: &[Copied]) -> EntryEnd
    requires some { 0 < length main.now }
    requires few { length main.now < FIRST_SIDE_SEGMENT }
    ensures { result ≡ end_of (bytes_in main.now) }
{
    EntryEnd {
        segment: main.len() as u32,
        offset: main[main.len() - 1].segment.length(),
    }
}

// Whether each of the first backups is known to hold an entry that ends there.
fn is_held(main: &[Copied], backups: usize, end: EntryEnd) -> bool
    requires backups { backups ≤ MOST_BACKUPS }
    requires first { 1 ≤ end.segment }
    requires last { end.segment ≤ length main.now }
    ensures { result ≡ is_held_at backups (lengths_in main.now) end }
{
    main[end.segment as usize - 1].is_held_to(end.offset, backups)
}

/// How many entries, counted from the first, each of the first backups is known to hold, given that it holds the first
/// `from` of them. It takes a step for each entry beyond those.
pub(crate) fn held_from(ends: &[EntryEnd], main: &[Copied], backups: usize, from: usize) -> usize
    requires backups { backups ≤ MOST_BACKUPS }
    requires within { AreWithin (length main.now) ends.now }
    requires from { from ≤ length ends.now }
    ensures { result ≡ from + prefix_len (is_held_at backups (lengths_in main.now)) (drop from ends.now) }
{
    let mut held = from;
    'held: while held < ends.len() && is_held(main, backups, ends[held]) {
        held += 1;
    }
    held
}
