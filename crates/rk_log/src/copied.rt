ghost use Rattle.std.specs.Prelude.{◌≡◌, ◌+◌, ◌-◌, ◌<◌, ◌≤◌, ◌^◌, ◌++◌, ◌∷◌, [], length, drop, take, nat_le, if◌then◌else◌, slice_index, IfOk, OnOk, OnErr};
ghost use Rattle.std.specs.List.{list_all, prefix_len};
ghost use Rattle.std.specs.Option.{option_copied};
ghost use Rattle.std.specs.Bool.{OnTrue, OnFalse};
ghost use Rattle.rk_log.specs.Cut.{has_room, in_last, with_bytes};
ghost use Rattle.rk_log.specs.Parts.{none_known, bytes_in, lengths_in, is_whole_at, with_length, copied_of, bytes_among};

use rk_entry::FIRST_SIDE_SEGMENT;
use rk_segment::Segment;
use rk_types::{NoMemory, SEGMENT_BYTES};
use std::alloc::Global;

/// Main segments are numbered from here on, side segments from [`FIRST_SIDE_SEGMENT`] on.
pub(crate) const FIRST_SEGMENT: u32 = 1;

/// The most backups that a log may have.
pub const MOST_BACKUPS: usize = rk_types::MOST_BACKUPS as usize;

/// A segment, and how many of its bytes each backup is known to hold. Its place in its list gives its number: the
/// number that it was made with is never read.
#[derive(Drop)]
pub(crate) struct Copied {
    pub(crate) segment: Segment,
    pub(crate) known: [u32; MOST_BACKUPS],
}

impl Copied {
    /// A segment of which nothing is known to be held.
    pub(crate) fn new(segment: Segment) -> Copied
        ensures segment { result.segment ≡ segment }
        ensures known { result.known ≡ none_known }
    {
        Copied {
            segment,
            known: [0; MOST_BACKUPS],
        }
    }

    /// Whether a backup is known to hold the whole segment.
    pub(crate) fn is_whole(&self, backup: usize) -> bool
        requires { backup < MOST_BACKUPS }
        ensures { result ≡ is_whole_at backup self.now }
    {
        self.segment.length() <= self.known[backup]
    }

    /// Whether each of the first backups is known to hold the segment up to the byte `offset`.
    pub(crate) fn is_held_to(&self, offset: u32, backups: usize) -> bool
        requires { backups ≤ MOST_BACKUPS }
        ensures { result ≡ list_all (nat_le offset) (take backups self.now.known) }
    {
        self.known[..backups].iter().all(|known| offset <= *known)
    }
}

// A new segment with these bytes, of which nothing is known to be held. Its number is not read.
fn begun(alloc: Global, bytes: &[u8]) -> Result<Copied, NoMemory>
    requires { length bytes.now ≤ SEGMENT_BYTES }
    ensures bytes { IfOk result (λ copied. copied.segment.bytes ≡ bytes.now) }
    ensures known { IfOk result (λ copied. copied.known ≡ none_known) }
{
    let mut segment = Segment::new(alloc, FIRST_SEGMENT)?;
    segment.append(bytes).unwrap();
    Ok(Copied::new(segment))
}

// Puts the bytes at the end of the last segment if they fit, and answers whether they do.
fn put_in_last(main: &mut [Copied], bytes: &[u8]) -> bool
    requires { length bytes.now ≤ SEGMENT_BYTES }
    ensures room { result ≡ has_room (bytes_in main.old) bytes.now }
    ensures fits { OnTrue result (bytes_in main.new ≡ in_last (bytes_in main.old) bytes.now) }
    ensures known { OnTrue result (lengths_in main.new ≡ lengths_in main.old) }
    ensures full { OnFalse result (main.new ≡ main.old) }
{
    let count = main.len();
    if count == 0 {
        return false;
    }
    main[count - 1].segment.append(bytes).is_ok()
}

/// Puts the bytes at the end of the last segment if they fit, and otherwise into a new one. After `NoMemory` nothing
/// has changed. It takes memory only for a new segment.
pub(crate) fn put_bytes(main: &mut Vec<Copied>, bytes: &[u8]) -> Result<(), NoMemory>
    requires { length bytes.now ≤ SEGMENT_BYTES }
    ensures bytes { OnOk result (bytes_in main.new.items ≡ with_bytes (bytes_in main.old.items) bytes.now) }
    ensures known { OnOk result (lengths_in main.new.items ≡ (if has_room (bytes_in main.old.items) bytes.now
        then lengths_in main.old.items else lengths_in main.old.items ++ none_known ∷ [])) }
    ensures err { OnErr result (main.new.items ≡ main.old.items) }
{
    if put_in_last(main.as_mut_slice(), bytes) {
        return Ok(());
    }
    let next = begun(*main.allocator(), bytes)?;
    main.push(next)?;
    Ok(())
}

/// The segment of this number, among segments that are numbered from `first` on.
pub(crate) fn find(segments: &[Copied], first: u32, number: u32) -> Option<&Copied>
    ensures { option_copied result ≡ copied_of first number segments.now }
{
    if number < first {
        return None;
    }
    segments.get((number - first) as usize)
}

/// Notes that a backup holds so many bytes of the segment of this number, unless more are known or the segment is not
/// among these, which are numbered from `first` on.
pub(crate) fn raise(segments: &mut [Copied], first: u32, number: u32, backup: usize, length: u32)
    requires { backup < MOST_BACKUPS }
    ensures bytes { bytes_in segments.new ≡ bytes_in segments.old }
    ensures known { lengths_in segments.new ≡ with_length first number backup length (lengths_in segments.old) }
{
    if number < first {
        return;
    }
    let at = (number - first) as usize;
    if at < segments.len() {
        let copied = &mut segments[at];
        copied.known[backup] = copied.known[backup].max(length);
    }
}

/// The place of the first segment, from `from` on, that a backup is not known to hold whole: the end of the list if
/// there is none. It takes a step for each segment that it passes.
pub(crate) fn lacking_from(segments: &[Copied], backup: usize, from: usize) -> usize
    requires backup { backup < MOST_BACKUPS }
    requires from { from ≤ length segments.now }
    ensures { result ≡ from + prefix_len (is_whole_at backup) (drop from segments.now) }
{
    let mut at = from;
    'whole: while at < segments.len() && segments[at].is_whole(backup) {
        at += 1;
    }
    at
}

/// The bytes of the segment of this number; none if there is no such segment.
pub(crate) fn bytes_among<'a>(main: &'a [Copied], sides: &'a [Copied], number: u32) -> &'a [u8]
    ensures bytes { result.now ≡ bytes_among number main.now sides.now }
    ensures within { length result.now ≤ SEGMENT_BYTES }
{
    match find(main, FIRST_SEGMENT, number).or(find(sides, FIRST_SIDE_SEGMENT, number)) {
        Some(copied) => copied.segment.bytes(),
        None => &[],
    }
}
