ghost use Rattle.std.specs.Prelude.{◌≡◌, ◌+◌, ◌<◌, ◌≤◌, ◌^◌, length, drop, replicate, None, Some, IfOk, OnOk, OnErr, MatchResult};
ghost use Rattle.rk_log.specs.Cut.{EachFits, start_of};
ghost use Rattle.rk_log.specs.Known.{nothing};
ghost use Rattle.rk_entry.specs.Spelling.{spelled};
ghost use Rattle.rk_entry.specs.Lawful.{IsLawfulEntry};
ghost use Rattle.rk_log.specs.Log.{IsBackup, bytes_of, committed, is_side_stored, new_log, overreach, pending, segment_bytes, with_entry, with_side, with_told};

use crate::copied::{Copied, FIRST_SEGMENT, MOST_BACKUPS, bytes_among, find, put_bytes, raise};
use crate::cursor::{Cursor, advanced};
use crate::ends::{EntryEnd, end_of, held_from};
use crate::overreach::Overreach;
use crate::piece::{Piece, pending_in};
use crate::reading::read_behind;
use rk_entry::{Entry, FIRST_SIDE_SEGMENT, encode};
use rk_segment::Segment;
use rk_types::{NoMemory, SEGMENT_BYTES};
use std::alloc::Global;
use std::marker::Model;

/// The log of one master in one lane, with its side segments and the lengths that its backups are known to hold.
#[derive(Drop)]
pub struct MasterLog {
    // Where each entry ends in the main segments, which alone hold the entries.
    ends: Vec<EntryEnd>,
    // Every backup is known to hold so many entries, counted from the first.
    committed: usize,
    main: Vec<Copied>,
    sides: Vec<Copied>,
    // One for each backup.
    cursors: Vec<Cursor>,
    // How many bytes all segments have.
    size: u64,
    // Where an entry is spelled before it goes into a segment; its memory is used again.
    spelling: Vec<u8>,
}

impl Model for MasterLog {
    ghost use Rattle.rk_log.specs.Log.{Log, log_code};

    ghost Value = { Log };

    ghost coded = { log_code };

    ghost use Rattle.rk_log.specs.Parts.{IsCounted, log_of, parts_of};

    ghost view = { λ log. log_of (parts_of log) };

    ghost invariant = { λ log. IsCounted (parts_of log) log.size };
}

impl MasterLog {
    /// The log of no entries, with so many backups, which are numbered from 1.
    pub fn new(alloc: Global, backups: u8) -> Result<MasterLog, NoMemory>
        requires first { 1 ≤ backups }
        requires last { backups ≤ MOST_BACKUPS }
        ensures { IfOk result (λ log. log ≡ new_log (replicate backups nothing)) }
    {
        let start = Cursor { main: 0, sides: 0 };
        Ok(MasterLog {
            ends: Vec::new(alloc),
            committed: 0,
            main: Vec::new(alloc),
            sides: Vec::new(alloc),
            cursors: vec![in alloc; start; backups as usize]?,
            size: 0,
            spelling: Vec::new(alloc),
        })
    }

    /// Puts an entry at the end, and answers its place, which counts from 0. It goes into the last main segment if it
    /// fits, and otherwise begins the next one, which takes the memory of a whole segment. After `NoMemory` nothing has
    /// changed. It takes the time to spell the entry, and a constant time besides, on average.
    pub fn append(&mut self, entry: &Entry) -> Result<u64, NoMemory>
        requires lawful { IsLawfulEntry entry.now }
        requires fits { length (spelled entry.now) ≤ SEGMENT_BYTES }
        requires room { segment_bytes self.old < 2 ^ 31 }
        ensures place { IfOk result (λ place. place ≡ length self.old.entries) }
        ensures ok { OnOk result (self.new ≡ with_entry self.old entry.now) }
        ensures err { OnErr result (self.new ≡ self.old) }
    {
        self.spelling.clear();
        encode(entry, &mut self.spelling)?;
        let count = self.spelling.len() as u64;
        self.ends.reserve(1)?;
        put_bytes(&mut self.main, self.spelling.as_slice())?;
        let place = self.ends.len();
        self.ends.push(end_of(self.main.as_slice())).unwrap();
        self.size += count;
        Ok(place as u64)
    }

    /// Puts a side segment beside the log, and answers the number that it has from now on, whatever number it was made
    /// with. After `NoMemory`, which also comes if no number is left for another one, nothing has changed. It takes a
    /// constant time on average.
    pub fn add_side(&mut self, segment: Segment) -> Result<u32, NoMemory>
        requires { segment_bytes self.old + length segment.bytes < 2 ^ 64 }
        ensures number { IfOk result (λ number. number ≡ FIRST_SIDE_SEGMENT + length self.old.sides) }
        ensures ok { OnOk result (self.new ≡ with_side self.old segment.bytes) }
        ensures err { OnErr result (self.new ≡ self.old) }
    {
        let number = FIRST_SIDE_SEGMENT
            .checked_add(self.sides.len() as u32)
            .ok_or(NoMemory)?;
        let count = segment.length() as u64;
        self.sides.push(Copied::new(segment))?;
        self.size += count;
        Ok(number)
    }

    /// The bytes that a backup is to be sent next: those of the first segment that it is not known to hold whole, main
    /// segments first, from the known length on; lent. None if it holds all. The search begins at the backup's cursor, and
    /// passes at most one main segment, and side segments without bytes.
    pub fn pending(&self, backup: u8) -> Option<Piece<'_>>
        requires { IsBackup self.now backup }
        ensures { result ≡ pending self.now backup }
    {
        let backup = backup as usize - 1;
        let cursor = self.cursors[backup];
        let main = self.main.as_slice();
        if let Some(piece) = pending_in(main, FIRST_SEGMENT, backup, cursor.main) {
            return Some(piece);
        }
        let sides = self.sides.as_slice();
        pending_in(sides, FIRST_SIDE_SEGMENT, backup, cursor.sides)
    }

    /// Notes that a backup holds so many bytes of a segment, unless more are known. `Overreach` comes exactly when the
    /// segment has fewer, and then nothing changes; a segment that does not exist has none. It takes no memory, and a
    /// step for each entry that it commits and each segment that the backup is now known to hold whole.
    pub fn stored(&mut self, backup: u8, segment: u32, length: u32) -> Result<(), Overreach>
        requires { IsBackup self.old backup }
        ensures ok { OnOk result (self.new ≡ with_told self.old backup segment length) }
        ensures err { OnErr result (self.new ≡ self.old) }
        ensures limit { MatchResult result
            (λ _. overreach self.old segment length ≡ None)
            (λ excess. overreach self.old segment length ≡ Some excess) }
    {
        let limit = self.bytes(segment).len() as u32;
        if length > limit {
            return Err(Overreach { length, limit });
        }
        let backup = backup as usize - 1;
        let backups = self.cursors.len();
        raise(
            self.main.as_mut_slice(),
            FIRST_SEGMENT,
            segment,
            backup,
            length,
        );
        raise(
            self.sides.as_mut_slice(),
            FIRST_SIDE_SEGMENT,
            segment,
            backup,
            length,
        );
        self.cursors[backup] = advanced(
            self.main.as_slice(),
            self.sides.as_slice(),
            backup,
            self.cursors[backup],
        );
        self.committed = held_from(
            self.ends.as_slice(),
            self.main.as_slice(),
            backups,
            self.committed,
        );
        Ok(())
    }

    /// How many entries the log has, in constant time.
    pub fn length(&self) -> u64
        ensures { result ≡ length self.now.entries }
    {
        self.ends.len() as u64
    }

    /// How many bytes all segments have together, in constant time: [`MasterLog::append`] and [`MasterLog::add_side`]
    /// need a bound on it. Each entry of the log fits a segment.
    pub fn size(&self) -> u64
        ensures size { result ≡ segment_bytes self.now }
        ensures fits { EachFits self.now.entries }
    {
        self.size
    }

    /// How many entries, counted from the first, every backup is known to hold, in constant time.
    pub fn committed(&self) -> u64
        ensures held { result ≡ committed self.now }
        ensures within { result ≤ length self.now.entries }
    {
        self.committed as u64
    }

    /// Whether every backup is known to hold all of the side segment of this number; false if there is none, as for the
    /// number of a main segment. It takes a step for each backup.
    pub fn side_stored(&self, segment: u32) -> bool
        ensures { result ≡ is_side_stored self.now segment }
    {
        match find(self.sides.as_slice(), FIRST_SIDE_SEGMENT, segment) {
            Some(copied) => copied.is_held_to(copied.segment.length(), self.cursors.len()),
            None => false,
        }
    }

    /// The entries from a place on, read from the segments that spell them. It takes the time to read these.
    pub fn entries_from(&self, place: u64) -> Result<Vec<Entry>, NoMemory>
        requires { place ≤ length self.now.entries }
        ensures { IfOk result (λ entries. entries.items ≡ drop place self.now.entries) }
    {
        let start = self.start_of(place as usize);
        let segments = self.main.split_at(start.segment as usize - 1).1;
        read_behind(*self.ends.allocator(), start.offset, segments)
    }

    // Where the entry before a place ends; before the first segment's bytes if there is none.
    fn start_of(&self, place: usize) -> EntryEnd
        requires { place ≤ length self.now.entries }
        ensures { result ≡ start_of self.now.entries place }
    {
        if place == 0 {
            return EntryEnd {
                segment: 1,
                offset: 0,
            };
        }
        self.ends[place - 1]
    }

    /// The bytes of a main or side segment, lent in constant time; none if there is no segment of this number.
    pub fn bytes(&self, segment: u32) -> &[u8]
        ensures bytes { result.now ≡ bytes_of self.now segment }
        ensures within { length result.now ≤ SEGMENT_BYTES }
    {
        bytes_among(self.main.as_slice(), self.sides.as_slice(), segment)
    }
}
