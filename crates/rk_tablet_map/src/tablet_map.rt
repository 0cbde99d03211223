ghost use Rattle.std.specs.Prelude.{◌≡◌, ◌≢◌, ◌<◌, ◌≤◌, ◌==◌, ℕ, nat_le, [], length, Some, None, is_some, position, OnOk, OnErr, IsOk, IfOk, IfErr, MatchResult, vec_len, vec_capacity};
ghost use Rattle.std.specs.Option.{option_copied};
ghost use Rattle.std.specs.List.{position_or_len, list_any, insert};
ghost use Rattle.rk_tablet_map.specs.Rows.{IsTabletMap, row_of, row_with, tablet_of, is_covered, meets_any, placed, add_fault, split_fault, split_rows, changed_rows};

use crate::error::MapError;
use crate::phase::Phase;
use crate::row::Row;
use rk_types::{NoMemory, Range};
use std::alloc::Global;
use std::marker::Model;

/// The rows of all tablets, by rising number. No two of them have one number, and no hash of a table is in the ranges of
/// two.
#[derive(Drop)]
pub struct TabletMap {
    rows: Vec<Row>,
}

impl Model for TabletMap {
    ghost use Rattle.std.specs.Prelude.{List};
    ghost use Rattle.rk_tablet_map.specs.declared.row.Row.{Row};
    ghost use Rattle.rk_tablet_map.specs.Rows.{IsTabletMap};

    ghost Value = { List Row };

    ghost view = { λ map. map.rows.items };

    ghost invariant = { λ map. IsTabletMap map.rows.items };
}

impl TabletMap {
    /// The map of no tablets, which takes no memory.
    pub fn new(alloc: Global) -> TabletMap
        ensures { result ≡ [] }
    {
        TabletMap {
            rows: Vec::new(alloc),
        }
    }

    /// Adds a row, in its place by number. `Taken` comes if its number is there, else `Overlap` if its range meets
    /// that of a row. After an error, `NoMemory` too, nothing has changed, and the row is dropped. A step for each row.
    pub fn add(&mut self, row: Row) -> Result<(), MapError>
        ensures lawful { OnOk result (add_fault self.old row ≡ None) }
        ensures ok { OnOk result (self.new ≡ placed row self.old) }
        ensures refused { IfErr result (λ e. e ≢ MapError.NoMemory → add_fault self.old row ≡ Some e) }
        ensures err { OnErr result (self.new ≡ self.old) }
    {
        if has_number(self.rows.as_slice(), row.tablet) {
            return Err(MapError::Taken(row.tablet));
        }
        if meets_one(self.rows.as_slice(), &row.range) {
            return Err(MapError::Overlap);
        }
        reserve_one(&mut self.rows)?;
        put_in_place(&mut self.rows, row);
        Ok(())
    }

    /// The number of the tablet that has this hash of the table. The only error is `NoTablet`, if none has it. A step
    /// for each row.
    pub fn locate(&self, table: u64, hash: u64) -> Result<u32, MapError>
        ensures found { IfOk result (λ tablet. tablet_of self.now table hash ≡ Some tablet) }
        ensures absent { OnErr result (tablet_of self.now table hash ≡ None) }
        ensures refused { IfErr result (λ e. e ≡ MapError.NoTablet) }
    {
        match self.row_with(table, hash) {
            Some(row) => Ok(row.tablet),
            None => Err(MapError::NoTablet),
        }
    }

    /// Splits a tablet at a hash: the hashes from it on become the tablet `new`, with the same term and phase. `NoTablet`
    /// comes if the tablet is unknown, else `Taken` if `new` is there, else `BadSplit` if the hash is not above
    /// the first or is above the last. After an error, `NoMemory` too, nothing has changed. A step for each row.
    pub fn split(&mut self, tablet: u32, at: u64, new: u32) -> Result<(), MapError>
        ensures lawful { OnOk result (split_fault self.old tablet at new ≡ None) }
        ensures ok { OnOk result (self.new ≡ split_rows self.old tablet at new) }
        ensures refused { IfErr result (λ e. e ≢ MapError.NoMemory → split_fault self.old tablet at new ≡ Some e) }
        ensures err { OnErr result (self.new ≡ self.old) }
        ensures union { (table hash : ℕ) → is_covered self.new table hash ≡ is_covered self.old table hash }
    {
        let Some(place) = index_of(self.rows.as_slice(), tablet) else {
            return Err(MapError::NoTablet);
        };
        if has_number(self.rows.as_slice(), new) {
            return Err(MapError::Taken(new));
        }
        let row = &self.rows[place];
        let range = row.range;
        if at <= range.first || range.last < at {
            return Err(MapError::BadSplit(at));
        }
        let upper = Row {
            tablet: new,
            range: Range { first: at, ..range },
            term: row.term,
            phase: row.phase.duplicate()?,
        };
        reserve_one(&mut self.rows)?;
        self.rows[place].range.last = at - 1;
        put_in_place(&mut self.rows, upper);
        Ok(())
    }

    /// The row of this tablet, if there is one. A step for each row.
    pub fn row(&self, tablet: u32) -> Option<&Row>
        ensures { option_copied result ≡ row_of self.now tablet }
    {
        with_number(self.rows.as_slice(), tablet)
    }

    /// The row whose range has this hash of the table; none if no tablet has it. A step for each row.
    pub fn row_with(&self, table: u64, hash: u64) -> Option<&Row>
        ensures { option_copied result ≡ row_with self.now table hash }
    {
        self.rows.iter().find(|row| row.range.has(table, hash))
    }

    /// All rows, by rising tablet.
    pub fn rows(&self) -> &[Row]
        ensures value { result.now ≡ self.now }
        ensures lawful { IsTabletMap self.now }
    {
        self.rows.as_slice()
    }

    /// Gives the row of this tablet this term and phase, and changes nothing else. It answers whether there is such a
    /// row; if there is none, nothing has changed, and the phase is dropped.
    pub fn change(&mut self, tablet: u32, term: u64, phase: Phase) -> bool
        ensures answer { result ≡ is_some (row_of self.old tablet) }
        ensures after { self.new ≡ changed_rows self.old tablet term phase }
    {
        let Some(place) = index_of(self.rows.as_slice(), tablet) else {
            return false;
        };
        let row = &mut self.rows[place];
        row.term = term;
        row.phase = phase;
        true
    }
}

// Makes room for one more row.
fn reserve_one(rows: &mut Vec<Row>) -> Result<(), NoMemory>
    ensures room { OnOk result (vec_len rows.new < vec_capacity rows.new) }
    ensures same { rows.new.items ≡ rows.old.items }
{
    rows.reserve(1)?;
    Ok(())
}

// Puts a row, for which there is room, in its place by number.
fn put_in_place(rows: &mut Vec<Row>, row: Row)
    requires { vec_len rows.old < vec_capacity rows.old }
    ensures { rows.new.items ≡ placed row rows.old.items }
{
    let place = place_of(rows.as_slice(), row.tablet);
    let _ = rows.insert(place, row);
}

// The place of the row of this tablet.
fn index_of(rows: &[Row], tablet: u32) -> Option<usize>
    ensures { result ≡ position (λ row. row.tablet == tablet) rows.now }
{
    rows.iter().position(|row| row.tablet == tablet)
}

// Where the row of this tablet is or would be.
fn place_of(rows: &[Row], tablet: u32) -> usize
    ensures place { result ≡ position_or_len (λ row. nat_le tablet row.tablet) rows.now }
    ensures within { result ≤ length rows.now }
{
    first_from(rows, tablet).unwrap_or(rows.len())
}

// The place of the first row with this number or a greater one.
fn first_from(rows: &[Row], tablet: u32) -> Option<usize>
    ensures { result ≡ position (λ row. nat_le tablet row.tablet) rows.now }
{
    rows.iter().position(|row| tablet <= row.tablet)
}

// The row of this tablet.
fn with_number(rows: &[Row], tablet: u32) -> Option<&Row>
    ensures { option_copied result ≡ row_of rows.now tablet }
{
    rows.iter().find(|row| row.tablet == tablet)
}

// Whether there is a row of this tablet.
fn has_number(rows: &[Row], tablet: u32) -> bool
    ensures { result ≡ is_some (row_of rows.now tablet) }
{
    with_number(rows, tablet).is_some()
}

// Whether the range meets that of some row.
fn meets_one(rows: &[Row], range: &Range) -> bool
    ensures { result ≡ meets_any rows.now range.now }
{
    rows.iter().any(|row| row.range.meets(range))
}
