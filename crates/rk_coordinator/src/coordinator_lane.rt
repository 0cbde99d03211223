ghost use Rattle.std.specs.Prelude.{◌≡◌, ◌≢◌, None, Some, IfErr, OnOk, OnErr};
ghost use Rattle.std.specs.Option.{option_map};
ghost use Rattle.rk_tablet_map.specs.Rows.{add_fault, split_fault, split_rows};
ghost use Rattle.rk_world.specs.Coordinator.{new_coordinator, new_row, is_noticed, with_row};
ghost use Rattle.rk_world.specs.Migrations.{migrate_fault, tablet_migrated};
ghost use Rattle.rk_world.specs.Splits.{rows_split, tablet_split_fault};
ghost use Rattle.rk_coordinator.specs.Lane.{MayRise};

use crate::told::Told;
use rk_tablet_map::{MapError, Phase, Row, TabletMap};
use rk_types::{Numbered, Range};
use rk_world::MoveError;
use std::alloc::Global;
use std::marker::Model;

mod duties;
mod messages;
mod notices;

/// The coordinator of one lane. Contracts see the coordinator that the definitions speak of.
pub struct CoordinatorLane {
    masters: u8,
    map: TabletMap,
    // The masters that were noticed dead, in the order in which that came.
    noticed: Vec<u8>,
    // What sources reported, by tablet.
    handed: Numbered<Told>,
}

// No derive, so that to drop a coordinator is a call in proofs, and no walk through all that it holds.
impl Drop for CoordinatorLane {
    fn drop(self) {
        let CoordinatorLane {
            masters: _,
            map: _,
            noticed: _,
            handed: _,
        } = self;
    }
}

impl Model for CoordinatorLane {
    ghost use Rattle.rk_world.specs.Coordinator.{Coordinator};

    ghost Value = { Coordinator };

    ghost use Rattle.rk_coordinator.specs.Lane.{coordinator_of};

    ghost view = { coordinator_of };
}

impl CoordinatorLane {
    /// A coordinator without tablets, of a lane with so many masters, which are numbered from 1. Takes no memory.
    pub fn new(alloc: Global, masters: u8) -> CoordinatorLane
        ensures { result ≡ new_coordinator masters }
    {
        CoordinatorLane {
            masters,
            map: TabletMap::new(alloc),
            noticed: Vec::new(alloc),
            handed: Numbered::new(alloc),
        }
    }

    /// How many masters there are.
    pub fn masters(&self) -> u8
        ensures { result ≡ self.now.masters }
    {
        self.masters
    }

    /// The rows of all tablets.
    pub fn map(&self) -> &TabletMap
        ensures { result.now ≡ self.now.rows }
    {
        &self.map
    }

    /// Whether a master was noticed dead. A step for each master that was.
    pub fn noticed(&self, master: u8) -> bool
        ensures { result ≡ is_noticed self.now master }
    {
        self.noticed.iter().any(|noticed| *noticed == master)
    }

    // The allocator for what it makes.
    fn alloc(&self) -> Global {
        *self.noticed.allocator()
    }

    /// Adds a tablet, owned by a master from the start of its log on. `Taken` comes if its number is there, else
    /// `Overlap` if its range meets that of another tablet. After an error, `NoMemory` too, nothing has changed. A few
    /// steps for each row.
    pub fn add(&mut self, tablet: u32, range: Range, master: u8) -> Result<(), MapError>
        ensures lawful { OnOk result (add_fault self.old.rows (new_row tablet range master) ≡ None) }
        ensures ok { OnOk result (self.new ≡ with_row self.old (new_row tablet range master)) }
        ensures refused { IfErr result (λ e. e ≢ MapError.NoMemory
            → add_fault self.old.rows (new_row tablet range master) ≡ Some e) }
        ensures err { OnErr result (self.new ≡ self.old) }
    {
        self.map.add(Row {
            tablet,
            range,
            term: 1,
            phase: Phase::Owned { master, from: 0 },
        })
    }

    /// A tablet begins to move to a master, at the next term. `NoTablet` comes if there is no such tablet, else
    /// `NotOwned` if it moves or is rebuilt, else `SameMaster` if that master owns it, else `DeadMaster` if that
    /// was noticed dead. After an error nothing has changed; it takes no memory. A few steps for each row, and one for each
    /// master that was noticed.
    pub fn migrate(&mut self, tablet: u32, to: u8) -> Result<(), MoveError>
        requires { MayRise self.old }
        ensures lawful { OnOk result (migrate_fault self.old tablet to ≡ None) }
        ensures ok { OnOk result (self.new ≡ tablet_migrated self.old tablet to) }
        ensures refused { IfErr result (λ e. migrate_fault self.old tablet to ≡ Some e) }
        ensures err { OnErr result (self.new ≡ self.old) }
    {
        let Some(row) = self.map.row(tablet) else {
            return Err(MoveError::NoTablet);
        };
        let Phase::Owned { master, from } = &row.phase else {
            return Err(MoveError::NotOwned(row.term));
        };
        if *master == to {
            return Err(MoveError::SameMaster(to));
        }
        if self.noticed(to) {
            return Err(MoveError::DeadMaster(to));
        }
        let term = row.term + 1;
        let opening = Phase::Opening {
            source: *master,
            sfrom: *from,
            target: to,
            dfrom: None,
        };
        self.map.change(tablet, term, opening);
        Ok(())
    }

    /// Splits a tablet at a hash: the hashes from it on become the tablet `new`, and both begin the next term with the
    /// tablet's owner. `NoTablet` comes if there is no such tablet, else `NotOwned` if it moves or is rebuilt, else
    /// `Map` with what the tablet map refuses. After an error, `NoMemory` too, nothing has changed. A few steps for each
    /// row.
    pub fn split(&mut self, tablet: u32, at: u64, new: u32) -> Result<(), MoveError>
        requires { MayRise self.old }
        ensures lawful { OnOk result (tablet_split_fault self.old tablet at new ≡ None) }
        ensures ok { OnOk result (self.new ≡ rows_split self.old tablet at new) }
        ensures refused { IfErr result (λ e. e ≢ MoveError.NoMemory → tablet_split_fault self.old tablet at new ≡ Some e) }
        ensures err { OnErr result (self.new ≡ self.old) }
    {
        let Some(row) = self.map.row(tablet) else {
            return Err(MoveError::NoTablet);
        };
        let Phase::Owned { master, from } = &row.phase else {
            return Err(MoveError::NotOwned(row.term));
        };
        let (master, from, term) = (*master, *from, row.term + 1);
        split_map(&mut self.map, tablet, at, new)?;
        self.map.change(tablet, term, Phase::Owned { master, from });
        self.map.change(new, term, Phase::Owned { master, from });
        Ok(())
    }
}

// Splits a tablet of a map.
fn split_map(map: &mut TabletMap, tablet: u32, at: u64, new: u32) -> Result<(), MoveError>
    ensures lawful { OnOk result (split_fault map.old tablet at new ≡ None) }
    ensures ok { OnOk result (map.new ≡ split_rows map.old tablet at new) }
    ensures refused { IfErr result (λ e. e ≢ MoveError.NoMemory
        → option_map MoveError.Map (split_fault map.old tablet at new) ≡ Some e) }
    ensures err { OnErr result (map.new ≡ map.old) }
{
    match map.split(tablet, at, new) {
        Ok(()) => Ok(()),
        Err(MapError::NoMemory) => Err(MoveError::NoMemory),
        Err(error) => Err(MoveError::Map(error)),
    }
}
