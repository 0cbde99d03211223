// The parts of a lane, without its backups.
ghost use Rattle.std.specs.Prelude.{◌≡◌, ◌≤◌, ◌+◌, ◌==◌, ◌&&◌, not, max, map, replicate, length, [], Some, IfOk};
ghost use Rattle.std.specs.List.{range_with_len};
ghost use Rattle.rk_log.specs.Known.{nothing};
ghost use Rattle.rk_log.specs.declared.copied.TheConstants.{MOST_BACKUPS};
ghost use Rattle.rk_world.specs.Premises.{MOST_MASTERS};
ghost use Rattle.rk_world.specs.Master.{new_master};
ghost use Rattle.rk_world.specs.Refusals.{worn};
ghost use Rattle.rk_world.specs.Runs.{lives_another as lives_another_lem};
ghost use Rattle.rk_world.specs.World.{has_crashed, lives, new_world};
ghost use Rattle.rk_lane.specs.Parts.{IsKept, world_of};

use rk_coordinator::CoordinatorLane;
use rk_ledger::LedgerLane;
use rk_master::MasterLane;
use rk_message::Wire;
use rk_types::NoMemory;
use std::alloc::Global;

/// From here on a number that grows is too great.
pub(crate) const WORN_NUMBER: u64 = 0x1_0000_0000_0000;

/// From here on the bytes of all logs of a lane are too many.
pub(crate) const WORN_BYTES: u64 = 0x1000_0000;

/// All that a lane has beside its backups. Contracts see it by its fields, and say by `world_of` which world it makes.
#[derive(Drop)]
pub(crate) struct Parts {
    pub(crate) number: u8,
    // How many backups there are.
    pub(crate) backups: u8,
    // The masters, numbered from 1.
    pub(crate) masters: Vec<MasterLane>,
    pub(crate) coordinator: CoordinatorLane,
    pub(crate) wire: Wire,
    pub(crate) ledger: LedgerLane,
    // The masters that have crashed, in the order in which that came.
    pub(crate) crashed: Vec<u8>,
    // The greatest number that has been in the lane.
    pub(crate) top: u64,
    // The bytes of all masters' logs.
    pub(crate) log_bytes: u64,
}

impl Parts {
    /// The parts of a lane where nothing has happened.
    pub(crate) fn new(
        alloc: Global,
        number: u8,
        masters: u8,
        backups: u8,
    ) -> Result<Parts, NoMemory>
        requires few_masters { masters ≤ MOST_MASTERS }
        requires backed { 1 ≤ backups }
        requires few_backups { backups ≤ MOST_BACKUPS }
        ensures world { IfOk result (λ parts. world_of parts [] ≡ record (new_world number masters backups) { backups = [] }) }
        ensures count { IfOk result (λ parts. length parts.masters.items ≡ masters) }
        ensures kept { IfOk result IsKept }
    {
        Ok(Parts {
            number,
            backups,
            masters: new_masters(alloc, masters, backups)?,
            coordinator: CoordinatorLane::new(alloc, masters),
            wire: Wire::new(alloc),
            ledger: LedgerLane::new(alloc),
            crashed: Vec::with_capacity(alloc, masters as usize)?,
            top: 0,
            log_bytes: 0,
        })
    }

    /// Whether a master has crashed. A step for each master that has.
    pub(crate) fn has_crashed(&self, master: u8) -> bool
        ensures { result ≡ has_crashed (world_of self.now []) master }
    {
        self.crashed.iter().any(|crashed| *crashed == master)
    }

    /// The first number of the lane that is too great: the greatest that has been in it, or the bytes of its logs.
    pub(crate) fn worn(&self) -> Option<u64>
        requires { IsKept self.now }
        ensures { result ≡ worn (world_of self.now []) }
    {
        if self.top >= WORN_NUMBER {
            return Some(self.top);
        }
        if self.log_bytes >= WORN_BYTES {
            return Some(self.log_bytes);
        }
        None
    }

    /// Raises the greatest number, if it is below this one.
    pub(crate) fn raise(&mut self, number: u64)
        ensures { self.new ≡ record self.old { top = max self.old.top number } }
    {
        self.top = self.top.max(number);
    }
}

/// Whether another master than this one lives. A step for each master, and for each that has crashed.
pub(crate) fn lives_another(parts: &Parts, master: u8) -> bool
    ensures { result ≡ lives_another_lem (world_of parts.now []) master }
{
    for index in 0..parts.coordinator.masters() {
        if lives_beside(parts, master, index + 1) {
            return true;
        }
    }
    false
}

// Whether a master lives and is another one than this.
fn lives_beside(parts: &Parts, master: u8, other: u8) -> bool
    ensures { result ≡ (lives (world_of parts.now []) other && not (other == master)) }
{
    !parts.has_crashed(other) && other != master
}

// Masters that know nothing yet, numbered from 1.
fn new_masters(alloc: Global, masters: u8, backups: u8) -> Result<Vec<MasterLane>, NoMemory>
    requires few { masters ≤ MOST_MASTERS }
    requires backed { 1 ≤ backups }
    requires few_backups { backups ≤ MOST_BACKUPS }
    ensures { IfOk result (λ made. made.items ≡ map (λ number. Some (new_master number (replicate backups nothing))) (range_with_len 1 masters)) }
{
    let mut made = Vec::new(alloc);
    for index in 0..masters {
        made.push(MasterLane::new(alloc, index + 1, backups)?)?;
    }
    Ok(made)
}
