ghost use Rattle.std.specs.Prelude.{◌≡◌, IfOk};

use rk_types::{Ended, Listed, NoMemory};
use std::marker::Model;

/// What a source reported when its tablet froze. Contracts see the record of the definitions.
#[derive(Drop)]
pub(crate) struct Told {
    floor: u64,
    ends: Listed<Ended>,
}

impl Model for Told {
    ghost use Rattle.rk_world.specs.Coordinator.{Handed};

    ghost Value = { Handed };

    ghost view = { λ told. record { floor = told.floor; ends = told.ends } };
}

impl Told {
    /// A number above each version, and the last end of each client.
    pub(crate) fn new(floor: u64, ends: Listed<Ended>) -> Told
        ensures floor { result.floor ≡ floor }
        ensures ends { result.ends ≡ ends }
    {
        Told { floor, ends }
    }

    /// A number above each version.
    pub(crate) fn floor(&self) -> u64
        ensures { result ≡ self.now.floor }
    {
        self.floor
    }

    /// The last end of each client, in a list of its own.
    pub(crate) fn ends(&self) -> Result<Listed<Ended>, NoMemory>
        ensures { IfOk result (λ ends. ends ≡ self.now.ends) }
    {
        self.ends.duplicate()
    }
}
