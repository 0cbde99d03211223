// Which lanes and which clients belong together.
ghost use Rattle.std.specs.Prelude.{ℕ, List, Option};
ghost use Rattle.rk_types.specs.declared.call.Call.{Call};

use std::marker::Brand;
use std::sync::ledger::Ledger;

/// The ledger that numbers the lanes. It also names what all of them have in common, as data of proofs: how many masters and backups each
/// lane has, which clients, which calls these make, how often the replicas had failed, and what is taken for granted of these.
pub trait Roster: Ledger {
    /// How many masters each lane has.
    ghost masters: { ℕ };

    /// How many backups each lane has.
    ghost backups: { ℕ };

    /// The clients of each lane.
    ghost clients: { List ℕ };

    /// Which calls clients make.
    ghost makes: { Call → Type 0 };

    /// How often the replicas had failed at the start, by lane and by the place of the backup in its lane, counted from 0.
    ghost counts: { ℕ → ℕ → Option ℕ };

    /// What is taken for granted of the replicas at the start, as that each of them reports what it stores: if it is so, lanes are sound.
    ghost tells: { Type 0 };
}

impl Roster for Brand {
    ghost use Rattle.std.specs.Prelude.{[], None, ⊤};

    ghost masters = { 0 };

    ghost backups = { 0 };

    ghost clients = { [] };

    ghost makes = { λ call. ⊤ };

    ghost counts = { λ lane place. None };

    ghost tells = { ⊤ };
}
