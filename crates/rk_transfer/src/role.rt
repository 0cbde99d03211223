ghost use Rattle.std.specs.Prelude.{◌≡◌};
ghost use Rattle.rk_transfer.specs.Handover.{is_serving};

/// What a master is to a tablet. Places count the entries of its log from 0.
#[derive(Clone, Copy, PartialEq, Eq)]
pub enum Role {
    /// It has nothing of the tablet.
    Absent,
    /// It owns the tablet and answers calls.
    Serving,
    /// It gives the tablet away and answers no more calls; some of its entries may not be applied yet.
    Closing,
    /// It gave the tablet away, and what it has of it stays as it is.
    Frozen,
    /// It waits for a grant; its own entries of the tablet start at this place.
    Wanting { from: u64 },
    /// It answers calls, and fetches what it lacks from the master that gave the tablet away.
    Receiving,
    /// It has all; `entry` is the place of the entry that closes the role, once that is in the log.
    Joining { entry: Option<u64> },
    /// It collects what a crashed master had; its own entries of the tablet start at `from`, and `entry` is the place
    /// of the entry that closes the role, once that is in the log.
    Rebuilding { from: u64, entry: Option<u64> },
}

impl Role {
    /// Whether a master in this role answers calls.
    pub fn serves(self) -> bool
        ensures { result ≡ is_serving self }
    {
        matches!(self, Role::Serving | Role::Receiving | Role::Joining { .. })
    }
}
