ghost use Rattle.std.specs.Prelude.{◌≡◌, IfOk};

use rk_types::{Listed, Member, NoMemory};

/// Where a tablet is. Places count the entries of a master's log from 0, and `from`, `sfrom` and `dfrom` are those from
/// which the log of the owner, the source and the target counts for the tablet.
#[derive(Drop, PartialEq, Eq)]
pub enum Phase {
    /// One master owns it.
    Owned {
        master: u8,
        from: u64,
    },
    /// It is to move; `dfrom` is known once the target is ready.
    Opening {
        source: u8,
        sfrom: u64,
        target: u8,
        dfrom: Option<u64>,
    },
    /// It moves: the target answers calls and fetches what it lacks.
    Moving {
        source: u8,
        sfrom: u64,
        target: u8,
        dfrom: u64,
    },
    /// The master `to` rebuilds it from the logs of these masters, each with its place, the oldest first.
    Rebuilding {
        lineage: Listed<Member>,
        to: u8,
    },
}

impl Phase {
    /// A phase of its own with the same parts.
    pub fn duplicate(&self) -> Result<Phase, NoMemory>
        ensures { IfOk result (λ phase. phase ≡ self.now) }
    {
        Ok(match self {
            Phase::Owned { master, from } => Phase::Owned {
                master: *master,
                from: *from,
            },
            Phase::Opening {
                source,
                sfrom,
                target,
                dfrom,
            } => Phase::Opening {
                source: *source,
                sfrom: *sfrom,
                target: *target,
                dfrom: *dfrom,
            },
            Phase::Moving {
                source,
                sfrom,
                target,
                dfrom,
            } => Phase::Moving {
                source: *source,
                sfrom: *sfrom,
                target: *target,
                dfrom: *dfrom,
            },
            Phase::Rebuilding { lineage, to } => Phase::Rebuilding {
                lineage: lineage.duplicate()?,
                to: *to,
            },
        })
    }
}
