use rk_types::{Key, Op, Reach};

/// A command of a script.
#[derive(Drop)]
pub enum Command {
    /// There are so many masters.
    Masters(u8),
    /// There are so many backups.
    Backups(u8),
    /// A table is made with one tablet, which a master owns.
    Table {
        table: u64,
        master: u8,
    },
    /// A client begins its session.
    Client(u32),
    /// A client asks this of the record of a key.
    Call {
        client: u32,
        table: u64,
        key: Key,
        op: Op,
    },
    /// A client makes one attempt at its outstanding call.
    Serve(u32),
    /// A client sends its last request again.
    Repeat(u32),
    /// A tablet begins to move to a master.
    Migrate {
        tablet: u32,
        master: u8,
    },
    /// The migration of a tablet goes on to a reach.
    Advance {
        tablet: u32,
        reach: Reach,
    },
    /// The records that were asked for are pulled ahead of the others.
    Priority(u32),
    /// A new tablet begins at a hash of a tablet.
    Split {
        tablet: u32,
        hash: u64,
    },
    /// The nodes of a lane take their turns.
    Turn(u8),
    /// The message at a place of a lane's wire is delivered.
    Deliver {
        lane: u8,
        place: u32,
    },
    /// The message at a place of a lane's wire is taken away.
    Forget {
        lane: u8,
        place: u32,
    },
    /// A master crashes.
    Crash(u8),
    /// The coordinator is notified that a master has crashed.
    Notice(u8),
    /// Everything runs until it is quiet.
    Settle,
    /// The state of a tablet is printed.
    Where(u32),
    /// The records of a tablet are printed.
    Dump(u32),
    /// The history of all calls is printed.
    History,
}

/// A command with the number of its line, counted from 1.
#[derive(Drop)]
pub struct Numbered {
    pub line: u32,
    pub command: Command,
}
