ghost use Rattle.std.specs.Prelude.{◌≡◌};
ghost use Rattle.rk_cluster.specs.Numbers.{number_of};

/// Why a call of a cluster is refused; a refused call changes nothing.
#[derive(Clone, Copy, Debug, PartialEq, Eq)]
pub enum Code {
    /// A table is to be made after a client has called.
    TooLate,
    /// The table or the client is there already.
    Taken,
    /// There is no such master, table, tablet or client.
    Unknown,
    /// The client has an outstanding call.
    Busy,
    /// The client has no outstanding call to bring on, or has sent no request.
    NothingSent,
    /// The tablet moves or is rebuilt in some lane.
    NotOwned,
    /// The master owns the tablet in every lane.
    OwnsAll,
    /// A master that would have to act has crashed.
    Crashed,
    /// It is the last master that lives.
    LastMaster,
    /// In no lane does the tablet migrate short of what is asked.
    NotMigrating,
    /// No message is at that place of the wire.
    NoPlace,
    /// As many are there as may be.
    Limit,
    /// A part of the tablet would have no hash.
    BadSplit,
    /// The master has not crashed.
    Alive,
}

impl Code {
    /// The number that is written for the code.
    pub fn number(self) -> u8
        ensures { result ≡ number_of self }
    {
        match self {
            Code::TooLate => 7,
            Code::Taken => 8,
            Code::Unknown => 9,
            Code::Busy => 10,
            Code::NothingSent => 11,
            Code::NotOwned => 12,
            Code::OwnsAll => 13,
            Code::Crashed => 14,
            Code::LastMaster => 15,
            Code::NotMigrating => 16,
            Code::NoPlace => 17,
            Code::Limit => 18,
            Code::BadSplit => 19,
            Code::Alive => 21,
        }
    }
}
