ghost use Rattle.std.specs.Prelude.{◌≡◌};
ghost use Rattle.rk_types.specs.Status.{status_number};

/// How a run of the program ended.
#[derive(Clone, Copy, Debug, PartialEq, Eq)]
pub enum Status {
    /// The script was read to its end and each line ran.
    Done,
    /// A line of the script was refused.
    Refused,
    /// The words are none of the forms of the program.
    Usage,
    /// Reading failed.
    ReadFault,
    /// Writing failed.
    WriteFault,
    /// Memory ran out.
    NoMemory,
    /// The replicas failed again and again.
    ReplicaFault,
    /// A receipt does not agree with its record.
    Audit,
    /// A number of a lane has grown too great.
    Worn,
}

impl Status {
    /// The exit status of the program.
    pub fn number(self) -> u8
        ensures { result ≡ status_number self }
    {
        match self {
            Status::Done => 0,
            Status::Refused => 1,
            Status::Usage => 2,
            Status::ReadFault => 3,
            Status::WriteFault => 4,
            Status::NoMemory => 5,
            Status::ReplicaFault => 6,
            Status::Audit => 7,
            Status::Worn => 10,
        }
    }
}
