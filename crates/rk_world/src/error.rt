use rk_tablet_map::MapError;
use thiserror::Error;

/// Why a tablet is not moved or split; but for want of memory the causes are tested in this order.
#[derive(Clone, Copy, Debug, PartialEq, Eq, Error)]
pub enum MoveError {
    /// Memory ran out.
    #[error("out of memory")]
    NoMemory,
    /// No tablet has the number.
    #[error("no such tablet")]
    NoTablet,
    /// The tablet moves or is rebuilt, at this term.
    #[error("the tablet is not owned, at term {0}")]
    NotOwned(u64),
    /// This master owns the tablet already.
    #[error("master {0} owns the tablet already")]
    SameMaster(u8),
    /// This master was noticed dead.
    #[error("master {0} is dead")]
    DeadMaster(u8),
    /// The tablet map refuses.
    #[error("the tablet map refuses: {0}")]
    Map(MapError),
}

/// Why an event is refused. But for want of memory the lane is unchanged then.
#[derive(Clone, Copy, Debug, PartialEq, Eq, Error)]
pub enum StepError {
    /// Memory ran out.
    #[error("out of memory")]
    NoMemory,
    /// This number of the lane, or of the session, has grown too great.
    #[error("the lane is worn, at {0}")]
    Worn(u64),
    /// No message of this number is on the wire.
    #[error("no message {0}")]
    NoMessage(u64),
    /// The message of this number is for another node.
    #[error("message {0} is for another node")]
    Address(u64),
    /// This master has crashed.
    #[error("master {0} has crashed")]
    Dead(u8),
    /// This master has not crashed.
    #[error("master {0} lives")]
    Alive(u8),
    /// This client was not added.
    #[error("client {0} is a stranger")]
    Stranger(u32),
    /// There are as many clients as may be.
    #[error("there are too many clients")]
    TooMany,
    /// The coordinator refuses to move or split the tablet.
    #[error("the tablet stays: {0}")]
    Move(MoveError),
    /// The tablet map refuses the new tablet.
    #[error("the tablet map refuses: {0}")]
    Map(MapError),
}
