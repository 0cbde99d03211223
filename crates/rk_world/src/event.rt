use rk_types::{Key, Node, Range};

/// What may happen in a lane. Which one does, and when, is anybody's choice: the wire's, a script's or a schedule's.
#[derive(Clone, Copy)]
pub enum Event {
    /// A tablet is made, owned by this master.
    AddTablet {
        tablet: u32,
        range: Range,
        master: u8,
    },
    /// A client may call from now on.
    AddClient(u32),
    /// The message of this number reaches its receiver; it stays on the wire.
    Deliver(u64),
    /// The message of this number is lost.
    Forget(u64),
    /// A node does what is its turn.
    Turn(Node),
    /// The last request of this client is sent once more.
    Again(u32),
    /// The tablet is to move to a master.
    Migrate {
        tablet: u32,
        to: u8,
    },
    /// The tablet is split at a hash, and the upper part gets the new number.
    Split {
        tablet: u32,
        at: u64,
        new: u32,
    },
    /// A master stops for ever.
    Crash(u8),
    /// The coordinator learns that a master has stopped.
    Notice(u8),
}

/// What a session makes of a message.
#[derive(Drop)]
pub enum Taken {
    /// It is not for the outstanding call, or says nothing new.
    Ignored,
    /// It says where the key is.
    Located,
    /// The tablet of this number has moved.
    Moved(u32),
    /// The record of this key has not arrived yet.
    NotYet(Key),
    /// The call is answered.
    Done,
}

/// What an event showed: how many messages it put on the wire, and the number of the first of them, 0 if there is
/// none; whether it was lost, since its receiver had crashed or a backup failed; what a session made of the message.
#[derive(Drop)]
pub struct Seen {
    pub first: u64,
    pub sent: u64,
    pub lost: bool,
    pub taken: Option<Taken>,
}
