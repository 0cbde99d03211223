use crate::topic::Topic;
use rk_types::Reach;
use rk_world::Event;

/// What occurs in a lane and calls no replica.
#[derive(Clone, Copy)]
pub(crate) enum Act {
    /// An event.
    Happens(Event),
    /// A client takes its turn.
    Asks(u32),
}

/// What a settling command has to do.
#[derive(Clone, Copy)]
pub(crate) enum Task {
    /// This occurs.
    Occurs {
        lane: u8,
        act: Act,
    },
    /// The message of this number is delivered, or taken by the client that it is for.
    Delivers {
        lane: u8,
        number: u64,
    },
    /// A round of the limit of faults begins.
    Begins,
    /// It ends.
    Ends,
    /// An exchange: this occurs, and what is sent then on a topic is delivered, and so on.
    Exchanges {
        lane: u8,
        topic: Topic,
        act: Act,
    },
    /// Of the messages after `last` those that are not on the topic are forgotten; then those after `from` are handed out.
    Sorts {
        lane: u8,
        topic: Topic,
        from: u64,
        last: u64,
    },
    /// The messages after this number are delivered, the oldest first, and the answers to them.
    Hands {
        lane: u8,
        topic: Topic,
        from: u64,
    },
    /// Each crashed master of a lane that was not noticed there is noticed.
    Notices {
        lane: u8,
    },
    /// Rounds run until the cluster is at rest.
    Settles,
    /// The nodes of a lane take their turns.
    Turns {
        lane: u8,
    },
    /// The messages of a lane are delivered and forgotten, the oldest first, until none is left.
    Empties {
        lane: u8,
    },
    /// A client's call is tried, for the first or the second time.
    Tries {
        lane: u8,
        client: u32,
        times: u8,
    },
    /// The call is sent to the owner, if the client knows it.
    Requests {
        lane: u8,
        client: u32,
        times: u8,
    },
    /// What the master that was asked has answered is looked at.
    Hears {
        lane: u8,
        client: u32,
        times: u8,
        asked: u8,
    },
    /// Log exchanges run while the call is outstanding and staged at the master that was asked.
    Commits {
        lane: u8,
        client: u32,
        asked: u8,
    },
    /// What the target of a tablet wants first is sent for.
    Hastens {
        lane: u8,
        tablet: u32,
    },
    /// A migration is brought to this reach, if it is short of it.
    Advances {
        lane: u8,
        tablet: u32,
        reach: Reach,
    },
    /// It is brought from the reach before to this one, if it is short of it.
    Reaches {
        lane: u8,
        tablet: u32,
        reach: Reach,
    },
    /// Log exchanges of a master run while it closes a tablet.
    Freezes {
        lane: u8,
        tablet: u32,
        master: u8,
    },
}
