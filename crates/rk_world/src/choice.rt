use rk_types::{End, Outcome};

/// What is to be done with a call, at the tablet of a number.
#[derive(Drop)]
pub enum Choice {
    /// No tablet that is served here has the key: the call is answered Moved.
    Redirects,
    /// The call has ended so.
    Repeats(End),
    /// Nothing is done: the call is staged, or a later one of its client has ended.
    Ignores,
    /// The record may not have arrived at this tablet yet: its hash is wanted.
    Wants(u32),
    /// The read returns this.
    Reads(Outcome),
    /// The mutation writes or removes the record at this tablet, as its operation says.
    Writes(u32),
    /// The mutation is refused: it found this version, or was the removal of a record that is not there.
    Refuses(u64, bool),
}
