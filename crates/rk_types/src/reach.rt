/// How far a migration is to be brought, in the order in which it comes there.
#[derive(Clone, Copy)]
pub enum Reach {
    /// The target is ready, and its place is known.
    Begun,
    /// The source has stopped, and nothing of the tablet waits there.
    Frozen,
    /// The target answers calls.
    Granted,
    /// The target has pulled all.
    Pulled,
    /// The target's closing entry is applied.
    Joined,
    /// The target owns the tablet.
    Finished,
}
