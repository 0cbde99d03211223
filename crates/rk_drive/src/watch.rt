use rk_outside::OpenGate;

/// Looks on while a drive runs, called by its workers. Nothing is promised of it, and nothing rests on what it does.
pub trait Watch {
    /// So many of all calls are answered.
    fn answered(&self, count: u64, all: u64);

    /// The table of a lane is owned by this master, or by none while it moves or is rebuilt.
    fn owned(&self, lane: u8, master: Option<u8>);
}

impl Watch for OpenGate {
    fn answered(&self, _count: u64, _all: u64) {}

    fn owned(&self, _lane: u8, _master: Option<u8>) {}
}
