// Where a test can hold up a thread inside a lane's step.

/// A place inside a lane's step.
#[derive(Clone, Copy)]
pub enum Point {
    /// A client took a step.
    ClientStep,
    /// A turn was taken.
    TurnTaken,
    /// A pulled batch was replayed.
    PullReplayed,
}

/// Passed at points of a lane's step. Nothing is promised of it: it may wait, and it may return at
/// once.
pub trait Gate {
    /// Passes the gate at this point of a step of this lane.
    fn at(&self, lane: u8, point: Point);
}

/// The gate that holds up nobody.
#[derive(Clone, Copy)]
pub struct OpenGate;

impl Gate for OpenGate {
    fn at(&self, _lane: u8, _point: Point) {}
}
