ghost use Rattle.std.specs.Prelude.{◌≡◌, Some};
ghost use Rattle.rk_done.specs.Completions.{look_of};

use rk_types::End;
use std::cmp::Ordering;

/// The last completion of a client: the seq of its last call that ended, and that end.
#[derive(Clone, Copy, PartialEq, Eq)]
pub struct Completion {
    pub seq: u64,
    pub end: End,
}

/// What is known of a client's call.
#[derive(Clone, Copy, PartialEq, Eq)]
pub enum Look {
    /// The client has no completion, or its last one has a smaller seq: the call has not ended.
    New,
    /// The call ended so.
    Same(End),
    /// A later call of the client has ended, the one with this seq.
    Old(u64),
}

impl Completion {
    /// What is known of the call with this seq, of the client whose last completion this is.
    pub fn look(&self, seq: u64) -> Look
        ensures { result ≡ look_of (Some self.now) seq }
    {
        match self.seq.cmp(&seq) {
            Ordering::Less => Look::New,
            Ordering::Equal => Look::Same(self.end),
            Ordering::Greater => Look::Old(self.seq),
        }
    }
}
