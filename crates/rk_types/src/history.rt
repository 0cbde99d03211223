ghost use Rattle.std.specs.Prelude.{◌≡◌, IfOk};

use crate::call::{Call, Outcome};
use crate::memory::NoMemory;

/// A record of a journal: a call with its outcome and its stamp, and whether the caller has accepted the answer.
#[derive(PartialEq, Eq)]
pub struct Placed {
    pub call: Call,
    pub outcome: Outcome,
    pub stamp: u64,
    pub accepted: bool,
}

/// What a caller keeps of an answer that it accepted: the call, its outcome, and the lane, place and stamp of its
/// record. Places count from 0.
pub struct Receipt {
    pub call: Call,
    pub outcome: Outcome,
    pub lane: u8,
    pub place: u64,
    pub stamp: u64,
}

impl Drop for Placed {
    fn drop(self) {
        let Placed {
            call: _,
            outcome: _,
            stamp: _,
            accepted: _,
        } = self;
    }
}

impl Drop for Receipt {
    fn drop(self) {
        let Receipt {
            call: _,
            outcome: _,
            lane: _,
            place: _,
            stamp: _,
        } = self;
    }
}

impl Placed {
    /// A record of its own with the same parts.
    pub fn duplicate(&self) -> Result<Placed, NoMemory>
        ensures { IfOk result (λ placed. placed ≡ self.now) }
    {
        Ok(Placed {
            call: self.call.duplicate()?,
            outcome: self.outcome.duplicate()?,
            stamp: self.stamp,
            accepted: self.accepted,
        })
    }
}

impl Receipt {
    /// A receipt of its own with the same parts.
    pub fn duplicate(&self) -> Result<Receipt, NoMemory>
        ensures { IfOk result (λ receipt. receipt ≡ self.now) }
    {
        Ok(Receipt {
            call: self.call.duplicate()?,
            outcome: self.outcome.duplicate()?,
            lane: self.lane,
            place: self.place,
            stamp: self.stamp,
        })
    }
}
