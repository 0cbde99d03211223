ghost use Rattle.std.specs.Prelude.{◌≡◌, IfOk};

use rk_types::{NoMemory, Placed};

/// A line of the merged history: a record, and the lane whose journal has it.
#[derive(Drop, PartialEq, Eq)]
pub struct Line {
    pub lane: u8,
    pub placed: Placed,
}

impl Line {
    /// A line of its own with the same parts.
    pub fn duplicate(&self) -> Result<Line, NoMemory>
        ensures { IfOk result (λ line. line ≡ self.now) }
    {
        Ok(Line {
            lane: self.lane,
            placed: self.placed.duplicate()?,
        })
    }
}
