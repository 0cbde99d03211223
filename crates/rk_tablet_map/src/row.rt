ghost use Rattle.std.specs.Prelude.{◌≡◌, IfOk};

use crate::phase::Phase;
use rk_types::{NoMemory, Range};

/// A row of the tablet map: the number of a tablet, its key hashes, its term, and where it is.
#[derive(Drop, PartialEq, Eq)]
pub struct Row {
    pub tablet: u32,
    pub range: Range,
    pub term: u64,
    pub phase: Phase,
}

impl Row {
    /// A row of its own with the same parts.
    pub fn duplicate(&self) -> Result<Row, NoMemory>
        ensures { IfOk result (λ row. row ≡ self.now) }
    {
        Ok(Row {
            tablet: self.tablet,
            range: self.range,
            term: self.term,
            phase: self.phase.duplicate()?,
        })
    }
}
