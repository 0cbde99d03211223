ghost use Rattle.std.specs.Prelude.{◌≡◌, IfOk};

use crate::call::Outcome;
use crate::memory::NoMemory;
use crate::text::Key;

/// Who sends or receives a message.
#[derive(Clone, Copy, PartialEq, Eq)]
pub enum Node {
    Client(u32),
    Coordinator,
    Master(u8),
    Backup(u8),
}

/// What a client was told of its call: its number and that call's, and the answer.
pub enum Said {
    /// The call was carried out, with this outcome.
    Reply(u32, u64, Outcome),
    /// The tablet of this number has moved: ask again.
    Moved(u32, u64, u32),
    /// The record of this key has not arrived yet: ask again.
    NotYet(u32, u64, Key),
}

/// A message, by its lane and its number there, that is to be delivered by whoever takes the parcel.
#[derive(Clone, Copy, Debug, PartialEq, Eq)]
pub struct Parcel {
    pub lane: u8,
    pub number: u64,
}

impl Drop for Said {
    fn drop(self) {
        match self {
            Said::Reply(_, _, _) | Said::Moved(_, _, _) | Said::NotYet(_, _, _) => {}
        }
    }
}

impl Said {
    /// An answer of its own with the same parts.
    pub fn duplicate(&self) -> Result<Said, NoMemory>
        ensures { IfOk result (λ said. said ≡ self.now) }
    {
        Ok(match self {
            Said::Reply(client, seq, outcome) => Said::Reply(*client, *seq, outcome.duplicate()?),
            Said::Moved(client, seq, tablet) => Said::Moved(*client, *seq, *tablet),
            Said::NotYet(client, seq, key) => Said::NotYet(*client, *seq, key.duplicate()?),
        })
    }
}
