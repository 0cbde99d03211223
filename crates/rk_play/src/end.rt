// How the commands of a run end.
use crate::error::PlayError;

/// How the commands of a run have come to an end.
#[derive(Clone, Copy)]
pub(crate) enum End {
    /// All of them have run.
    Done,
    /// The run stops at the command of this line, and not for want of memory.
    Stopped { line: u32, error: PlayError },
    /// The sink has failed.
    WriteFault,
    /// Memory ran out.
    NoMemory,
}
