// How a message that is delivered is read from the wire.
ghost use Rattle.std.specs.Prelude.{◌≡◌, Some, IfOk, IfErr};
ghost use Rattle.rk_types.specs.NumberMap.{get};
ghost use Rattle.rk_lane.specs.Made.{IsUnread};

use rk_message::{Message, Wire};
use rk_world::StepError;

/// A message that arrives at its receiver in a lane: what was looked up on the wire of the lane, and under which number. What
/// takes an arrival requires that it is there, and does not search for it again.
#[derive(Drop)]
pub struct Arrival {
    /// The number of the message on the wire.
    pub number: u64,
    /// The message, read from its frame.
    pub message: Message,
}

/// The message of a number, read from its frame. `NoMessage` comes exactly if it was never sent or is forgotten, unless memory runs out.
/// One search, and the frame is read.
pub(crate) fn message_of(wire: &Wire, number: u64) -> Result<Message, StepError>
    ensures ok { IfOk result (λ message. get wire.now.messages number ≡ Some message) }
    ensures err { IfErr result (IsUnread wire.now number) }
{
    let Ok(frame) = wire.frame(number) else {
        return Err(StepError::NoMessage(number));
    };
    let Ok(message) = frame.message() else {
        return Err(StepError::NoMemory);
    };
    Ok(message)
}
