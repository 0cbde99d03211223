// How messages are put on the wire.
ghost use Rattle.std.specs.Prelude.{◌≡◌, ◌<◌, ◌+◌, ◌==◌, ◌^◌, if◌then◌else◌, length, false, All, IfOk, None};
ghost use Rattle.std.specs.Option.{option_to_list};
ghost use Rattle.rk_lane.specs.Sends.{IsSent, IsSendable};

use crate::short::is_short;
use rk_message::{Message, Wire};
use rk_types::NoMemory;
use rk_world::Seen;

/// Messages that were sent.
#[derive(Clone, Copy)]
pub(crate) struct Sent {
    /// The number of the first one, 0 if there is none.
    pub(crate) first: u64,
    /// How many there are.
    pub(crate) count: u64,
    /// The number of the last one, 0 if there is none.
    pub(crate) last: u64,
}

impl Sent {
    /// Nothing was sent.
    fn nothing() -> Sent
        ensures { result ≡ record { first = 0; count = 0; last = 0 } }
    {
        Sent {
            first: 0,
            count: 0,
            last: 0,
        }
    }

    // One message more was sent, under this number.
    fn with(self, number: u64) -> Sent
        requires { self.count < 2 ^ 60 }
        ensures { result ≡ record { first = if self.count == 0 then number else self.first; count = self.count + 1; last = number } }
    {
        Sent {
            first: if self.count == 0 { number } else { self.first },
            count: self.count + 1,
            last: number,
        }
    }

    /// What is seen of it.
    pub(crate) fn seen(self) -> Seen
        ensures { result ≡ record { first = self.first; sent = self.count; lost = false; taken = None } }
    {
        Seen {
            first: self.first,
            sent: self.count,
            lost: false,
            taken: None,
        }
    }
}

/// Puts messages on the wire, one after the other. `NoMemory` also if one is too long for a frame; some first ones are
/// there then.
pub(crate) fn send_all(wire: &mut Wire, sends: Vec<Message>) -> Result<Sent, NoMemory>
    requires room { wire.old.sent + length sends.items < 2 ^ 60 }
    requires lawful { All IsSendable sends.items }
    ensures { IfOk result (IsSent wire.old sends.items wire.new) }
{
    let mut sent = Sent::nothing();
    for message in sends.as_slice() {
        if !is_short(&message.body) {
            return Err(NoMemory);
        }
        sent = sent.with(wire.send(message)?);
    }
    Ok(sent)
}

/// Puts a message on the wire, if there is one. `NoMemory` also if it is too long for a frame; the wire is as it was then.
pub(crate) fn send_some(wire: &mut Wire, send: Option<Message>) -> Result<Sent, NoMemory>
    requires room { wire.old.sent + length (option_to_list send) < 2 ^ 60 }
    requires lawful { All IsSendable (option_to_list send) }
    ensures { IfOk result (IsSent wire.old (option_to_list send) wire.new) }
{
    let Some(message) = send else {
        return Ok(Sent::nothing());
    };
    if !is_short(&message.body) {
        return Err(NoMemory);
    }
    let number = wire.send(&message)?;
    Ok(Sent::nothing().with(number))
}
