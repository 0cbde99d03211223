// How what was sent is put on the wire at the end of an event.
ghost use Rattle.std.specs.Prelude.{◌≡◌, ◌<◌, ◌+◌, ◌^◌, List, length, All, IfOk, IfErr};
ghost use Rattle.std.specs.Option.{option_to_list};
ghost use Rattle.rk_message.specs.declared.message.Message.{Message as Posted};
ghost use Rattle.rk_lane.specs.declared.parts.Parts.{Parts as Before};
ghost use Rattle.rk_lane.specs.Finished.{IsCutBack, IsFinished};
ghost use Rattle.rk_lane.specs.Sends.{IsSendable, IsSent};

use crate::parts::Parts;
use crate::sends::{Sent, send_all, send_some};
use rk_ledger::LedgerLane;
use rk_message::Message;
use rk_types::NoMemory;
use rk_world::{Seen, StepError};

/// Sends messages, and raises the greatest number to that of the last one. If there is no memory for that, the records of
/// the journal from a place on are taken away again.
pub(crate) fn finish(
    parts: &mut Parts,
    sends: Vec<Message>,
    records: usize,
) -> Result<Seen, StepError>
    requires room { parts.old.wire.sent + length sends.items < 2 ^ 60 }
    requires lawful { All IsSendable sends.items }
    ensures ok { IfOk result (IsFinished parts.old sends.items parts.new) }
    ensures err { IfErr result (IsCutBack parts.old records parts.new) }
{
    let sent = send_all(&mut parts.wire, sends);
    close(parts, sent, records)
}

/// Sends a message, if there is one, in the same way.
pub(crate) fn finish_one(
    parts: &mut Parts,
    send: Option<Message>,
    records: usize,
) -> Result<Seen, StepError>
    requires room { parts.old.wire.sent + length (option_to_list send) < 2 ^ 60 }
    requires lawful { All IsSendable (option_to_list send) }
    ensures ok { IfOk result (IsFinished parts.old (option_to_list send) parts.new) }
    ensures err { IfErr result (IsCutBack parts.old records parts.new) }
{
    let sent = send_some(&mut parts.wire, send);
    close(parts, sent, records)
}

// Raises the greatest number to that of the last message that was sent; if not all could be sent, the records of the journal
// from a place on are taken away again.
fn close(parts: &mut Parts, sent: Result<Sent, NoMemory>, records: usize) -> Result<Seen, StepError>
    ensures ok { (old : Before) (sends : List Posted) → parts.old ≡ record old { wire = parts.old.wire } → IfOk sent (IsSent old.wire sends parts.old.wire)
        → IfOk result (IsFinished old sends parts.new) }
    ensures err { (old : Before) → parts.old ≡ record old { wire = parts.old.wire } → IfErr result (IsCutBack old records parts.new) }
{
    let Ok(sent) = sent else {
        parts.ledger.withdraw(records);
        return Err(StepError::NoMemory);
    };
    parts.raise(sent.last);
    Ok(sent.seen())
}

/// How many records a journal has.
pub(crate) fn journal_length(ledger: &LedgerLane) -> usize
    ensures { result ≡ length ledger.now.journal }
{
    ledger.journal().len()
}
