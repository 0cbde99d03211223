// What clients say of what they took in the lanes of a cluster.
ghost use Rattle.std.specs.Prelude.{◌≡◌, ◌≢◌, Option as Maybe, IfErr, IfOk, Some};
ghost use Rattle.std.specs.Option.{option_map, option_to_list};
ghost use Rattle.rk_types.specs.declared.call.Call.{Call};
ghost use Rattle.rk_cluster.specs.Acted.{last_receipt, reply_of, said_by, said_of};
ghost use Rattle.rk_cluster.specs.Saying.{IsSaidOf, asked_of};
ghost use Rattle.rk_cluster.specs.Steps.{failure_of};

use crate::error::ClusterError;
use crate::steps::heard;
use rk_session::Session;
use rk_types::{NoMemory, Receipt, Said};
use rk_world::{Seen, StepError, Taken};

/// The client and the seq of a call.
#[derive(Clone, Copy)]
pub(crate) struct Asked {
    pub(crate) client: u32,
    pub(crate) seq: u64,
}

/// The client and the seq of the call that a session has outstanding, if it has one.
pub(crate) fn asked_by(session: &Session) -> Option<Asked>
    ensures { result ≡ option_map asked_of session.now.outstanding }
{
    let call = session.outstanding()?;
    Some(Asked {
        client: call.client,
        seq: call.seq,
    })
}

/// What a client says of a lane's answer, if this was its outstanding call before; `session` is its session after it. An
/// answer that says that the lane is worn ends in an error, and so does want of memory.
pub(crate) fn tell(
    asked: Option<Asked>,
    session: &Session,
    answer: Result<Seen, StepError>,
) -> Result<Option<Said>, ClusterError>
    ensures ok { IfOk result (λ said. IsSaidOf asked session.now.receipts answer (option_to_list said)) }
    ensures err { IfErr result (λ e. e ≢ ClusterError.NoMemory → failure_of answer ≡ Some e) }
{
    heard(&answer)?;
    let Ok(seen) = answer else {
        return Ok(None);
    };
    let said = say(asked, session.receipts(), seen.taken)?;
    Ok(said)
}

// What a client says of what it took, if it had a call and took something.
fn say(
    asked: Option<Asked>,
    receipts: &[Receipt],
    taken: Option<Taken>,
) -> Result<Option<Said>, NoMemory>
    ensures { IfOk result (λ said. (call : Maybe Call) → option_map asked_of call ≡ asked
        → option_to_list said ≡ said_by call receipts.now taken) }
{
    let (Some(asked), Some(taken)) = (asked, taken) else {
        return Ok(None);
    };
    say_of(asked, receipts, taken)
}

// What a client says of what it took for its call.
fn say_of(asked: Asked, receipts: &[Receipt], taken: Taken) -> Result<Option<Said>, NoMemory>
    ensures { IfOk result (λ said. (call : Call) → asked_of call ≡ asked → option_to_list said ≡ said_of call receipts.now taken) }
{
    match taken {
        Taken::Done => reply(asked.client, receipts),
        Taken::Moved(tablet) => Ok(Some(Said::Moved(asked.client, asked.seq, tablet))),
        Taken::NotYet(key) => Ok(Some(Said::NotYet(asked.client, asked.seq, key))),
        Taken::Ignored | Taken::Located => Ok(None),
    }
}

// A client says the outcome of its last receipt, if it has one.
fn reply(client: u32, receipts: &[Receipt]) -> Result<Option<Said>, NoMemory>
    ensures { IfOk result (λ said. option_to_list said ≡ reply_of client (last_receipt receipts.now)) }
{
    let Some(receipt) = receipts.last() else {
        return Ok(None);
    };
    let outcome = receipt.outcome.duplicate()?;
    Ok(Some(Said::Reply(client, receipt.call.seq, outcome)))
}
