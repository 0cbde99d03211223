ghost use Rattle.std.specs.Prelude.{◌≡◌, IfOk};
ghost use Rattle.rk_settle.specs.Topics.{is_of_call, is_of_log, is_on};
ghost use Rattle.rk_settle.specs.declared.topic.Topic.TheVariants as topics;

use rk_message::{Body, Frame, Kind};
use rk_types::NoMemory;

/// What an exchange is about: which messages are delivered in it. All others that come are forgotten.
#[derive(Clone, Copy)]
pub(crate) enum Topic {
    /// A client's call: where its key is, the request, the answer.
    Call,
    /// A log exchange: what a master's backups lack, and what comes of that.
    Log,
    /// The target of a tablet makes ready.
    Readiness(u32),
    /// The source of a tablet is told to close.
    Closing(u32),
    /// The source of a tablet reports what it hands over.
    Handing(u32),
    /// The target of a tablet is granted it.
    Granting(u32),
    /// The target of a tablet pulls the next batch.
    Pulls(u32),
    /// The target of a tablet asks for what it wants first.
    Wants(u32),
    /// The target of a tablet has all, and comes to own it.
    End(u32),
}

impl Topic {
    /// Whether a message is on the topic, by what it says. Of a call or a log its kind decides, and its frame is not read.
    #[tactic(auto, using(crate::proofs::ByKind::call_by_kind, crate::proofs::ByKind::log_by_kind))]
    pub(crate) fn has(self, frame: &Frame) -> Result<bool, NoMemory>
        ensures { IfOk result (λ on. on ≡ is_on self frame.now.body) }
    {
        match self {
            Topic::Call => Ok(is_of_call(frame.kind())),
            Topic::Log => Ok(is_of_log(frame.kind())),
            _ => self.has_read(frame),
        }
    }

    // Whether a message is on the topic, whose frame is read.
    fn has_read(self, frame: &Frame) -> Result<bool, NoMemory>
        ensures { IfOk result (λ on. on ≡ is_on self frame.now.body) }
    {
        let message = frame.message()?;
        Ok(self.has_body(&message.body))
    }

    // Whether what a message says is on the topic.
    #[tactic(auto, using(crate::proofs::ByKind::call_by_kind, crate::proofs::ByKind::log_by_kind))]
    fn has_body(self, body: &Body) -> bool
        ensures { result ≡ is_on self body.now }
    {
        match self {
            Topic::Call => is_of_call(body.kind()),
            Topic::Log => is_of_log(body.kind()),
            Topic::Readiness(tablet) => is_of_readiness(body, tablet),
            Topic::Closing(tablet) => is_of_closing(body, tablet),
            Topic::Handing(tablet) => is_of_handing(body, tablet),
            Topic::Granting(tablet) => is_of_granting(body, tablet),
            Topic::Pulls(tablet) => is_of_pulls(body, tablet),
            Topic::Wants(tablet) => is_of_wants(body, tablet),
            Topic::End(tablet) => is_of_end(body, tablet),
        }
    }
}

fn is_of_call(kind: Kind) -> bool
    ensures { result ≡ is_of_call kind }
{
    matches!(
        kind,
        Kind::Lookup | Kind::Located | Kind::Request | Kind::Reply
    )
}

fn is_of_log(kind: Kind) -> bool
    ensures { result ≡ is_of_log kind }
{
    matches!(kind, Kind::Append | Kind::Stored | Kind::Reply)
}

fn is_of_readiness(body: &Body, tablet: u32) -> bool
    ensures { result ≡ is_on (topics.Readiness tablet) body.now }
{
    match body {
        Body::Prepare(prepare) => prepare.tenure.tablet == tablet,
        Body::Ready(ready) => ready.tenure.tablet == tablet,
        _ => false,
    }
}

fn is_of_closing(body: &Body, tablet: u32) -> bool
    ensures { result ≡ is_on (topics.Closing tablet) body.now }
{
    match body {
        Body::Close(tenure) => tenure.tablet == tablet,
        _ => false,
    }
}

fn is_of_handing(body: &Body, tablet: u32) -> bool
    ensures { result ≡ is_on (topics.Handing tablet) body.now }
{
    match body {
        Body::Close(tenure) => tenure.tablet == tablet,
        Body::Transfer(transfer) => transfer.tenure.tablet == tablet,
        _ => false,
    }
}

fn is_of_granting(body: &Body, tablet: u32) -> bool
    ensures { result ≡ is_on (topics.Granting tablet) body.now }
{
    match body {
        Body::Grant(grant) => grant.tenure.tablet == tablet,
        _ => false,
    }
}

fn is_of_pulls(body: &Body, tablet: u32) -> bool
    ensures { result ≡ is_on (topics.Pulls tablet) body.now }
{
    match body {
        Body::Pull(pull) => pull.tenure.tablet == tablet,
        Body::Pulled(pulled) => pulled.tenure.tablet == tablet,
        _ => false,
    }
}

fn is_of_wants(body: &Body, tablet: u32) -> bool
    ensures { result ≡ is_on (topics.Wants tablet) body.now }
{
    match body {
        Body::Want(want) => want.tenure.tablet == tablet,
        Body::Got(got) => got.tenure.tablet == tablet,
        _ => false,
    }
}

fn is_of_end(body: &Body, tablet: u32) -> bool
    ensures { result ≡ is_on (topics.End tablet) body.now }
{
    match body {
        Body::Joined(tenure) | Body::Own(tenure) | Body::Release(tenure) => tenure.tablet == tablet,
        _ => false,
    }
}
