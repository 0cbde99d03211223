// How clients take their turns in a lane, and their answers.
ghost use Rattle.std.specs.Prelude.{◌≡◌, ◌≢◌, [], None, Err, IfOk, IfErr, IfSome, OnErr};
ghost use Rattle.rk_types.specs.NumberMap.{get};
ghost use Rattle.rk_world.specs.Calls as calls;
ghost use Rattle.rk_world.specs.Refusals.{accept_refusal, ask_refusal};
ghost use Rattle.rk_lane.specs.Events.{IsArrivalIn};
ghost use Rattle.rk_lane.specs.LaneState.{IsSameLane, world_with};
ghost use Rattle.rk_lane.specs.Visits.{IsRefusedFor, IsVisitOf, MayActIn, MayHaveTurned};

use crate::lane::Lane;
use crate::messages::Arrival;
use crate::visiting::{accept, ask, fits, is_asked_here, take};
use rk_outside::Replica;
use rk_session::Session;
use rk_world::{Seen, StepError};

impl<R: Replica + Drop> Lane<R> {
    /// A client takes its turn here: what it sends for its outstanding call is put on the wire, and the call is noted as
    /// asked. A session that does not fit changes nothing. After an error the lane is as it was, and so is the session; but
    /// after `NoMemory` the session may have taken its turn. A spent lane answers `NoMemory`. A few searches, and the time to
    /// copy the call and the request.
    pub fn ask(&mut self, session: &mut Session) -> Result<Seen, StepError>
        requires { MayActIn self.old session.old }
        ensures ok { IfOk result (λ seen. IsVisitOf (λ w. calls.ask w session.old) self.old self.new session.new seen) }
        ensures refused { IfErr result (λ e. e ≢ StepError.NoMemory → IsRefusedFor (λ w. ask_refusal w session.old) self.old e) }
        ensures kept { OnErr result (self.new ≡ self.old) }
        ensures session { IfErr result (λ e. e ≢ StepError.NoMemory → session.new ≡ session.old) }
        ensures turned { OnErr result (MayHaveTurned session.old session.new) }
        ensures acts { MayActIn self.new session.new }
        ensures lane { IsSameLane self.old self.new }
        ensures spent { self.old.running ≡ None → result ≡ Err StepError.NoMemory }
    {
        if self.spent {
            return Err(StepError::NoMemory);
        }
        ask(&mut self.parts, session)
    }

    /// A client takes the message of a number: what [`Lane::take`] makes of it. `NoMessage` comes if it was never sent or is
    /// forgotten. After an error, `NoMemory` too, lane and session are as they were. A spent lane answers `NoMemory`. A search for
    /// the message, the time to read it, and a few searches more.
    pub fn accept(&mut self, number: u64, session: &mut Session) -> Result<Seen, StepError>
        requires { MayActIn self.old session.old }
        ensures ok { IfOk result (λ seen. IsVisitOf (λ w. calls.accept w number session.old) self.old self.new session.new seen) }
        ensures refused { IfErr result (λ e. e ≢ StepError.NoMemory
            → IsRefusedFor (λ w. accept_refusal w number session.old.client (get w.wire.messages number)) self.old e) }
        ensures kept { OnErr result (self.new ≡ self.old) }
        ensures session { OnErr result (session.new ≡ session.old) }
        ensures acts { MayActIn self.new session.new }
        ensures lane { IsSameLane self.old self.new }
        ensures spent { self.old.running ≡ None → result ≡ Err StepError.NoMemory }
    {
        if self.spent {
            return Err(StepError::NoMemory);
        }
        accept(&mut self.parts, number, session)
    }

    /// A client takes a message that was looked up on the wire of the lane. A client whose call was not asked here ignores it;
    /// if the message answers its call, the record is accepted. `Address` comes if the message is for another node, and
    /// `Stranger` if the client was not added; a spent lane answers `NoMemory`. After an error lane and session are as they
    /// were. A few searches, and none for the message.
    pub fn take(&mut self, arrival: Arrival, session: &mut Session) -> Result<Seen, StepError>
        requires arrives { IsArrivalIn self.old arrival }
        requires acts { MayActIn self.old session.old }
        ensures ok { IfOk result (λ seen. IsVisitOf (λ w. calls.accept w arrival.number session.old) self.old self.new session.new seen) }
        ensures refused { IfErr result (λ e. e ≢ StepError.NoMemory
            → IsRefusedFor (λ w. accept_refusal w arrival.number session.old.client (get w.wire.messages arrival.number)) self.old e) }
        ensures kept { OnErr result (self.new ≡ self.old) }
        ensures session { OnErr result (session.new ≡ session.old) }
        ensures acts { MayActIn self.new session.new }
        ensures lane { IsSameLane self.old self.new }
        ensures spent { self.old.running ≡ None → result ≡ Err StepError.NoMemory }
    {
        if self.spent {
            return Err(StepError::NoMemory);
        }
        take(&mut self.parts, arrival, session)
    }

    /// Whether the outstanding call of a session was asked in a lane that is not spent. A few searches.
    pub fn asked_here(&self, session: &Session) -> bool
        ensures { IfSome self.now.running (λ running. result ≡ calls.is_asked_here (world_with self.now running []) session.now) }
    {
        is_asked_here(&self.parts, session)
    }

    /// Whether a session fits a lane that is not spent: its client was added, and its outstanding call was asked here, or
    /// its key lies here and the call comes next. A few searches.
    pub fn fits(&self, session: &Session) -> bool
        ensures { IfSome self.now.running (λ running. result ≡ calls.fits (world_with self.now running []) session.now) }
    {
        self.parts.ledger.is_added(session.client()) && fits(&self.parts, session)
    }
}
