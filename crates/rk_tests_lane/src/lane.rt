ghost use Rattle.std.specs.Prelude.{◌≡◌, IfOk, length};
ghost use Rattle.rk_world.specs.Premises.{MayAct};
ghost use Rattle.rk_lane.specs.Events.{MayComeTo};

use crate::comparing::same;
use rk_lane::Lane;
use rk_message::{Body, Message, Reply};
use rk_outside::MemoryReplica;
use rk_session::Session;
use rk_tests::items::WHOLE;
use rk_types::{Answer, Key, NoMemory, Node, Op, Outcome, hash, lane_of};
use rk_world::{Event, StepError};
use std::alloc::Global;
use std::process::Abort;
use std::test::Fail;

// A lane that has the key "a", with two masters and one backup.
#[derive(Drop)]
struct Pair<'a> {
    lane: Lane<MemoryReplica<'a>>,
    ghost masters: { lane.masters ≡ 2 },
}

// The number of the first message that an event sends, 0 if there is none, and how many it sends.
type Sent = (u64, u64);

// One replica.
fn replicas<'a>(alloc: Global) -> Result<Vec<MemoryReplica<'a>>, NoMemory>
    ensures { IfOk result (λ replicas. length replicas.items ≡ 1) }
{
    let mut replicas = Vec::with_capacity(alloc, 1)?;
    replicas.push_reserved(MemoryReplica::new(alloc));
    Ok(replicas)
}

impl<'a> Pair<'a> {
    // Nothing was added.
    fn empty(alloc: Global) -> Result<Pair<'a>, NoMemory> {
        let replicas = replicas(alloc)?;
        let lane = Lane::new(alloc, lane_of(hash(b"a")), 2, replicas)?;
        Ok(Pair { lane })
    }

    // Master 1 owns all of a table, and client 7 was added.
    fn new(alloc: Global) -> Result<Pair<'a>, Fail> {
        let mut pair = Pair::empty(alloc)?;
        pair.add()?;
        Ok(pair)
    }

    // An event happens. Nothing is said of what it changes: no test needs that, and each call would be proved with it.
    fn step(&mut self, event: Event) -> Result<Sent, StepError>
        requires { MayComeTo self.old.lane event }
    {
        let seen = self.lane.step(event)?;
        Ok((seen.first, seen.sent))
    }

    // The tablet and the client are added.
    fn add(&mut self) -> Result<(), StepError> {
        self.step(Event::AddTablet {
            tablet: 1,
            range: WHOLE,
            master: 1,
        })?;
        self.step(Event::AddClient(7))?;
        Ok(())
    }

    // The client takes its turn.
    fn ask(&mut self, session: &mut Session) -> Result<Sent, StepError>
        requires { MayAct 2 session.old }
        ensures { MayAct 2 session.new }
    {
        let seen = self.lane.ask(session)?;
        Ok((seen.first, seen.sent))
    }
}

// The session of client 7, whose first call was answered with this stamp, and which asks its second one.
fn client_that_saw(alloc: Global, stamp: u64) -> Result<Session, Fail>
    ensures { IfOk result (MayAct 2) }
{
    let key = Key::new(alloc, b"a")?;
    let mut session = Session::new(alloc, 7);
    session.ask(1, key.duplicate()?, Op::Get)?;
    session.accept(Message {
        from: Node::Master(1),
        to: Node::Client(7),
        body: Body::Reply(Reply {
            seq: 1,
            stamp,
            place: 0,
            answer: Answer::Done(Outcome::Absent),
        }),
    });
    session.ask(1, key, Op::Get)?;
    Ok(session)
}

// What becomes of the turn of a client that has seen this stamp.
fn turn_after(alloc: Global, stamp: u64) -> Result<Result<Sent, StepError>, Fail> {
    let mut session = client_that_saw(alloc, stamp)?;
    let mut pair = Pair::new(alloc)?;
    Ok(pair.ask(&mut session))
}

#[test]
fn a_client_that_has_seen_2_to_the_48_takes_no_turn(rt: HostRuntime) -> Result<(), Fail> {
    let refused = turn_after(rt.alloc(), 281_474_976_710_656)?;
    same(&rt, &refused, &Err(StepError::Worn(281_474_976_710_656)));
    Ok(())
}

#[test]
fn a_client_that_has_seen_one_less_asks_where_its_key_is(rt: HostRuntime) -> Result<(), Fail> {
    let (_, sent) = turn_after(rt.alloc(), 281_474_976_710_655)??;
    same(&rt, &sent, &1);
    Ok(())
}
