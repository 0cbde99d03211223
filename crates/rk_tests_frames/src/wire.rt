ghost use Rattle.std.specs.Prelude.{◌≡◌, IfOk};
ghost use Rattle.rk_message.specs.Frames.{IsLawfulMessage};

use crate::comparing::same;
use rk_message::{Body, Message, NoMessage, Stored, Wire};
use rk_types::{NoMemory, Node};
use std::alloc::Global;
use std::test::Fail;

// A message of a backup to master 3: so many bytes of a segment are kept. Its frame takes 23 bytes: 5 before the body, 10
// for the nodes, and 8.
fn stored(backup: u8) -> Message
    ensures { IsLawfulMessage result }
{
    let kept = Stored {
        segment: 2,
        length: 5,
    };
    Message {
        from: Node::Backup(backup),
        to: Node::Master(3),
        body: Body::Stored(kept),
    }
}

// A wire to which backups 1 and 2 sent such a message.
fn wire_of_two(alloc: Global) -> Result<Wire, NoMemory>
    ensures { IfOk result (λ wire. wire.sent ≡ 2) }
{
    let mut wire = Wire::new(alloc);
    wire.send(&stored(1))?;
    wire.send(&stored(2))?;
    Ok(wire)
}

// Whether message 2 is there, and how many messages with how many bytes.
fn shown(wire: &Wire) -> (bool, u64, u64) {
    (wire.message(2) == Ok(stored(2)), wire.count(), wire.bytes())
}

#[test]
fn hands_out_messages_again(rt: HostRuntime) -> Result<(), Fail> {
    let wire = wire_of_two(rt.alloc())?;
    same(&rt, &shown(&wire), &(true, 2, 46));
    same(&rt, &shown(&wire), &(true, 2, 46));
    Ok(())
}

#[test]
fn tells_receiver_and_kind(rt: HostRuntime) -> Result<(), Fail> {
    let wire = wire_of_two(rt.alloc())?;
    same(
        &rt,
        &(wire.address(2), wire.kind(2)),
        &(Ok(Node::Master(3)), Ok(6)),
    );
    let none = NoMessage(3);
    same(
        &rt,
        &(wire.address(3), wire.kind(3)),
        &(Err(none), Err(none)),
    );
    Ok(())
}

#[test]
fn forgets_one_of_two(rt: HostRuntime) -> Result<(), Fail> {
    let mut wire = wire_of_two(rt.alloc())?;
    same(&rt, &wire.forget(1), &Ok(()));
    same(&rt, &wire.forget(1), &Err(NoMessage(1)));
    same(&rt, &shown(&wire), &(true, 1, 23));
    let places = [wire.at(0), wire.at(1), wire.at(2), wire.oldest()];
    same(&rt, &places, &[None, Some(2), None, Some(2)]);
    Ok(())
}

#[test]
fn gives_no_number_twice(rt: HostRuntime) -> Result<(), Fail> {
    let mut wire = wire_of_two(rt.alloc())?;
    same(&rt, &(wire.forget(2), wire.forget(1)), &(Ok(()), Ok(())));
    same(&rt, &(shown(&wire), wire.oldest()), &((false, 0, 0), None));
    same(&rt, &(wire.send(&stored(3)), wire.sent()), &(Ok(3), 3));
    Ok(())
}
