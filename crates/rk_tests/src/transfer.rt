use crate::comparing::same;
use rk_transfer::{Handover, Role};
use rk_types::Range;

// The moves: a join that brings its place and a join that does not, and an own that comes in time and an own that
// comes too early.
#[derive(Clone, Copy)]
enum Move {
    Prepare,
    Close,
    Freeze,
    Grant,
    JoinOpen,
    Join,
    Rebuild,
    Carry,
    Own,
    OwnEarly,
    Release,
}

const OLD: Range = Range {
    table: 1,
    first: 0,
    last: 9,
};

const NEW: Range = Range {
    table: 2,
    first: 3,
    last: 4,
};

// Small letters are roles without their closing entry, and capital ones have it at place 3.
fn role(letter: u8) -> Role {
    match letter {
        b's' => Role::Serving,
        b'c' => Role::Closing,
        b'f' => Role::Frozen,
        b'w' => Role::Wanting { from: 7 },
        b'r' => Role::Receiving,
        b'j' => Role::Joining { entry: None },
        b'J' => Role::Joining { entry: Some(3) },
        b'b' => Role::Rebuilding {
            from: 7,
            entry: None,
        },
        b'B' => Role::Rebuilding {
            from: 7,
            entry: Some(3),
        },
        _ => Role::Absent,
    }
}

fn apply(handover: &mut Handover, step: Move, term: u64) -> bool {
    match step {
        Move::Prepare => handover.prepare(term, NEW, 7),
        Move::Close => handover.close(term),
        Move::Freeze => handover.freeze(term),
        Move::Grant => handover.grant(term, 8),
        Move::JoinOpen => handover.join(term, None),
        Move::Join => handover.join(term, Some(3)),
        Move::Rebuild => handover.rebuild(term, NEW, 7),
        Move::Carry => handover.carry(term, 3, 8),
        Move::Own => handover.own(term, 4),
        Move::OwnEarly => handover.own(term, 3),
        Move::Release => handover.release(term),
    }
}

// For each move the term at which it comes, the range and the counter after it, and the role after it for each role
// before it, a dot if the move does not apply. The term before it is 5.
#[test]
fn moves_by_the_table(rt: HostRuntime) {
    let roles = b"ascfwrjJbB";
    let rows: [(Move, u64, Range, u64, &[u8; 10]); 11] = [
        (Move::Prepare, 6, NEW, 1, b"wwwwwwwwww"),
        (Move::Close, 6, OLD, 1, b".c....cccc"),
        (Move::Freeze, 5, OLD, 1, b"..f......."),
        (Move::Grant, 5, OLD, 8, b"....r....."),
        (Move::JoinOpen, 5, OLD, 1, b".....j...."),
        (Move::Join, 5, OLD, 1, b".....JJ..."),
        (Move::Rebuild, 6, NEW, 1, b"bbbbbbbbbb"),
        (Move::Carry, 5, OLD, 8, b"........B."),
        (Move::Own, 5, OLD, 1, b".......s.s"),
        (Move::OwnEarly, 5, OLD, 1, b".........."),
        (Move::Release, 5, OLD, 1, b"...a......"),
    ];
    for (step, term, range, counter, afters) in rows {
        for (letter, after) in roles.iter().zip(afters.iter()) {
            let before = Handover {
                role: role(*letter),
                term: 5,
                range: OLD,
                counter: 1,
            };
            let moved = Handover {
                role: role(*after),
                term,
                range,
                counter,
            };
            let applies = *after != b'.';
            let mut handover = before;
            same(&rt, &apply(&mut handover, step, 11 - term), &false);
            same(&rt, &handover, &before);
            same(&rt, &apply(&mut handover, step, term), &applies);
            same(&rt, &handover, &if applies { moved } else { before });
        }
    }
}

#[test]
fn serves_in_three_roles(rt: HostRuntime) {
    for (letter, wanted) in b"ascfwrjJbB".iter().zip(b".s...sss..".iter()) {
        let handover = Handover {
            role: role(*letter),
            term: 1,
            range: OLD,
            counter: 1,
        };
        same(&rt, &handover.serves(), &(*wanted == b's'));
    }
}
