ghost use Rattle.std.specs.Prelude.{IfOk};
ghost use Rattle.rk_message.specs.Frames.{IsLawfulMessage};

use crate::comparing::{same, same_in};
use frames::{
    ABSENT, APPEND, CLOSE, COND_PUT, COPY, DELETE, DELETED, GOT, GRANT, JOINED, LOCATED, LOOKUP,
    MISMATCH, MISSING, MOVED, NO_OWNER, NOT_YET, OWN, PREPARE, PULL, PULLED, PUT, READ, READY,
    REBUILD, REBUILT, RELEASE, REPLY, REQUEST, STORED, TRANSFER, WANT, WITH_CARRIED, WITH_JOINED,
    WITH_LONG_OBJECT, WITH_REFUSED, WRITTEN,
};
use rk_entry::{
    BAD_BODY_LENGTH, BAD_CHOICE, BAD_KEY, BAD_KIND, BAD_NUMBER, BAD_VALUE, DecodeError,
};
use rk_message::{Kind, Message, decode_frame, encode_frame, frame_len};
use rk_tests::items::spoilt;
use rk_types::NoMemory;
use std::alloc::Global;
use std::process::Abort;
use std::test::Fail;

mod built;
mod frames;
mod vectors;

// One of each kind, and further ones.
const FRAMES: &[&[u8]] = &[
    REQUEST,
    REPLY,
    LOOKUP,
    LOCATED,
    APPEND,
    STORED,
    PREPARE,
    READY,
    CLOSE,
    TRANSFER,
    GRANT,
    PULL,
    PULLED,
    WANT,
    GOT,
    JOINED,
    OWN,
    RELEASE,
    REBUILD,
    READ,
    COPY,
    REBUILT,
    PUT,
    COND_PUT,
    DELETE,
    ABSENT,
    WRITTEN,
    DELETED,
    MISMATCH,
    MOVED,
    NOT_YET,
    NO_OWNER,
    MISSING,
    WITH_REFUSED,
    WITH_CARRIED,
    WITH_JOINED,
];

#[test]
fn numbers_the_kinds(rt: HostRuntime) {
    same(&rt, &Kind::Request.number(), &1);
    for (number, kind) in [(0, None), (22, Some(Kind::Rebuilt)), (23, None)] {
        same(&rt, &Kind::numbered(number), &kind);
    }
}

// The message that the frame spells, whatever follows it.
fn read<R: Abort + AllocGlobal>(rt: &R, frame: &[u8]) -> Result<Message, Fail>
    ensures { IfOk result IsLawfulMessage }
{
    let mut bytes = Vec::from_slice(rt.alloc(), frame)?;
    bytes.push(0)?;
    let (message, count) = decode_frame(rt.alloc(), bytes.as_slice())?;
    same(rt, &count, &frame.len());
    Ok(message)
}

// Whether the frame is that of the message.
fn check_written<R: Abort + AllocGlobal>(
    rt: &R,
    message: &Message,
    frame: &[u8],
) -> Result<(), Fail>
    requires { IsLawfulMessage message.now }
{
    same(rt, &(frame_len(message) as usize), &frame.len());
    let mut bytes = Vec::new(rt.alloc());
    encode_frame(message, &mut bytes)?;
    same(rt, &bytes.as_slice(), &frame);
    Ok(())
}

fn check_twin<R: Abort>(rt: &R, message: &Message) -> Result<(), NoMemory> {
    same(rt, &message.duplicate()?, message);
    Ok(())
}

// Whether the frame is read and written again, and a duplicate of the message is equal.
fn check_whole<R: Abort + AllocGlobal>(rt: &R, frame: &[u8]) -> Result<(), Fail> {
    let message = read(rt, frame)?;
    check_twin(rt, &message)?;
    check_written(rt, &message, frame)
}

#[test]
fn reads_and_writes_frames(rt: HostRuntime) -> Result<(), Fail> {
    for frame in FRAMES {
        check_whole(&rt, frame)?;
    }
    Ok(())
}

#[test]
fn a_frame_is_cut_wherever_it_ends_early(rt: HostRuntime) {
    for frame in FRAMES {
        for end in 0..frame.len() {
            let found = decode_frame(rt.alloc(), &frame[..end]).err();
            same(&rt, &found, &Some(DecodeError::Cut));
        }
    }
}

// The fault of a frame some bytes of which are spoilt, and which is cut at a place.
fn fault(
    alloc: Global,
    frame: &[u8],
    rows: &[(usize, u8)],
    end: usize,
) -> Result<Option<DecodeError>, Fail> {
    let mut bytes = spoilt(alloc, frame, rows)?;
    bytes.truncate(end);
    Ok(decode_frame(alloc, bytes.as_slice()).err())
}

// Faults that were worked out apart from this code: frames, and of each the place of one byte, what it is turned into, and
// the fault that is found then.
const FAULTS: &[(&[&[u8]], &[(usize, u8, u8)])] = &[
    // No kind, no body, no sender and no receiver.
    (
        FRAMES,
        &[
            (0, 0x00, BAD_KIND),
            (4, 0x00, BAD_BODY_LENGTH),
            (5, 0x00, BAD_NUMBER),
            (10, 0x00, BAD_NUMBER),
        ],
    ),
    // A master or a backup has a number of one byte as sender and as receiver, and a coordinator none.
    (
        &[
            REPLY, APPEND, STORED, READY, TRANSFER, PULL, PULLED, WANT, GOT, JOINED, READ, COPY,
            REBUILT,
        ],
        &[(6, 0x01, BAD_NUMBER)],
    ),
    (
        &[LOCATED, PREPARE, CLOSE, GRANT, OWN, RELEASE, REBUILD],
        &[(9, 0x01, BAD_NUMBER)],
    ),
    (
        &[
            REQUEST, APPEND, STORED, PREPARE, CLOSE, GRANT, PULL, PULLED, WANT, GOT, OWN, RELEASE,
            REBUILD, READ, COPY,
        ],
        &[(11, 0x01, BAD_NUMBER)],
    ),
    (
        &[LOOKUP, READY, TRANSFER, JOINED, REBUILT],
        &[(14, 0x01, BAD_NUMBER)],
    ),
    // Calls.
    (&[REQUEST], &[(35, 0x00, BAD_CHOICE)]),
    (
        &[REQUEST, DELETE],
        &[
            (44, 0x05, BAD_BODY_LENGTH),
            (44, 0x00, BAD_KEY),
            (45, 0x00, BAD_KEY),
        ],
    ),
    (
        &[PUT],
        &[
            (35, 0x01, BAD_BODY_LENGTH),
            (44, 0x00, BAD_KEY),
            (45, 0x00, BAD_KEY),
            (46, 0x01, BAD_VALUE),
            (49, 0x00, BAD_BODY_LENGTH),
            (50, 0x00, BAD_VALUE),
        ],
    ),
    (
        &[COND_PUT],
        &[
            (44, 0x00, BAD_KEY),
            (45, 0x00, BAD_KEY),
            (54, 0x01, BAD_VALUE),
            (57, 0x00, BAD_BODY_LENGTH),
            (58, 0x00, BAD_VALUE),
        ],
    ),
    (
        &[REPLY],
        &[
            (39, 0x05, BAD_BODY_LENGTH),
            (39, 0x00, BAD_CHOICE),
            (48, 0x01, BAD_VALUE),
            (51, 0x00, BAD_BODY_LENGTH),
            (52, 0x00, BAD_VALUE),
        ],
    ),
    (&[MOVED], &[(39, 0x07, BAD_KEY)]),
    (
        &[NOT_YET],
        &[
            (40, 0x05, BAD_BODY_LENGTH),
            (40, 0x00, BAD_KEY),
            (41, 0x00, BAD_KEY),
        ],
    ),
    // The ends of calls: how many, and of each its client, its seq and how it ended.
    (
        &[TRANSFER, REBUILT],
        &[
            (38, 0x00, BAD_BODY_LENGTH),
            (42, 0x00, BAD_NUMBER),
            (50, 0x00, BAD_NUMBER),
            (51, 0x00, BAD_CHOICE),
            (59, 0x00, BAD_NUMBER),
            (63, 0x00, BAD_NUMBER),
            (71, 0x00, BAD_NUMBER),
            (72, 0x01, BAD_NUMBER),
            (72, 0x00, BAD_CHOICE),
            (80, 0x01, BAD_NUMBER),
        ],
    ),
    (
        &[GRANT],
        &[
            (39, 0x00, BAD_BODY_LENGTH),
            (43, 0x00, BAD_NUMBER),
            (51, 0x00, BAD_NUMBER),
            (52, 0x00, BAD_CHOICE),
            (60, 0x00, BAD_NUMBER),
            (64, 0x00, BAD_NUMBER),
            (72, 0x00, BAD_NUMBER),
            (73, 0x01, BAD_NUMBER),
            (73, 0x00, BAD_CHOICE),
            (81, 0x01, BAD_NUMBER),
        ],
    ),
    // Pulls, whose entries are read like those of a log.
    (
        &[PULLED],
        &[
            (42, 0x00, BAD_BODY_LENGTH),
            (43, 0x00, BAD_CHOICE),
            (47, 0x00, BAD_CHOICE),
            (55, 0x00, BAD_CHOICE),
            (82, 0x00, BAD_CHOICE),
            (117, 0x00, BAD_CHOICE),
        ],
    ),
    (&[WANT], &[(30, 0x00, BAD_BODY_LENGTH)]),
    (
        &[GOT],
        &[
            (30, 0x00, BAD_BODY_LENGTH),
            (30, 0x02, BAD_CHOICE),
            (42, 0x00, BAD_BODY_LENGTH),
            (43, 0x00, BAD_CHOICE),
            (47, 0x00, BAD_CHOICE),
            (55, 0x00, BAD_CHOICE),
            (76, 0x00, BAD_CHOICE),
            (77, 0x00, BAD_CHOICE),
            (82, 0x00, BAD_CHOICE),
        ],
    ),
    // Bytes of segments, and lineages.
    (&[APPEND], &[(26, 0x00, BAD_BODY_LENGTH)]),
    (
        &[COPY],
        &[(32, 0x00, BAD_CHOICE), (36, 0x00, BAD_BODY_LENGTH)],
    ),
    (&[REBUILD], &[(54, 0x00, BAD_BODY_LENGTH)]),
];

// Whether each of the frames has the faults of these rows.
fn check_faults<R: Abort + AllocGlobal>(
    rt: &R,
    frames: &[&[u8]],
    rows: &[(usize, u8, u8)],
) -> Result<(), Fail> {
    for frame in frames {
        for (place, byte, wanted) in rows {
            let found = fault(rt.alloc(), frame, &[(*place, *byte)], frame.len())?;
            same_in(rt, *place, &found, &Some(DecodeError::Bad(*wanted)));
        }
    }
    Ok(())
}

#[test]
fn names_the_first_fault(rt: HostRuntime) -> Result<(), Fail> {
    for (frames, rows) in FAULTS {
        check_faults(&rt, frames, rows)?;
    }
    Ok(())
}

const CUT: DecodeError = DecodeError::Cut;

const OTHER_LENGTH: DecodeError = DecodeError::Bad(BAD_BODY_LENGTH);

const UNLAWFUL_ENTRY: DecodeError = DecodeError::Bad(BAD_CHOICE);

// Some bytes of a frame that are spoilt, the place where it is cut, and its first fault, which was worked out apart from
// this code.
type Rows = &'static [(&'static [(usize, u8)], usize, DecodeError)];

// The lengths of bodies that no entries, one of the shortest, and none between have; then the last length of the last
// entry, before and after it is read.
const LENGTHS: &[(&[u8], Rows)] = &[
    (
        PULLED,
        &[
            (&[(4, 0x26)], 5, CUT),
            (&[(4, 0x27)], 5, OTHER_LENGTH),
            (&[(4, 0x48)], 5, OTHER_LENGTH),
            (&[(4, 0x49)], 5, CUT),
            (&[(4, 0x71)], 117, CUT),
            (&[(4, 0x72)], 116, CUT),
            (&[(4, 0x72)], 117, OTHER_LENGTH),
            (&[(4, 0x70)], 117, OTHER_LENGTH),
            (&[(4, 0x72), (117, 0x20)], 118, OTHER_LENGTH),
            (&[(4, 0x72), (116, 0x00)], 117, UNLAWFUL_ENTRY),
            (&[(4, 0x72), (76, 0x00)], 117, UNLAWFUL_ENTRY),
        ],
    ),
    (
        GOT,
        &[
            (&[(4, 0x1e)], 5, CUT),
            (&[(4, 0x1f)], 5, OTHER_LENGTH),
            (&[(4, 0x26)], 5, CUT),
            (&[(4, 0x3e)], 5, CUT),
            (&[(4, 0x3f)], 5, OTHER_LENGTH),
            (&[(4, 0x40)], 5, OTHER_LENGTH),
            (&[(4, 0x41)], 5, CUT),
            (&[(4, 0x4f)], 81, CUT),
            (&[(4, 0x4f)], 82, OTHER_LENGTH),
            (&[(4, 0x4f), (82, 0x20)], 83, OTHER_LENGTH),
            (&[(4, 0x4f), (81, 0x02)], 82, UNLAWFUL_ENTRY),
        ],
    ),
    (
        WITH_REFUSED,
        &[(&[(4, 0x4b)], 77, CUT), (&[(4, 0x4b)], 78, OTHER_LENGTH)],
    ),
    (
        WITH_CARRIED,
        &[
            (&[(4, 0x6b)], 89, CUT),
            (&[(4, 0x6b)], 90, OTHER_LENGTH),
            (&[], 90, CUT),
        ],
    ),
    (
        WITH_JOINED,
        &[
            (&[(4, 0x54)], 83, CUT),
            (&[(4, 0x54)], 84, OTHER_LENGTH),
            (&[], 84, CUT),
        ],
    ),
    (
        WITH_LONG_OBJECT,
        &[
            (&[], 82, CUT),
            (&[(4, 0x50)], 81, CUT),
            (&[(4, 0x50)], 82, OTHER_LENGTH),
            (&[(4, 0x50), (81, 0x00)], 82, UNLAWFUL_ENTRY),
        ],
    ),
];

// Whether each row of the frame has its fault.
fn check_lengths<R: Abort + AllocGlobal>(rt: &R, frame: &[u8], rows: Rows) -> Result<(), Fail> {
    for (row, (spoilt, end, wanted)) in rows.iter().enumerate() {
        let found = fault(rt.alloc(), frame, spoilt, *end)?;
        same_in(rt, row, &found, &Some(*wanted));
    }
    Ok(())
}

#[test]
fn compares_a_length_as_soon_as_it_is_told(rt: HostRuntime) -> Result<(), Fail> {
    for (frame, rows) in LENGTHS {
        check_lengths(&rt, frame, rows)?;
    }
    Ok(())
}
