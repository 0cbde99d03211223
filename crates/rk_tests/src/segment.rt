use crate::comparing::same;
use rk_segment::{Full, Segment};
use std::alloc::Global;
use std::test::Fail;

// Segment 7 with so many bytes.
fn filled(alloc: Global, count: u32) -> Result<Segment, Fail> {
    let bytes = vec![in alloc; b'x'; count as usize]?;
    let mut segment = Segment::new(alloc, 7)?;
    segment.append(bytes.as_slice())?;
    Ok(segment)
}

// A segment is full at 131,072 bytes, and one byte more is refused.
#[test]
fn fills_a_segment(rt: HostRuntime) -> Result<(), Fail> {
    let mut segment = filled(rt.alloc(), 131_071)?;
    let full = Full {
        length: 131_072,
        more: 1,
    };
    same(&rt, &segment.append(b"x"), &Ok(()));
    same(&rt, &segment.append(b""), &Ok(()));
    same(&rt, &segment.append(b"x"), &Err(full));
    same(&rt, &(segment.number(), segment.length()), &(7, 131_072));
    Ok(())
}

#[test]
fn a_refusal_changes_nothing(rt: HostRuntime) -> Result<(), Fail> {
    let mut segment = filled(rt.alloc(), 131_070)?;
    let full = Full {
        length: 131_070,
        more: 3,
    };
    same(&rt, &segment.append(b"xyz"), &Err(full));
    same(&rt, &segment.bytes().len(), &131_070);
    Ok(())
}
