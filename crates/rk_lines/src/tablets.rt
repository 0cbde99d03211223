// Where tablets are, in lines.
ghost use Rattle.std.specs.Prelude.{◌≡◌, ◌++◌, OnOk, codes, decimal, map};
ghost use Rattle.std.specs.List.{list_all};
ghost use Rattle.rk_lines.specs.Tablets.{is_like as is_like_lem, lane_line, lane_lines, state_text, tablet_lines, whole_line};

use crate::words::push_numbered;
use rk_tablet_map::Phase;
use rk_types::NoMemory;

/// Adds where a tablet is, by its phases in the lanes, of which the first is that of lane 0: one line if they are shown
/// alike, and else a line for each lane. Places of logs are not shown. Without phases there is no line. After `NoMemory`
/// a part of the lines may have been written.
pub fn push_tablet(text: &mut Vec<u8>, tablet: u32, phases: &[&Phase]) -> Result<(), NoMemory>
    ensures { OnOk result (text.new.items ≡ text.old.items ++ tablet_lines tablet (map (λ phase. phase.now) phases.now)) }
{
    let [first, others @ ..] = phases else {
        return Ok(());
    };
    if are_like(first, others) {
        return push_whole(text, tablet, first);
    }
    push_lanes(text, tablet, phases)
}

// Whether all others are shown like the first.
fn are_like(first: &Phase, others: &[&Phase]) -> bool
    ensures { result ≡ list_all (is_like_lem first.now) (map (λ other. other.now) others.now) }
{
    others.iter().all(|other| is_like(first, other))
}

// Whether two phases are shown alike.
fn is_like(a: &Phase, b: &Phase) -> bool
    ensures { result ≡ is_like_lem a.now b.now }
{
    match (a, b) {
        (Phase::Owned { master: a, .. }, Phase::Owned { master: b, .. }) => a == b,
        (
            Phase::Opening {
                source: a,
                target: to_a,
                ..
            },
            Phase::Opening {
                source: b,
                target: to_b,
                ..
            },
        ) => (*a, *to_a) == (*b, *to_b),
        (
            Phase::Moving {
                source: a,
                target: to_a,
                ..
            },
            Phase::Moving {
                source: b,
                target: to_b,
                ..
            },
        ) => (*a, *to_a) == (*b, *to_b),
        (Phase::Rebuilding { to: a, .. }, Phase::Rebuilding { to: b, .. }) => a == b,
        _ => false,
    }
}

// Adds the line of a tablet that is the same in all lanes.
fn push_whole(text: &mut Vec<u8>, tablet: u32, phase: &Phase) -> Result<(), NoMemory>
    ensures { OnOk result (text.new.items ≡ text.old.items ++ whole_line tablet phase.now) }
{
    push_numbered(text, b"tablet ", u64::from(tablet))?;
    text.push(b' ')?;
    push_state(text, phase)?;
    text.push(b'\n')?;
    Ok(())
}

// Adds the lines of a tablet lane by lane.
fn push_lanes(text: &mut Vec<u8>, tablet: u32, phases: &[&Phase]) -> Result<(), NoMemory>
    ensures { OnOk result (text.new.items ≡ text.old.items ++ lane_lines tablet 0 (map (λ phase. phase.now) phases.now)) }
{
    for (lane, phase) in phases.iter().enumerate() {
        push_lane(text, tablet, lane as u64, phase)?;
    }
    Ok(())
}

// Adds the line of a tablet in one lane.
fn push_lane(text: &mut Vec<u8>, tablet: u32, lane: u64, phase: &Phase) -> Result<(), NoMemory>
    ensures { OnOk result (text.new.items ≡ text.old.items ++ lane_line tablet lane phase.now) }
{
    push_numbered(text, b"tablet ", u64::from(tablet))?;
    push_numbered(text, b" lane ", lane)?;
    text.push(b' ')?;
    push_state(text, phase)?;
    text.push(b'\n')?;
    Ok(())
}

// Adds the masters of a phase.
fn push_state(text: &mut Vec<u8>, phase: &Phase) -> Result<(), NoMemory>
    ensures { OnOk result (text.new.items ≡ text.old.items ++ state_text phase.now) }
{
    match phase {
        Phase::Owned { master, .. } => push_numbered(text, b"owned ", u64::from(*master)),
        Phase::Opening { source, target, .. } => push_pair(text, b"opening ", *source, *target),
        Phase::Moving { source, target, .. } => push_pair(text, b"moving ", *source, *target),
        Phase::Rebuilding { to, .. } => push_numbered(text, b"rebuilding ", u64::from(*to)),
    }
}

// Adds some words and two masters.
fn push_pair(text: &mut Vec<u8>, words: &[u8], source: u8, target: u8) -> Result<(), NoMemory>
    ensures { OnOk result (text.new.items ≡ text.old.items ++ (words.now ++ decimal source ++ codes " " ++ decimal target)) }
{
    push_numbered(text, words, u64::from(source))?;
    push_numbered(text, b" ", u64::from(target))
}
