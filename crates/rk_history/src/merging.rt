// Journals merge into one history, the line that comes first at a time.
ghost use Rattle.std.specs.Prelude.{◌≡◌, ◌+◌, ◌<◌, ◌≤◌, ℕ, List, [], ◌∷◌, ◌++◌, length, IfOk, OnOk};
ghost use Rattle.rk_types.specs.declared.history.Placed.{Placed as Record};
ghost use Rattle.rk_model.specs.Merged.{is_kept as is_kept_lem, journal_of, lines_of, merged};
ghost use Rattle.rk_history.specs.First.{IsFirstOf};
ghost use Rattle.rk_history.specs.Journals.{AreRising, journals_of};

use rk_model::Line;
use rk_types::{NoMemory, Op, Placed};
use std::alloc::Global;

// The first record of a lane's journal, and those behind it.
#[derive(Clone, Copy)]
struct First<'a> {
    lane: usize,
    placed: &'a Placed,
    later: &'a [Placed],
}

/// All records of journals, of which the first is that of lane 0, in the order of stamp and lane, but for the reads that
/// no caller accepted. The stamps of each journal rise, and there are at most 256 journals. `NoMemory` may come in place
/// of the history.
///
/// Each record is copied once, and for each a look is taken at the first record that is left of each journal.
pub fn merge(alloc: Global, journals: &[&[Placed]]) -> Result<Vec<Line>, NoMemory>
    requires few { length journals.now ≤ 256 }
    requires rising { AreRising (journals_of journals.now) }
    ensures { IfOk result (λ history. history.items ≡ merged (journals_of journals.now)) }
{
    let mut history = Vec::new(alloc);
    let mut rest = lend_again(alloc, journals)?;
    'merge: while let Some(first) = first_of(rest.as_slice()) {
        rest[first.lane] = first.later;
        add_line(&mut history, first.lane as u8, first.placed)?;
    }
    Ok(history)
}

// The same journals, lent once more.
fn lend_again<'a>(alloc: Global, journals: &[&'a [Placed]]) -> Result<Vec<&'a [Placed]>, NoMemory>
    ensures { IfOk result (λ lent. journals_of lent.items ≡ journals_of journals.now) }
{
    let mut lent = Vec::new(alloc);
    for journal in journals {
        lent.push(*journal)?;
    }
    Ok(lent)
}

// The record that comes first of all that are left, none if none is left. A look at each journal.
fn first_of<'a>(rest: &[&'a [Placed]]) -> Option<First<'a>>
    ensures { IsFirstOf (journals_of rest.now) (length rest.now) result }
{
    let mut first = None;
    for (lane, journal) in rest.iter().enumerate() {
        first = earlier(first, lane, journal);
    }
    first
}

// The one of these that comes first: the first record of lanes below this one, and that of this lane's journal.
fn earlier<'a>(first: Option<First<'a>>, lane: usize, journal: &'a [Placed]) -> Option<First<'a>>
    ensures { (journals : List (List Record)) → journal_of journals lane ≡ journal.now
        → IsFirstOf journals lane first.entry → IsFirstOf journals (lane + 1) result }
{
    let Some((placed, later)) = journal.split_first() else {
        return first;
    };
    match first {
        Some(known) if known.placed.stamp <= placed.stamp => Some(known),
        _ => Some(First {
            lane,
            placed,
            later,
        }),
    }
}

// Puts a record of a lane at the end of a history, unless it is a read that no caller accepted.
fn add_line(history: &mut Vec<Line>, lane: u8, placed: &Placed) -> Result<(), NoMemory>
    ensures { OnOk result (history.new.items ≡ history.old.items ++ lines_of lane (placed.now ∷ [])) }
{
    if !is_kept(placed) {
        return Ok(());
    }
    let placed = placed.duplicate()?;
    history.push(Line { lane, placed })?;
    Ok(())
}

// Whether a record is in the history: a read that no caller accepted is not.
fn is_kept(placed: &Placed) -> bool
    ensures { result ≡ is_kept_lem placed.now }
{
    placed.accepted || !matches!(placed.call.op, Op::Get)
}
