// Receipts held against the journals.
ghost use Rattle.std.specs.Prelude.{◌≡◌, slice_get, IfErr, OnOk, All};
ghost use Rattle.std.specs.Bool.{Decides};
ghost use Rattle.rk_model.specs.Ordered.{IsRecorded};
ghost use Rattle.rk_model.specs.Merged.{journal_of};
ghost use Rattle.std.specs.Option.{option_copied};
ghost use Rattle.rk_history.specs.Audit.{IsFirstWrong, told_record};
ghost use Rattle.rk_history.specs.Journals.{journals_of};

use rk_types::{Placed, Receipt};
use thiserror::Error;

/// A receipt that the journals do not bear out: which one, counted from 0, and the lane and the place that it names.
#[derive(Clone, Copy, Debug, PartialEq, Eq, Error)]
#[error("receipt {index} is not that of the record at place {place} of lane {lane}")]
pub struct Disagree {
    pub index: usize,
    pub lane: u8,
    pub place: u64,
}

/// Whether each receipt is that of an accepted record: the one at its lane and place, with its call, its outcome and its
/// stamp. The first journal is that of lane 0. `Disagree` comes exactly if some receipt is not so, and gives the first.
///
/// Takes no memory. Each receipt costs one look, and the comparison of its call and outcome with those of the record.
pub fn audit(receipts: &[Receipt], journals: &[&[Placed]]) -> Result<(), Disagree>
    ensures ok { OnOk result (All (IsRecorded (journals_of journals.now)) receipts.now) }
    ensures err { IfErr result (IsFirstWrong (journals_of journals.now) receipts.now) }
{
    for (index, receipt) in receipts.iter().enumerate() {
        if !is_recorded(receipt, journals) {
            return Err(Disagree {
                index,
                lane: receipt.lane,
                place: receipt.place,
            });
        }
    }
    Ok(())
}

// Whether a receipt is that of an accepted record.
fn is_recorded(receipt: &Receipt, journals: &[&[Placed]]) -> bool
    ensures { Decides result (IsRecorded (journals_of journals.now) receipt.now) }
{
    match placed_at(journals, receipt.lane, receipt.place) {
        Some(placed) => agrees(placed, receipt),
        None => false,
    }
}

// The record at a place of a lane's journal, if there is one.
fn placed_at<'a>(journals: &[&'a [Placed]], lane: u8, place: u64) -> Option<&'a Placed>
    ensures { option_copied result ≡ slice_get (journal_of (journals_of journals.now) lane) place }
{
    journals.get(usize::from(lane))?.get(place as usize)
}

// Whether a record is accepted, and has the call, the outcome and the stamp of a receipt.
fn agrees(placed: &Placed, receipt: &Receipt) -> bool
    ensures { Decides result (placed.now ≡ told_record receipt.now) }
{
    placed.accepted
        && placed.stamp == receipt.stamp
        && placed.outcome == receipt.outcome
        && placed.call == receipt.call
}
