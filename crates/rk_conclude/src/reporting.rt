// What is written at the end of a drive.
ghost use Rattle.std.specs.Prelude.{◌≡◌, ◌≤◌, ◌++◌, length, slice_get, IfOk, OnOk};
ghost use Rattle.std.specs.Option.{option_copied};
ghost use Rattle.rk_types.specs.declared.hashing.TheConstants.{LANES};
ghost use Rattle.rk_history.specs.Journals.{AreRising, journals_of as journals_behind};
ghost use Rattle.rk_model.specs.Merged.{journal_of};
ghost use Rattle.rk_world.specs.Cluster.{Cluster as Whole};
ghost use Rattle.rk_cluster.specs.State.{IsOf};
ghost use Rattle.rk_cluster.specs.Steps.{state_of};
ghost use Rattle.rk_conclude.specs.Reports.{IsAudited, IsReport, audit_line, audit_status, history_part};

use crate::auditing::first_wrong;
use crate::results::{journals_of, results_of};
use rk_history::merge;
use rk_lane::Lane;
use rk_lines::{push_difference, push_history};
use rk_outside::Replica;
use rk_session::Session;
use rk_types::{NoMemory, Placed, Receipt, Status};
use rk_workload::push_results;
use std::alloc::Global;
use std::collections::BTreeMap;

/// The text of a drive whose cluster is at rest, and its status.
#[derive(Drop)]
pub(crate) struct Report {
    pub(crate) text: Vec<u8>,
    pub(crate) status: Status,
}

/// Audits the receipts of sessions that have come to rest with these lanes, and makes the text: their history, if that is asked for, their
/// results, and what the audit found.
pub(crate) fn make_report<R: Replica + Drop>(
    alloc: Global,
    lanes: &[Lane<R>],
    sessions: &BTreeMap<u32, Session>,
    history: bool,
) -> Result<Report, NoMemory>
    requires { length lanes.now ≡ LANES }
    ensures audited { IfOk result (λ report. IsAudited report.status) }
    ensures report { IfOk result (λ report. (cluster : Whole) → IsOf R.segments (state_of lanes.now sessions.now.entries) cluster
        → IsReport history cluster report.text.items report.status) }
{
    let journals = journals_of(alloc, lanes)?;
    let results = results_of(alloc, lanes, sessions)?;
    let wrong = first_wrong(sessions, journals.as_slice());
    let mut text = Vec::new(alloc);
    push_part(alloc, &mut text, history, journals.as_slice())?;
    push_results(&mut text, &results)?;
    push_audit(&mut text, wrong, journals.as_slice())?;
    Ok(Report {
        text,
        status: status_of(wrong),
    })
}

// Adds the history that journals make, if it is asked for.
fn push_part(
    alloc: Global,
    text: &mut Vec<u8>,
    history: bool,
    journals: &[&[Placed]],
) -> Result<(), NoMemory>
    requires few { length journals.now ≤ 256 }
    requires rising { AreRising (journals_behind journals.now) }
    ensures { OnOk result (text.new.items ≡ text.old.items ++ history_part history (journals_behind journals.now)) }
{
    if history {
        let lines = merge(alloc, journals)?;
        push_history(text, lines.as_slice())?;
    }
    Ok(())
}

// Adds what the audit found.
fn push_audit(
    text: &mut Vec<u8>,
    wrong: Option<&Receipt>,
    journals: &[&[Placed]],
) -> Result<(), NoMemory>
    ensures { OnOk result (text.new.items ≡ text.old.items ++ audit_line (journals_behind journals.now) (option_copied wrong.entry)) }
{
    match wrong {
        Some(receipt) => push_difference(text, receipt, record_of(receipt, journals)),
        None => {
            text.extend_from_slice(b"audit ok\n")?;
            Ok(())
        }
    }
}

// The record at the place that a receipt names, if there is one.
fn record_of<'a>(receipt: &Receipt, journals: &[&'a [Placed]]) -> Option<&'a Placed>
    ensures { option_copied result ≡ slice_get (journal_of (journals_behind journals.now) receipt.now.lane) receipt.now.place }
{
    journals
        .get(usize::from(receipt.lane))?
        .get(receipt.place as usize)
}

// The status of a drive that was audited.
fn status_of(wrong: Option<&Receipt>) -> Status
    ensures status { result ≡ audit_status (option_copied wrong.entry) }
    ensures audited { IsAudited result }
{
    match wrong {
        Some(_) => Status::Audit,
        None => Status::Done,
    }
}
