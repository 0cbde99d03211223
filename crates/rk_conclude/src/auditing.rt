// The receipts of sessions, held against the journals.
ghost use Rattle.std.specs.Prelude.{◌≡◌, ◌++◌, IfOk, OnOk, map};
ghost use Rattle.std.specs.Option.{option_copied};
ghost use Rattle.rk_history.specs.Journals.{journals_of};
ghost use Rattle.rk_laws_lanes.specs.gathered.Sessions.{receipts_in};
ghost use Rattle.rk_conclude.specs.Reports.{Audits};

use rk_history::audit;
use rk_session::Session;
use rk_types::{NoMemory, Placed, Receipt};
use std::alloc::Global;
use std::collections::BTreeMap;

/// The receipts of all sessions, client by client; lent.
pub(crate) fn receipts_of(
    alloc: Global,
    sessions: &BTreeMap<u32, Session>,
) -> Result<Vec<&Receipt>, NoMemory>
    ensures { IfOk result (λ receipts. map (λ receipt. receipt.now) receipts.items ≡ receipts_in sessions.now.entries) }
{
    let mut receipts = Vec::new(alloc);
    for (_, session) in sessions {
        push_receipts(&mut receipts, session)?;
    }
    Ok(receipts)
}

// Adds the receipts of a session to others.
fn push_receipts<'a>(receipts: &mut Vec<&'a Receipt>, session: &'a Session) -> Result<(), NoMemory>
    ensures { OnOk result (map (λ receipt. receipt.now) receipts.new.items ≡ map (λ receipt. receipt.now) receipts.old.items ++ session.now.receipts) }
{
    for receipt in session.receipts() {
        receipts.push(receipt)?;
    }
    Ok(())
}

/// The first receipt of which no accepted record has just what it says, if there is one.
pub(crate) fn first_wrong<'a>(
    sessions: &'a BTreeMap<u32, Session>,
    journals: &[&[Placed]],
) -> Option<&'a Receipt>
    ensures { Audits (journals_of journals.now) (receipts_in sessions.now.entries) (option_copied result) }
{
    for (_, session) in sessions {
        if let Err(disagree) = audit(session.receipts(), journals) {
            return session.receipts().get(disagree.index);
        }
    }
    None
}
