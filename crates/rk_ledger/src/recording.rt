// How calls get their records.
ghost use Rattle.std.specs.Prelude.{◌≡◌, ◌∷◌, ◌++◌, [], None, take, OnOk, OnErr};
ghost use Rattle.rk_types.specs.NumberMap.{get_or};
ghost use Rattle.rk_world.specs.Ends.{outcome_of as outcome_of_lem};
ghost use Rattle.rk_world.specs.Journal.{next_record};
ghost use Rattle.rk_world.specs.Ledger.{Ledger, seen_of, with_all_served, with_end, with_ends, with_served};
ghost use Rattle.rk_ledger.specs.Growing.{IsGrown, with_journal};

use crate::clients::Clients;
use crate::journal::{Journal, is_mutation};
use rk_types::{Call, End, Ended, NoMemory, Outcome};
use rk_world::Served;

/// Served calls get their records, in their order. After `NoMemory` nothing has changed. A few searches for each call.
pub(crate) fn serve_all(
    journal: &mut Journal,
    clients: &Clients,
    seen: u64,
    served: &[Served],
) -> Result<(), NoMemory>
    ensures ok { OnOk result ((ledger : Ledger) → ledger.clients ≡ clients.now.last_calls
        → with_journal ledger journal.new ≡ with_all_served seen (with_journal ledger journal.old) served.now) }
    ensures err { OnErr result (journal.new ≡ journal.old) }
{
    let length = journal.records().len();
    if let Err(error) = serve_each(journal, clients, seen, served) {
        cut(journal, length);
        return Err(error);
    }
    Ok(())
}

/// Ends of a rebuild make records, in their order. After `NoMemory` nothing has changed. A few searches for each end.
pub(crate) fn end_all(
    journal: &mut Journal,
    clients: &Clients,
    ends: &[Ended],
) -> Result<(), NoMemory>
    ensures ok { OnOk result ((ledger : Ledger) → ledger.clients ≡ clients.now.last_calls
        → with_journal ledger journal.new ≡ with_ends (with_journal ledger journal.old) ends.now) }
    ensures err { OnErr result (journal.new ≡ journal.old) }
{
    let length = journal.records().len();
    if let Err(error) = end_each(journal, clients, ends) {
        cut(journal, length);
        return Err(error);
    }
    Ok(())
}

// Served calls get their records, as far as memory goes.
fn serve_each(
    journal: &mut Journal,
    clients: &Clients,
    seen: u64,
    served: &[Served],
) -> Result<(), NoMemory>
    ensures ok { OnOk result ((ledger : Ledger) → ledger.clients ≡ clients.now.last_calls
        → with_journal ledger journal.new ≡ with_all_served seen (with_journal ledger journal.old) served.now) }
    ensures grown { IsGrown journal.old journal.new }
{
    for one in served {
        serve(journal, clients, seen, one)?;
    }
    Ok(())
}

// Ends make records, as far as memory goes.
fn end_each(journal: &mut Journal, clients: &Clients, ends: &[Ended]) -> Result<(), NoMemory>
    ensures ok { OnOk result ((ledger : Ledger) → ledger.clients ≡ clients.now.last_calls
        → with_journal ledger journal.new ≡ with_ends (with_journal ledger journal.old) ends.now) }
    ensures grown { IsGrown journal.old journal.new }
{
    for one in ends {
        take_end(journal, clients, one)?;
    }
    Ok(())
}

// A served call gets its record: a read with what its request had seen, and a mutation that has none yet.
fn serve(
    journal: &mut Journal,
    clients: &Clients,
    seen: u64,
    served: &Served,
) -> Result<(), NoMemory>
    ensures ok { OnOk result ((ledger : Ledger) → ledger.clients ≡ clients.now.last_calls
        → with_journal ledger journal.new ≡ with_served seen (with_journal ledger journal.old) served.now) }
    ensures grown { IsGrown journal.old journal.new }
{
    let call = &served.call;
    if !is_mutation(&call.op) {
        return put(journal, call, &served.outcome, seen);
    }
    if journal.has_record(call.client, call.seq) {
        return Ok(());
    }
    put(
        journal,
        call,
        &served.outcome,
        seen_by(clients, call.client),
    )
}

// An end makes a record if it is that of its client's last call, and that call has none.
fn take_end(journal: &mut Journal, clients: &Clients, end: &Ended) -> Result<(), NoMemory>
    ensures ok { OnOk result ((ledger : Ledger) → ledger.clients ≡ clients.now.last_calls
        → with_journal ledger journal.new ≡ with_end (with_journal ledger journal.old) end.now) }
    ensures grown { IsGrown journal.old journal.new }
{
    let Some(last) = clients.last_call(end.client) else {
        return Ok(());
    };
    if last.call.seq != end.seq || journal.has_record(end.client, end.seq) {
        return Ok(());
    }
    put(journal, &last.call, &outcome_of(end.end), last.seen)
}

// Puts a copy of a call and its outcome at the end of the journal.
fn put(journal: &mut Journal, call: &Call, outcome: &Outcome, seen: u64) -> Result<(), NoMemory>
    ensures ok { OnOk result (journal.new ≡ journal.old ++ next_record journal.old call.now outcome.now seen ∷ []) }
    ensures err { OnErr result (journal.new ≡ journal.old) }
{
    journal.add(call.duplicate()?, outcome.duplicate()?, seen)
}

/// Takes the records from a place on away, the last one first. For each of them a few searches; takes no memory.
pub(crate) fn cut(journal: &mut Journal, length: usize)
    ensures { journal.new ≡ take length journal.old }
{
    'cut: while journal.records().len() > length {
        journal.drop_last();
    }
}

// The stamp that a client had seen when it asked its last call.
fn seen_by(clients: &Clients, client: u32) -> u64
    ensures { result ≡ seen_of (get_or None clients.now.last_calls client) }
{
    match clients.last_call(client) {
        Some(last) => last.seen,
        None => 0,
    }
}

// The outcome that an end gives.
fn outcome_of(end: End) -> Outcome
    ensures { result ≡ outcome_of_lem end }
{
    match end {
        End::Written(version) => Outcome::Written(version),
        End::Deleted(version) => Outcome::Deleted(version),
        End::Absent => Outcome::Absent,
        End::Mismatch(version) => Outcome::Mismatch(version),
    }
}
