ghost use Rattle.std.specs.Prelude.{◌≡◌, ◌+◌, ◌-◌, max, true, false, [], ◌∷◌, ◌++◌, length, position, slice_get, take, IfOk, OnOk, OnErr};
ghost use Rattle.rk_model.specs.Merged.{IsRisingAbove, is_mutation as is_mutation_lem};
ghost use Rattle.rk_world.specs.Journal.{accepted_at, has_record as has_record_lem, is_accepted as is_accepted_lem, is_of_mutation, last_stamp as last_stamp_lem, next_record};
ghost use Rattle.rk_ledger.specs.Noted.{IsCounted, IsIndex, IsKept, accepted_count};
ghost use Rattle.rk_ledger.specs.Values as values;

use crate::call_index::CallIndex;
use rk_types::{Call, NoMemory, Op, Outcome, Placed};
use std::alloc::Global;
use std::marker::Model;

/// The records of the calls that were carried out, oldest first, by rising stamps. What there is of a call is found by client
/// and seq. Contracts see the records.
#[derive(Drop)]
pub(crate) struct Journal {
    records: Vec<Placed>,
    index: CallIndex,
    accepted: u64,
    // The bytes of the values of all records.
    bytes: u64,
}

impl Model for Journal {
    ghost use Rattle.std.specs.Prelude.{List};
    ghost use Rattle.rk_types.specs.declared.history.Placed.{Placed};
    ghost use Rattle.rk_ledger.specs.Noted.{IsKept};

    ghost Value = { List Placed };

    ghost view = { λ journal. journal.records.items };

    ghost invariant = { λ journal. IsKept journal.index journal.accepted journal.bytes journal.records.items };
}

impl Journal {
    /// No records. Takes no memory.
    pub(crate) fn new(alloc: Global) -> Journal
        ensures { result ≡ [] }
    {
        Journal {
            records: Vec::new(alloc),
            index: CallIndex::new(alloc),
            accepted: 0,
            bytes: 0,
        }
    }

    /// The records, lent.
    pub(crate) fn records(&self) -> &[Placed]
        ensures value { result.now ≡ self.now }
        ensures rising { IsRisingAbove 0 self.now }
    {
        self.records.as_slice()
    }

    /// The stamp of the last record, 0 if there is none. One step.
    pub(crate) fn last_stamp(&self) -> u64
        ensures { result ≡ last_stamp_lem self.now }
    {
        last_stamp(self.records.as_slice())
    }

    /// How many records are accepted. One step.
    pub(crate) fn accepted(&self) -> u64
        ensures { result ≡ accepted_count self.now }
    {
        self.accepted
    }

    /// The bytes of the values in the calls and outcomes of the records. One step.
    pub(crate) fn value_bytes(&self) -> u64
        ensures { result ≡ values.value_bytes self.now }
    {
        self.bytes
    }

    /// The place of the record of the mutation of a client with a seq. One search.
    pub(crate) fn place_of(&self, client: u32, seq: u64) -> Option<u64>
        ensures { result ≡ position (is_of_mutation client seq) self.now }
    {
        self.index.get(client, seq).place
    }

    /// Whether the mutation of a client with a seq has its record. One search.
    pub(crate) fn has_record(&self, client: u32, seq: u64) -> bool
        ensures { result ≡ has_record_lem self.now client seq }
    {
        self.index.get(client, seq).place.is_some()
    }

    /// Whether the call of a client with a seq has an accepted record. One search.
    pub(crate) fn is_accepted(&self, client: u32, seq: u64) -> bool
        ensures { result ≡ is_accepted_lem self.now client seq }
    {
        self.index.get(client, seq).accepted > 0
    }

    /// Puts the record of a call at the end, with a stamp above that of the last record and above what its client had seen.
    /// `NoMemory` comes also if that stamp or the bytes of all values do not fit; nothing has changed then. A few searches.
    pub(crate) fn add(&mut self, call: Call, outcome: Outcome, seen: u64) -> Result<(), NoMemory>
        ensures ok { OnOk result (self.new ≡ self.old ++ next_record self.old call outcome seen ∷ []) }
        ensures err { OnErr result (self.new ≡ self.old) }
    {
        let stamp = next_stamp(self.records.as_slice(), seen)?;
        let placed = Placed {
            call,
            outcome,
            stamp,
            accepted: false,
        };
        let bytes = more_bytes(self.bytes, &placed)?;
        put(&mut self.records, &mut self.index, placed)?;
        self.bytes = bytes;
        Ok(())
    }

    /// Accepts the record at a place, if there is one. Two searches; takes no memory.
    pub(crate) fn accept(&mut self, place: u64)
        ensures { self.new ≡ accepted_at self.old place (slice_get self.old place) }
    {
        accept_at(
            &mut self.records,
            &mut self.index,
            &mut self.accepted,
            place,
        );
    }

    /// Takes the last record away, if there is one. A few searches; takes no memory.
    pub(crate) fn drop_last(&mut self)
        ensures { self.new ≡ take (length self.old - 1) self.old }
    {
        pop(
            &mut self.records,
            &mut self.index,
            &mut self.accepted,
            &mut self.bytes,
        );
    }
}

/// Whether an operation is a mutation: all but a read are.
pub(crate) fn is_mutation(op: &Op) -> bool
    ensures { result ≡ is_mutation_lem op.now }
{
    !matches!(op, Op::Get)
}

// The stamp of the last record, 0 if there is none.
fn last_stamp(records: &[Placed]) -> u64
    ensures { result ≡ last_stamp_lem records.now }
{
    match records.last() {
        Some(record) => record.stamp,
        None => 0,
    }
}

// A stamp above that of the last record, and above what was seen, if it fits.
fn next_stamp(records: &[Placed], seen: u64) -> Result<u64, NoMemory>
    ensures { IfOk result (λ stamp. stamp ≡ max (last_stamp_lem records.now) seen + 1) }
{
    let highest = last_stamp(records).max(seen);
    highest.checked_add(1).ok_or(NoMemory)
}

// The bytes of the values of a record.
fn record_bytes(placed: &Placed) -> u64
    ensures { result ≡ values.record_bytes placed.now }
{
    let written = match &placed.call.op {
        Op::Put(value) | Op::CondPut(_, value) => value.bytes().len(),
        Op::Get | Op::Delete => 0,
    };
    let found = match &placed.outcome {
        Outcome::Found(_, value) => value.bytes().len(),
        _ => 0,
    };
    written as u64 + found as u64
}

// So many bytes with those of one more record, if they fit.
fn more_bytes(bytes: u64, placed: &Placed) -> Result<u64, NoMemory>
    ensures { IfOk result (λ more. more ≡ bytes + values.record_bytes placed.now) }
{
    bytes.checked_add(record_bytes(placed)).ok_or(NoMemory)
}

// Puts a record at the end that is not accepted.
fn put(records: &mut Vec<Placed>, index: &mut CallIndex, placed: Placed) -> Result<(), NoMemory>
    requires index { IsIndex index.old records.old.items }
    requires new { placed.accepted ≡ false }
    ensures index { IsIndex index.new records.new.items }
    ensures ok { OnOk result (records.new.items ≡ records.old.items ++ placed ∷ []) }
    ensures err { OnErr result (records.new.items ≡ records.old.items) }
{
    records.reserve(1)?;
    note(index, &placed, records.as_slice())?;
    let _ = records.push(placed);
    Ok(())
}

// Notes a record that comes behind these and is not accepted.
fn note(index: &mut CallIndex, placed: &Placed, records: &[Placed]) -> Result<(), NoMemory>
    requires index { IsIndex index.old records.now }
    requires new { placed.now.accepted ≡ false }
    ensures ok { OnOk result (IsIndex index.new (records.now ++ placed.now ∷ [])) }
    ensures err { OnErr result (IsIndex index.new records.now) }
{
    let call = &placed.call;
    let noted = index.get(call.client, call.seq);
    let more = noted.with_record(placed, records.len() as u64);
    index.insert(call.client, call.seq, more)
}

// Accepts the record at a place, if there is one.
fn accept_at(records: &mut Vec<Placed>, index: &mut CallIndex, accepted: &mut u64, place: u64)
    requires { IsCounted index.old accepted.old records.old.items }
    ensures counted { IsCounted index.new accepted.new records.new.items }
    ensures records { records.new.items ≡ accepted_at records.old.items place (slice_get records.old.items place) }
{
    let Some(record) = records.get_mut(place as usize) else {
        return;
    };
    if record.accepted {
        return;
    }
    record.accepted = true;
    let (client, seq) = (record.call.client, record.call.seq);
    let noted = index.get(client, seq);
    index.change(client, seq, noted.with_accepted());
    *accepted += 1;
}

// Takes the last record away, if there is one.
fn pop(records: &mut Vec<Placed>, index: &mut CallIndex, accepted: &mut u64, bytes: &mut u64)
    requires { IsKept index.old accepted.old bytes.old records.old.items }
    ensures kept { IsKept index.new accepted.new bytes.new records.new.items }
    ensures records { records.new.items ≡ take (length records.old.items - 1) records.old.items }
{
    let Some(placed) = records.pop() else {
        return;
    };
    forget(index, &placed, records.as_slice());
    *bytes -= record_bytes(&placed);
    if placed.accepted {
        *accepted -= 1;
    }
}

// Takes a record that was behind these out of the index.
fn forget(index: &mut CallIndex, placed: &Placed, records: &[Placed])
    requires { IsIndex index.old (records.now ++ placed.now ∷ []) }
    ensures { IsIndex index.new records.now }
{
    let call = &placed.call;
    let noted = index.get(call.client, call.seq);
    let fewer = noted.without_record(placed, records.len() as u64);
    index.change(call.client, call.seq, fewer);
}
