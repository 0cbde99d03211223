// How a client asks its next call.
ghost use Rattle.std.specs.Prelude.{◌≡◌, ◌≤◌, [], ℕ, None, IfOk, IfErr, IsSomeAnd, OnOk, OnErr};
ghost use Rattle.rk_message.specs.Calls.{IsLawfulOp};
ghost use Rattle.rk_types.specs.NumberMap.{get};
ghost use Rattle.rk_world.specs.Client.{with_next_call};
ghost use Rattle.rk_world.specs.Premises.{MayAct};
ghost use Rattle.rk_cluster.specs.Calling.{IsAsked};
ghost use Rattle.rk_cluster.specs.Codes.{call_code};
ghost use Rattle.rk_cluster.specs.Effects.{EndsIn, IsCarriedOut};
ghost use Rattle.rk_cluster.specs.Faults.{CountsGoOn};
ghost use Rattle.rk_cluster.specs.Makes.{call_makes};
ghost use Rattle.rk_cluster.specs.Masters.{backups_of};
ghost use Rattle.rk_cluster.specs.Steps.{MayAllAct};

use super::{Cluster, nothing_said};
use crate::code::Code;
use crate::error::ClusterError;
use crate::looks::{calls_asked, has_table};
use rk_outside::Replica;
use rk_session::Session;
use rk_types::{Key, NoMemory, Op, Said};
use std::collections::BTreeMap;

/// As many calls as clients may ask.
const MOST_CALLS: u64 = 200_000;

impl<R: Replica + Drop> Cluster<R> {
    /// A client asks its next call, and sends it on its turn; now nothing is sent. If lane 0 is spent, the answer is
    /// `NoMemory`. A search for the client, a look at each row of lane 0 and at each session, and the room that an answer
    /// takes.
    pub fn call(
        &mut self,
        client: u32,
        table: u64,
        key: Key,
        op: Op,
    ) -> Result<Vec<Said>, ClusterError>
        ensures ok { IfOk result (λ said. IsCarriedOut R.segments self.old self.new
            (λ cluster. call_code cluster client table) (λ cluster. call_makes client table key op) said.items) }
        ensures err { IfErr result (EndsIn R.segments self.old self.new (λ cluster. call_code cluster client table)
            (λ cluster. call_makes client table key op)) }
        ensures backups { backups_of self.new ≡ backups_of self.old }
        ensures counts { CountsGoOn R.faults [] self.old self.new }
    {
        let alloc = self.alloc();
        let first = &self.lanes[0];
        if first.spent() {
            return Err(ClusterError::NoMemory);
        }
        let Some(session) = self.sessions.get(&client) else {
            return Err(ClusterError::Code(Code::Unknown));
        };
        if !has_table(first.rows().rows(), table) {
            return Err(ClusterError::Code(Code::Unknown));
        }
        if session.outstanding().is_some() {
            return Err(ClusterError::Code(Code::Busy));
        }
        if calls_asked(&self.sessions) >= MOST_CALLS {
            return Err(ClusterError::Code(Code::Limit));
        }
        ask_next(&mut self.sessions, client, table, key, op)?;
        Ok(nothing_said(alloc))
    }
}

// A client that has a session and no outstanding call asks its next one, of a table whose number counts from 1. After an error
// nothing has changed.
fn ask_next(
    sessions: &mut BTreeMap<u32, Session>,
    client: u32,
    table: u64,
    key: Key,
    op: Op,
) -> Result<(), NoMemory>
    requires table { 1 ≤ table }
    requires there { IsSomeAnd (get sessions.old.entries client) (λ session. session.outstanding ≡ None) }
    ensures ok { OnOk result (IsAsked sessions.old.entries sessions.new.entries client table key op) }
    ensures err { OnErr result (sessions.new.entries ≡ sessions.old.entries) }
    ensures acts { (masters : ℕ) → MayAllAct masters sessions.old.entries → MayAllAct masters sessions.new.entries }
{
    let Some(session) = sessions.get_mut(&client) else {
        return Err(NoMemory);
    };
    ask(session, table, key, op)
}

// A client without an outstanding call asks its next one, of a table whose number counts from 1. After an error nothing has
// changed.
fn ask(session: &mut Session, table: u64, key: Key, op: Op) -> Result<(), NoMemory>
    requires table { 1 ≤ table }
    requires free { session.old.outstanding ≡ None }
    ensures ok { OnOk result (session.new ≡ with_next_call session.old table key op) }
    ensures err { OnErr result (session.new ≡ session.old) }
    ensures acts { (masters : ℕ) → MayAct masters session.old → MayAct masters session.new }
{
    // By the contracts of `bytes`, key and value are within their limits.
    let _ = key.bytes();
    shows_limits(&op);
    match session.ask(table, key, op) {
        Ok(_) => Ok(()),
        // No call is outstanding.
        Err(_) => Err(NoMemory),
    }
}

// The number and the value of an operation, if it has them, are within their limits: reading them shows it.
fn shows_limits(op: &Op)
    ensures { IsLawfulOp op.now }
{
    match op {
        Op::Put(value) => {
            let _ = value.bytes();
        }
        Op::CondPut(version, value) => {
            let _version = *version;
            let _ = value.bytes();
        }
        Op::Get | Op::Delete => {}
    }
}
