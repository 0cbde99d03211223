// What a command of a script does in a cluster, and writes.
ghost use Rattle.std.specs.Prelude.{◌≡◌, ◌≢◌, [], ◌++◌, IfErr, IsErrAnd, IsOkAnd, OnOk};
ghost use Rattle.rk_lines.specs.Lines.{said_lines};
ghost use Rattle.rk_cluster.specs.Faults.{CountsGoOn};
ghost use Rattle.rk_cluster.specs.Masters.{backups_of};
ghost use Rattle.rk_play.specs.Came.{Ran, Stopped};
ghost use Rattle.rk_play.specs.Effects.{effect, effect_within};
ghost use Rattle.rk_play.specs.Faults.{HasFaults};
ghost use Rattle.rk_play.specs.Stops.{error_by_cluster};
ghost use Rattle.rk_play.specs.declared.error.PlayError.TheVariants.{NoMemory as no_memory};
ghost use Rattle.rk_script.specs.Lawful.{IsLawfulCommand};

use crate::error::PlayError;
use crate::settling::{advance_tablet, hasten, serve_call, settle_all};
use crate::shows::{is_full, show_history, show_records, show_tablet};
use rk_cluster::{Cluster, ClusterError, Code};
use rk_lines::push_all_said;
use rk_outside::Replica;
use rk_script::Command;
use rk_types::Said;
use std::alloc::Global;

/// Runs a command in a cluster, unless that is full, and adds what it writes to a text. A command that a code refuses changes
/// nothing. After `NoMemory` nothing is promised of the cluster, and the text may have a part of what the command writes; after
/// another error a part of the command may have happened, and the text is as it was. `said` is room for what clients say meanwhile.
pub(crate) fn run_within<R: Replica + Drop>(
    alloc: Global,
    cluster: &mut Cluster<R>,
    command: Command,
    said: &mut Vec<Said>,
    text: &mut Vec<u8>,
) -> Result<(), PlayError>
    requires { IsLawfulCommand command }
    ensures ok { OnOk result (Ran R.segments R.faults cluster.old cluster.new (λ c fates. effect_within c command fates) text.old.items text.new.items) }
    ensures err { IfErr result (Stopped R.segments R.faults cluster.old cluster.new (λ c fates. effect_within c command fates)) }
    ensures kept { IfErr result (λ e. e ≢ no_memory → text.new.items ≡ text.old.items) }
    ensures backups { backups_of cluster.new ≡ backups_of cluster.old }
    ensures counts { CountsGoOn R.faults [] cluster.old cluster.new }
    ensures cause { IfErr result (HasFaults R.faults cluster.old cluster.new) }
{
    if is_full(cluster) {
        return Err(PlayError::Refused(Code::Limit));
    }
    run_command(alloc, cluster, command, said, text)
}

// Runs a command in a cluster that is not full.
fn run_command<R: Replica + Drop>(
    alloc: Global,
    cluster: &mut Cluster<R>,
    command: Command,
    said: &mut Vec<Said>,
    text: &mut Vec<u8>,
) -> Result<(), PlayError>
    requires { IsLawfulCommand command }
    ensures ok { OnOk result (Ran R.segments R.faults cluster.old cluster.new (λ c fates. effect c command fates) text.old.items text.new.items) }
    ensures err { IfErr result (Stopped R.segments R.faults cluster.old cluster.new (λ c fates. effect c command fates)) }
    ensures kept { IfErr result (λ e. e ≢ no_memory → text.new.items ≡ text.old.items) }
    ensures backups { backups_of cluster.new ≡ backups_of cluster.old }
    ensures counts { CountsGoOn R.faults [] cluster.old cluster.new }
    ensures cause { IfErr result (HasFaults R.faults cluster.old cluster.new) }
{
    match command {
        Command::Masters(_) | Command::Backups(_) => Err(PlayError::Refused(Code::TooLate)),
        Command::Table { table, master } => tell(text, cluster.add_table(table, master)),
        Command::Client(client) => tell(text, cluster.add_client(client)),
        Command::Call {
            client,
            table,
            key,
            op,
        } => tell(text, cluster.call(client, table, key, op)),
        Command::Repeat(client) => tell(text, cluster.again(client)),
        Command::Migrate { tablet, master } => tell(text, cluster.migrate(tablet, master)),
        Command::Split { tablet, hash } => tell(text, cluster.split(tablet, hash)),
        Command::Turn(lane) => tell(text, cluster.turn(lane)),
        Command::Deliver { lane, place } => tell(text, cluster.deliver(lane, place)),
        Command::Forget { lane, place } => tell(text, cluster.forget(lane, place)),
        Command::Crash(master) => tell(text, cluster.crash(master)),
        Command::Notice(master) => tell(text, cluster.notice(master)),
        Command::Settle => settle_all(alloc, cluster, said, text),
        Command::Serve(client) => serve_call(alloc, cluster, client, said, text),
        Command::Advance { tablet, reach } => advance_tablet(
            alloc, cluster, tablet, reach, said, text,
        ),
        Command::Priority(tablet) => hasten(alloc, cluster, tablet, said, text),
        Command::Where(tablet) => show_tablet(alloc, cluster, tablet, text),
        Command::Dump(tablet) => show_records(alloc, cluster, tablet, text),
        Command::History => show_history(alloc, cluster, text),
    }
}

// Adds what clients said to a text, or answers why a call was not carried out.
fn tell(text: &mut Vec<u8>, told: Result<Vec<Said>, ClusterError>) -> Result<(), PlayError>
    ensures ok { OnOk result (IsOkAnd told (λ said. text.new.items ≡ text.old.items ++ said_lines said.items)) }
    ensures err { IfErr result (λ e. e ≢ no_memory → IsErrAnd told (λ error. e ≡ error_by_cluster error)) }
    ensures kept { IfErr result (λ e. e ≢ no_memory → text.new.items ≡ text.old.items) }
{
    push_all_said(text, told?.as_slice())?;
    Ok(())
}
