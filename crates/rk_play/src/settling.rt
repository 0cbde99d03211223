// What the settling commands do. Each is lent a list for what clients say, whose memory is used again.
ghost use Rattle.std.specs.Prelude.{◌≡◌, ◌≢◌, [], IfErr, OnOk};
ghost use Rattle.rk_cluster.specs.Faults.{CountsGoOn};
ghost use Rattle.rk_cluster.specs.Masters.{backups_of};
ghost use Rattle.rk_play.specs.Came.{Ran, Stopped};
ghost use Rattle.rk_play.specs.Effects.{effect};
ghost use Rattle.rk_play.specs.Faults.{HasFaults};
ghost use Rattle.rk_play.specs.declared.error.PlayError.TheVariants.{NoMemory as no_memory};
ghost use Rattle.rk_script.specs.declared.command.Command.TheVariants as commands;

use crate::error::PlayError;
use rk_cluster::Cluster;
use rk_lines::push_all_said;
use rk_outside::Replica;
use rk_settle::{advance, advance_code, priority, priority_code, serve, serve_code, settle};
use rk_types::{Reach, Said};
use std::alloc::Global;

/// Settles a cluster, and adds what clients said to a text.
pub(crate) fn settle_all<R: Replica + Drop>(
    alloc: Global,
    cluster: &mut Cluster<R>,
    said: &mut Vec<Said>,
    text: &mut Vec<u8>,
) -> Result<(), PlayError>
    ensures ok { OnOk result (Ran R.segments R.faults cluster.old cluster.new (λ c fates. effect c commands.Settle fates) text.old.items text.new.items) }
    ensures err { IfErr result (Stopped R.segments R.faults cluster.old cluster.new (λ c fates. effect c commands.Settle fates)) }
    ensures kept { IfErr result (λ e. e ≢ no_memory → text.new.items ≡ text.old.items) }
    ensures backups { backups_of cluster.new ≡ backups_of cluster.old }
    ensures counts { CountsGoOn R.faults [] cluster.old cluster.new }
    ensures cause { IfErr result (HasFaults R.faults cluster.old cluster.new) }
{
    said.clear();
    settle(alloc, cluster, said)?;
    push_all_said(text, said.as_slice())?;
    Ok(())
}

/// Brings the outstanding call of a client on, unless a code refuses that, and adds what the client said to a text.
pub(crate) fn serve_call<R: Replica + Drop>(
    alloc: Global,
    cluster: &mut Cluster<R>,
    client: u32,
    said: &mut Vec<Said>,
    text: &mut Vec<u8>,
) -> Result<(), PlayError>
    ensures ok { OnOk result (Ran R.segments R.faults cluster.old cluster.new (λ c fates. effect c (commands.Serve client) fates) text.old.items text.new.items) }
    ensures err { IfErr result (Stopped R.segments R.faults cluster.old cluster.new (λ c fates. effect c (commands.Serve client) fates)) }
    ensures kept { IfErr result (λ e. e ≢ no_memory → text.new.items ≡ text.old.items) }
    ensures backups { backups_of cluster.new ≡ backups_of cluster.old }
    ensures counts { CountsGoOn R.faults [] cluster.old cluster.new }
    ensures cause { IfErr result (HasFaults R.faults cluster.old cluster.new) }
{
    if let Some(code) = serve_code(cluster, client) {
        return Err(PlayError::Refused(code));
    }
    said.clear();
    serve(alloc, cluster, client, said)?;
    push_all_said(text, said.as_slice())?;
    Ok(())
}

/// Brings the migration of a tablet to a reach, unless a code refuses that, and adds what clients said to a text.
pub(crate) fn advance_tablet<R: Replica + Drop>(
    alloc: Global,
    cluster: &mut Cluster<R>,
    tablet: u32,
    reach: Reach,
    said: &mut Vec<Said>,
    text: &mut Vec<u8>,
) -> Result<(), PlayError>
    ensures ok { OnOk result (Ran R.segments R.faults cluster.old cluster.new (λ c fates. effect c (commands.Advance tablet reach) fates) text.old.items text.new.items) }
    ensures err { IfErr result (Stopped R.segments R.faults cluster.old cluster.new (λ c fates. effect c (commands.Advance tablet reach) fates)) }
    ensures kept { IfErr result (λ e. e ≢ no_memory → text.new.items ≡ text.old.items) }
    ensures backups { backups_of cluster.new ≡ backups_of cluster.old }
    ensures counts { CountsGoOn R.faults [] cluster.old cluster.new }
    ensures cause { IfErr result (HasFaults R.faults cluster.old cluster.new) }
{
    if let Some(code) = advance_code(cluster, tablet, reach) {
        return Err(PlayError::Refused(code));
    }
    said.clear();
    advance(alloc, cluster, tablet, reach, said)?;
    push_all_said(text, said.as_slice())?;
    Ok(())
}

/// Sends for what the target of a tablet wants first, unless a code refuses that, and adds what clients said to a text.
pub(crate) fn hasten<R: Replica + Drop>(
    alloc: Global,
    cluster: &mut Cluster<R>,
    tablet: u32,
    said: &mut Vec<Said>,
    text: &mut Vec<u8>,
) -> Result<(), PlayError>
    ensures ok { OnOk result (Ran R.segments R.faults cluster.old cluster.new (λ c fates. effect c (commands.Priority tablet) fates) text.old.items text.new.items) }
    ensures err { IfErr result (Stopped R.segments R.faults cluster.old cluster.new (λ c fates. effect c (commands.Priority tablet) fates)) }
    ensures kept { IfErr result (λ e. e ≢ no_memory → text.new.items ≡ text.old.items) }
    ensures backups { backups_of cluster.new ≡ backups_of cluster.old }
    ensures counts { CountsGoOn R.faults [] cluster.old cluster.new }
    ensures cause { IfErr result (HasFaults R.faults cluster.old cluster.new) }
{
    if let Some(code) = priority_code(cluster, tablet) {
        return Err(PlayError::Refused(code));
    }
    said.clear();
    priority(alloc, cluster, tablet, said)?;
    push_all_said(text, said.as_slice())?;
    Ok(())
}
