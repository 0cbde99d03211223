// The commands of a script, one after the other.
ghost use Rattle.std.specs.Prelude.{◌≡◌, All, [], length, nat_lt, OnOk, OnErr};
ghost use Rattle.rk_outside.specs.Faults.{HasCause};
ghost use Rattle.rk_outside.specs.Parts.{AppendsPart};
ghost use Rattle.rk_cluster.specs.Faults.{CountsGoOn};
ghost use Rattle.rk_cluster.specs.Masters.{backups_of};
ghost use Rattle.rk_settle.specs.Course.{MOST_FAULTS};
ghost use Rattle.rk_settle.specs.Faults.{FailsInRounds};
ghost use Rattle.rk_script.specs.Lawful.{IsLawful};
ghost use Rattle.rk_play.specs.Reached.{Spills};
ghost use Rattle.rk_play.specs.Ended.{EndsBy, HasEndCause, end_by};
ghost use Rattle.rk_play.specs.Faults.{EndsByReplicas};

use crate::coming::Coming;
use crate::commands::run_within;
use crate::end::End;
use crate::error::PlayError;
use rk_cluster::Cluster;
use rk_outside::{Failed, PIECE, Replica, Sink, put_all};
use std::alloc::Global;

/// Runs commands one after the other, up to the first that stops the run. What they write is put into the sink in pieces,
/// each after whole commands; what was not put yet is held back in `held`.
pub(crate) fn run_all<R: Replica + Drop, K: Sink>(
    alloc: Global,
    cluster: &mut Cluster<R>,
    commands: Coming,
    held: &mut Vec<u8>,
    sink: &mut K,
) -> End
    requires lawful { All IsLawful commands }
    requires empty { held.old.items ≡ [] }
    ensures ends { EndsBy R.segments R.faults cluster.old cluster.new commands (K.written sink.old) (K.written sink.new) held.new.items result }
    ensures cause { HasEndCause result (K.faults sink.old) (K.faults sink.new) }
    ensures backups { backups_of cluster.new ≡ backups_of cluster.old }
    ensures counts { CountsGoOn R.faults [] cluster.old cluster.new }
    ensures replica_cause { EndsByReplicas result → FailsInRounds R.faults MOST_FAULTS cluster.old cluster.new }
{
    let mut coming = commands;
    let mut said = Vec::new(alloc);
    'commands: while let Some(numbered) = coming.next() {
        if spill(held, sink).is_err() {
            return End::WriteFault;
        }
        match run_within(alloc, cluster, numbered.command, &mut said, held) {
            Ok(()) => {}
            Err(error) => return end_at(numbered.line, error),
        }
    }
    End::Done
}

// How a run ends at the command of a line, which stops it for this reason.
fn end_at(line: u32, error: PlayError) -> End
    ensures { result ≡ end_by line error }
{
    match error {
        PlayError::NoMemory => End::NoMemory,
        PlayError::Refused(_) | PlayError::Worn(_) | PlayError::Replica(_) => {
            End::Stopped { line, error }
        }
    }
}

// Puts what is held back into the sink once it is a piece or more.
fn spill<K: Sink>(held: &mut Vec<u8>, sink: &mut K) -> Result<(), Failed>
    ensures ok { OnOk result (Spills (nat_lt (length held.old.items) PIECE) (K.written sink.old) (K.written sink.new) held.old.items held.new.items) }
    ensures err { OnErr result (AppendsPart (K.written sink.old) (K.written sink.new) held.old.items) }
    ensures cause { HasCause (K.faults sink.old) (K.faults sink.new) result }
{
    if held.len() >= PIECE {
        put_all(sink, held.as_slice())?;
        held.clear();
    }
    Ok(())
}
