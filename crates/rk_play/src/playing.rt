// A script read, played and written.
ghost use Rattle.std.specs.Prelude.{◌≡◌, ◌+◌, All, [], length, IfSome};
ghost use Rattle.std.specs.Io.KnownBytes.{IsAtEnd};
ghost use Rattle.rk_outside.specs.Parts.{ConsumesBetween};
ghost use Rattle.rk_world.specs.Cluster.{Cluster as Whole};
ghost use Rattle.rk_settle.specs.Faults.{RoseInRounds};
ghost use Rattle.rk_cluster.specs.Fresh.{AreEmpty};
ghost use Rattle.rk_settle.specs.Course.{MOST_FAULTS};
ghost use Rattle.rk_script.specs.Lawful.{IsLawful};
ghost use Rattle.rk_play.specs.Concluded.{Concludes, ConcludesBy, IsWritten, MayComeTo, PlaysBy, part_in};
ghost use Rattle.rk_play.specs.Played.{cluster_by, part_of, refused_at, stopped_at};
ghost use Rattle.rk_play.specs.Reports.{TellsCode};
ghost use Rattle.rk_play.specs.Runs.{HasStatusCause, IsRead, NoneFell, Plays, replica_counts};
ghost use Rattle.rk_play.specs.Settings.{IsSetting, setting_of};
ghost use Rattle.rk_play.specs.Stops.{stop_by};

use crate::coming::Coming;
use crate::end::End;
use crate::error::PlayError;
use crate::reading::{ScriptError, read_script};
use crate::report::Report;
use crate::run::run_all;
use crate::setting::{Opening, read_opening};
use rk_cluster::Cluster;
use rk_lending::{give_back, lend};
use rk_lines::push_refused;
use rk_outside::{PIECE, Replica, Sink, Source, put_all};
use rk_script::{LONGEST_SCRIPT, Numbered};
use rk_types::Status;
use std::alloc::Global;

/// How many masters and backups there are if a script does not say.
const DEFAULT_COUNT: u8 = 2;

/// Plays the script that the source has, and writes its text to the sink. A refused script is reported with the code that was written.
///
/// The replicas hold nothing; backup b of lane l has the one at place 8 * (b - 1) + l, counted from 0. Unless memory was
/// wanting, they come back in their order: those of backups that are there report what these store at the end, and the others
/// are as they were. If the source failed, all are. No count of their faults falls; if memory was wanting, all of them may be
/// gone. A script that is too long is read up to one piece past the longest.
pub fn play<S: Source, K: Sink, R: Replica + Drop>(
    alloc: Global,
    source: &mut S,
    sink: &mut K,
    replicas: &mut Vec<R>,
) -> Report
    requires { length replicas.old.items ≡ 32 }
    ensures plays { AreEmpty R.segments replicas.old.items → IfSome (S.left source.old) (λ script.
        Plays R.segments R.faults script result.status (K.written sink.old) (K.written sink.new) replicas.old.items replicas.new.items) }
    ensures code { TellsCode result.status result.code (K.written sink.old) (K.written sink.new) }
    ensures count { (result.status ≡ Status.NoMemory → ⊥) → length replicas.new.items ≡ 32 }
    ensures counts { NoneFell R.faults replicas.old.items replicas.new.items }
    ensures untouched { result.status ≡ Status.ReadFault → replicas.new.items ≡ replicas.old.items }
    ensures usage { result.status ≡ Status.Usage → ⊥ }
    ensures audit { result.status ≡ Status.Audit → ⊥ }
    ensures all_read { result.status ≡ Status.Done → IsAtEnd (S.left source.new) }
    ensures read { result.status ≡ Status.Refused → IfSome (S.left source.old) (λ script. IsRead script (S.left source.new)) }
    ensures most_read { ConsumesBetween (S.left source.old) (S.left source.new) 0 (LONGEST_SCRIPT + PIECE) }
    ensures read_cause { HasStatusCause Status.ReadFault result.status (S.faults source.old) (S.faults source.new) }
    ensures write_cause { HasStatusCause Status.WriteFault result.status (K.faults sink.old) (K.faults sink.new) }
    ensures replica_cause { result.status ≡ Status.ReplicaFault
        → RoseInRounds MOST_FAULTS (replica_counts R.faults replicas.old.items) (replica_counts R.faults replicas.new.items) }
{
    match read_script(alloc, source) {
        Ok(commands) => play_commands(alloc, commands, sink, replicas),
        Err(ScriptError::Refused { line, code }) => refuse(alloc, line, code.number(), sink),
        Err(ScriptError::Failed) => Report::of(Status::ReadFault),
        Err(ScriptError::NoMemory) => Report::of(Status::NoMemory),
    }
}

// Plays numbered commands from the start.
fn play_commands<K: Sink, R: Replica + Drop>(
    alloc: Global,
    commands: Vec<Numbered>,
    sink: &mut K,
    replicas: &mut Vec<R>,
) -> Report
    requires lawful { All IsLawful commands.items }
    requires count { length replicas.old.items ≡ 32 }
    ensures plays { AreEmpty R.segments replicas.old.items
        → PlaysBy R.segments R.faults (part_of (Ok commands.items)) (length commands.items) result.status
        (K.written sink.old) (K.written sink.new) replicas.old.items replicas.new.items }
    ensures code { TellsCode result.status result.code (K.written sink.old) (K.written sink.new) }
    ensures count { (result.status ≡ Status.NoMemory → ⊥) → length replicas.new.items ≡ 32 }
    ensures counts { NoneFell R.faults replicas.old.items replicas.new.items }
    ensures status { MayComeTo result.status }
    ensures cause { HasStatusCause Status.WriteFault result.status (K.faults sink.old) (K.faults sink.new) }
    ensures replica_cause { result.status ≡ Status.ReplicaFault
        → RoseInRounds MOST_FAULTS (replica_counts R.faults replicas.old.items) (replica_counts R.faults replicas.new.items) }
{
    let opening = match read_opening(commands.as_slice()) {
        Ok(opening) => opening,
        Err(line) => return refuse(alloc, line, rk_cluster::Code::TooLate.number(), sink),
    };
    let others = Coming::behind(commands, opening.count);
    play_opened(alloc, opening, others, sink, replicas)
}

// Plays commands in the cluster that an opening asks for.
fn play_opened<K: Sink, R: Replica + Drop>(
    alloc: Global,
    opening: Opening,
    commands: Coming,
    sink: &mut K,
    replicas: &mut Vec<R>,
) -> Report
    requires lawful { All IsLawful commands }
    requires setting { IsSetting (setting_of opening) }
    requires count { length replicas.old.items ≡ 32 }
    ensures plays { AreEmpty R.segments replicas.old.items
        → PlaysBy R.segments R.faults (part_in commands (cluster_by (setting_of opening))) (length commands) result.status
        (K.written sink.old) (K.written sink.new) replicas.old.items replicas.new.items }
    ensures code { TellsCode result.status result.code (K.written sink.old) (K.written sink.new) }
    ensures count { (result.status ≡ Status.NoMemory → ⊥) → length replicas.new.items ≡ 32 }
    ensures counts { NoneFell R.faults replicas.old.items replicas.new.items }
    ensures status { MayComeTo result.status }
    ensures cause { HasStatusCause Status.WriteFault result.status (K.faults sink.old) (K.faults sink.new) }
    ensures replica_cause { result.status ≡ Status.ReplicaFault
        → RoseInRounds MOST_FAULTS (replica_counts R.faults replicas.old.items) (replica_counts R.faults replicas.new.items) }
{
    let masters = opening.masters.unwrap_or(DEFAULT_COUNT);
    let backups = opening.backups.unwrap_or(DEFAULT_COUNT);
    let Ok((its, room)) = lend(alloc, backups, replicas) else {
        return Report::of(Status::NoMemory);
    };
    let Ok(mut cluster) = Cluster::with_replicas(alloc, masters, backups, its) else {
        return Report::of(Status::NoMemory);
    };
    let mut held = Vec::new(alloc);
    let end = run_all(alloc, &mut cluster, commands, &mut held, sink);
    if let End::NoMemory = end {
        return Report::of(Status::NoMemory);
    }
    give_back(cluster, room, replicas);
    conclude(end, held, sink)
}

// Writes what is held back of a run, and behind it the refusal if it was refused.
#[tactic(auto, using(crate::proofs::Reporting::told_apart, crate::proofs::Reporting::told_refused))]
fn conclude<K: Sink>(end: End, held: Vec<u8>, sink: &mut K) -> Report
    ensures concludes { ConcludesBy end held.items result.status (K.written sink.old) (K.written sink.new) }
    ensures code { TellsCode result.status result.code (K.written sink.old) (K.written sink.new) }
    ensures cause { (end ≡ End.WriteFault → ⊥) → HasStatusCause Status.WriteFault result.status (K.faults sink.old) (K.faults sink.new) }
    ensures kept { end ≡ End.WriteFault → K.faults sink.new ≡ K.faults sink.old }
{
    match end {
        End::Done => Report::of(write(held.as_slice(), Status::Done, sink)),
        End::Stopped { line, error } => stop(line, error, held, sink),
        End::WriteFault => Report::of(Status::WriteFault),
        End::NoMemory => Report::of(Status::NoMemory),
    }
}

// Writes what is held back of a run that stops at a line, and behind it the refusal if it is refused.
#[tactic(auto, using(crate::proofs::Reporting::told_apart, crate::proofs::Reporting::told_refused))]
fn stop<K: Sink>(line: u32, error: PlayError, held: Vec<u8>, sink: &mut K) -> Report
    ensures concludes { (cluster : Whole) → Concludes (stopped_at line (stop_by error) cluster) held.items result.status (K.written sink.old) (K.written sink.new) }
    ensures code { TellsCode result.status result.code (K.written sink.old) (K.written sink.new) }
    ensures cause { HasStatusCause Status.WriteFault result.status (K.faults sink.old) (K.faults sink.new) }
{
    let mut held = held;
    match error {
        PlayError::NoMemory => Report::of(Status::NoMemory),
        PlayError::Worn(_) => Report::of(write(held.as_slice(), Status::Worn, sink)),
        PlayError::Replica(_) => Report::of(write(held.as_slice(), Status::ReplicaFault, sink)),
        PlayError::Refused(code) => {
            if push_refused(&mut held, line, code.number()).is_err() {
                return Report::of(Status::NoMemory);
            }
            Report::refused(write(held.as_slice(), Status::Refused, sink), code.number())
        }
    }
}

// Writes the rest of a text, and answers the status of the run.
fn write<K: Sink>(text: &[u8], status: Status, sink: &mut K) -> Status
    requires { status ≡ Status.WriteFault → ⊥ }
    ensures written { IsWritten text.now status result (K.written sink.old) (K.written sink.new) }
    ensures cause { HasStatusCause Status.WriteFault result (K.faults sink.old) (K.faults sink.new) }
{
    match put_all(sink, text) {
        Ok(()) => status,
        Err(_) => Status::WriteFault,
    }
}

// Refuses a line with a code, which is all that is written.
#[tactic(auto, using(crate::proofs::Reporting::told_apart, crate::proofs::Reporting::told_refused))]
fn refuse<K: Sink>(alloc: Global, line: u32, code: u8, sink: &mut K) -> Report
    ensures concludes { (cluster : Whole) → Concludes (refused_at line code cluster) [] result.status (K.written sink.old) (K.written sink.new) }
    ensures code { TellsCode result.status result.code (K.written sink.old) (K.written sink.new) }
    ensures cause { HasStatusCause Status.WriteFault result.status (K.faults sink.old) (K.faults sink.new) }
{
    let mut text = Vec::new(alloc);
    if push_refused(&mut text, line, code).is_err() {
        return Report::of(Status::NoMemory);
    }
    Report::refused(write(text.as_slice(), Status::Refused, sink), code)
}
