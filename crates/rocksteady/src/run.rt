ghost use Rattle.std.specs.Prelude.{◌≡◌, ◌⊎◌, ◌+◌, map, length, true, false, IfOk, IfSome, string_bytes};
ghost use Rattle.std.specs.Io.KnownBytes.{IsAtEnd};
ghost use Rattle.rk_cluster.specs.Fresh.{AreEmpty};
ghost use Rattle.rk_outside.specs.Parts.{ConsumesBetween};
ghost use Rattle.rk_settle.specs.Faults.{RoseInRounds};
ghost use Rattle.rk_scripts.specs.play.Alone.{NoneRose};
ghost use Rattle.rk_play.specs.Reports.{TellsCode};
ghost use Rattle.rk_play.specs.Runs.{HasStatusCause, IsRead, NoneFell, replica_counts};
ghost use Rattle.rk_conclude.specs.Concluded.{MayEnd};
ghost use Rattle.rk_drive.specs.Outcomes.{Drives, EndsDone};
ghost use Rattle.rk_drive.specs.Words.{plan_in};
ghost use Rattle.rocksteady.specs.Run.{EndsUnfailed, IsSmooth, PlaysOneMap, Refuses};
ghost use Rattle.rocksteady.specs.Words.{IsNoForm, is_play};

use rk_drive::{Watch, drive, plan_of};
use rk_outside::{Gate, PIECE, Replica, Sink, Source, put_all};
use rk_play::{Report, play};
use rk_script::LONGEST_SCRIPT;
use rk_types::Status;
use std::alloc::Global;
use std::sync::Wait;
use std::thread::Threads;

/// What is written if the words are none of the forms of the program: the two forms.
pub const USAGE: &[u8] =
    b"usage: rocksteady play\nusage: rocksteady drive CLIENTS CALLS KEYS [crash M AFTER] [history]\n";

// Whether the words are those of a play.
fn are_play(words: &[String]) -> bool
    ensures { result ≡ is_play (map string_bytes words.now) }
{
    match words {
        [word] => word.as_str() == "play",
        _ => false,
    }
}

// Writes the forms of the program.
fn write_usage<K: Sink>(sink: &mut K) -> Status
    ensures refuses { Refuses result (K.written sink.old) (K.written sink.new) }
    ensures cause { HasStatusCause Status.WriteFault result (K.faults sink.old) (K.faults sink.new) }
{
    match put_all(sink, USAGE) {
        Ok(()) => Status::Usage,
        Err(_) => Status::WriteFault,
    }
}

/// Runs the program with these words, which follow its name. `play` plays the script that the source has, and writes its text to the sink.
/// `drive` and its plan run clients, a migration and, if asked for, a crash on threads, and write the outcome; the source is not read. With
/// any other words nothing is read either, and the forms of the program are written. Answered are the status and, of a refused script, the
/// code that was written.
///
/// The replicas hold nothing at the start; backup b of lane l has the one at place 8 * (b - 1) + l, counted from 0. The clause `play` says
/// of the script played, and `drives` and `driven` of the plan driven, what each status means for the sink and the replicas. A fault of
/// the source, the sink or the replicas comes only if a count of theirs rose in this call, and `Done` of a script only once the source has
/// given its end. A script that is too long is read up to one piece past the longest.
pub fn run<
    X: Threads + Wait + Sync,
    S: Source,
    K: Sink,
    R: Replica + Send + Drop,
    G: Gate + Watch + Sync,
>(
    rt: &X,
    alloc: Global,
    words: &[String],
    source: &mut S,
    sink: &mut K,
    replicas: &mut Vec<R>,
    gate: &G,
) -> Report
    requires { length replicas.old.items ≡ 32 }

    // By the status: what the sink holds afterwards, what the replicas report, and how often each of them failed. The run that this speaks
    // of is one of the definitions, whatever failed: its replies are the receipts of the sessions, client by client, its journals make one
    // lawful history that is ordered with the sessions, each lane is sound at each step, each migration that ends leaves the old tablet
    // overlaid by later writes, and each refusal is justified. If no replica's count of faults rose it is the run of the script alone.
    ensures play { is_play (map string_bytes words.now) ≡ true → AreEmpty R.segments replicas.old.items
        → IfSome (S.left source.old) (λ script. PlaysOneMap R.segments R.faults script result.status (K.written sink.old) (K.written sink.new)
        replicas.old.items replicas.new.items) }

    // A script that meets no code and no lane that is worn is done, or memory was wanting, if neither source, sink nor replica failed.
    ensures complete { is_play (map string_bytes words.now) ≡ true → AreEmpty R.segments replicas.old.items
        → IfSome (S.left source.old) (λ script. IsSmooth script
        → NoneRose (replica_counts R.faults replicas.old.items) (replica_counts R.faults replicas.new.items)
        → (result.status ≡ Status.ReadFault → ⊥) → (result.status ≡ Status.WriteFault → ⊥) → (result.status ≡ Status.Done) ⊎ (result.status ≡ Status.NoMemory)) }

    // A drive either runs out of memory and writes nothing, or all calls of the plan were answered: then its lanes and sessions come to
    // rest, its receipts are held against the journals, and the outcome is written.
    ensures drives { IfOk (plan_in (map string_bytes words.now)) (λ plan. Drives R.segments plan (K.written sink.old) (K.written sink.new)
        replicas.old.items replicas.new.items result.status) }

    // A drive that is done: no call is outstanding, the receipts are the calls of the workload, and the journals make one lawful history,
    // ordered with the sessions, which has the answer of each of these calls once and nothing else. The lanes are quiet, and the logs that
    // the replicas hold give the map of that history. Its entries are written if the plan asks for them, and the summary.
    ensures driven { IfOk (plan_in (map string_bytes words.now)) (λ plan. AreEmpty R.segments replicas.old.items → result.status ≡ Status.Done
        → EndsDone R.segments plan (K.written sink.old) (K.written sink.new) replicas.old.items replicas.new.items) }
    ensures drive_ends { IfOk (plan_in (map string_bytes words.now)) (λ _. MayEnd result.status) }

    // If neither the sink nor a replica failed, a drive that ends is done, or its audit differs, a lane is worn, or memory was wanting.
    ensures drive_complete { IfOk (plan_in (map string_bytes words.now)) (λ _.
        NoneRose (replica_counts R.faults replicas.old.items) (replica_counts R.faults replicas.new.items)
        → (result.status ≡ Status.WriteFault → ⊥) → EndsUnfailed result.status) }
    ensures wrong_words { IsNoForm (map string_bytes words.now) → Refuses result.status (K.written sink.old) (K.written sink.new) }

    // The code that is reported with a refusal is the code that was written.
    ensures code { TellsCode result.status result.code (K.written sink.old) (K.written sink.new) }

    // What is gone from the source.
    ensures unread { is_play (map string_bytes words.now) ≡ false → source.new ≡ source.old }
    ensures all_read { is_play (map string_bytes words.now) ≡ true → result.status ≡ Status.Done → IsAtEnd (S.left source.new) }
    ensures read { result.status ≡ Status.Refused → IfSome (S.left source.old) (λ script. IsRead script (S.left source.new)) }
    ensures most_read { is_play (map string_bytes words.now) ≡ true →
        ConsumesBetween (S.left source.old) (S.left source.new) 0 (LONGEST_SCRIPT + PIECE) }

    // When a status may come, also if the source, the sink and the replicas report nothing.
    ensures usage_only_then { result.status ≡ Status.Usage → IsNoForm (map string_bytes words.now) }
    ensures audit_only_then { result.status ≡ Status.Audit → is_play (map string_bytes words.now) ≡ false }
    ensures read_cause { HasStatusCause Status.ReadFault result.status (S.faults source.old) (S.faults source.new) }
    ensures write_cause { HasStatusCause Status.WriteFault result.status (K.faults sink.old) (K.faults sink.new) }

    // Replicas failed too often only after a hundred rounds, in each of which the count of some replica rose.
    ensures replica_cause { result.status ≡ Status.ReplicaFault
        → RoseInRounds 100 (replica_counts R.faults replicas.old.items) (replica_counts R.faults replicas.new.items) }

    // The replicas that come back: all, or, if memory was wanting, maybe none. On every status, no count of their faults falls.
    ensures untouched { IsNoForm (map string_bytes words.now) → replicas.new.items ≡ replicas.old.items }
    ensures unread_untouched { result.status ≡ Status.ReadFault → replicas.new.items ≡ replicas.old.items }
    ensures count { (result.status ≡ Status.NoMemory → ⊥) → length replicas.new.items ≡ 32 }
    ensures counts { NoneFell R.faults replicas.old.items replicas.new.items }
{
    if are_play(words) {
        return play(alloc, source, sink, replicas);
    }
    match plan_of(words) {
        Ok(plan) => Report::of(drive(rt, alloc, &plan, sink, replicas, gate)),
        Err(_) => Report::of(write_usage(sink)),
    }
}
