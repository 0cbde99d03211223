//! Rocksteady: live migration of tablets between log-structured key-value masters, with exactly-once calls.
//!
//! `rocksteady play` reads a script from standard input and writes its text to standard output. `rocksteady drive` runs clients, a
//! migration and a crash on threads, and writes the outcome. It builds on `rk_play` and `rk_drive`; [`run::run`] is the top call, whose
//! contract ties the bytes written to those of the script, or to one history of the calls that the clients made.
#![tactic(auto)]

mod hint;
mod progress;
mod run;

ghost use Rattle.std.specs.Prelude.{◌≡◌, ◌≢◌, drop, map, true, IfErr, IfOk, IfSome, IsErr, IsOk, Some, string_bytes, vec_len};
ghost use Rattle.std.specs.List.{All};
ghost use Rattle.std.specs.IoError.{error_kind};
ghost use Rattle.std.specs.Vec.Iter.{into_iter_items};
ghost use Rattle.rk_outside.specs.Replicas.{new_replica, segments_of};
ghost use Rattle.rk_drive.specs.Words.{plan_in};
ghost use Rattle.rk_play.specs.Reports.{TellsCode};
ghost use Rattle.rocksteady.specs.Run.{DrivesOver, IsPlayed, Refuses};
ghost use Rattle.rocksteady.specs.Words.{IsNoForm, is_play, words_after};

use hint::meaning;
use progress::Progress;
use rk_drive::Watch;
use rk_outside::{Gate, MemoryReplica, Sink, Source, StdSink, StdSource};
use rk_play::Report;
use rk_types::{NoMemory, Status};
use std::alloc::Global;
use std::env::{self, Args};
use std::io::{self, ErrorKind, IsTerminal};
use std::process::ExitCode;
use std::sync::Wait;
use std::thread::Threads;

/// The variable of the environment that asks a drive for its progress if standard error is no terminal.
const PROGRESS: &str = "ROCKSTEADY_PROGRESS";

/// How many replicas a run has: one for each of four backups and eight lanes.
const REPLICAS: usize = rk_types::REPLICAS;

// The replicas of a run, which hold nothing, and no call of which fails.
fn replicas(alloc: Global) -> Result<Vec<MemoryReplica<'static>>, NoMemory>
    ensures count { IfOk result (λ replicas. vec_len replicas ≡ REPLICAS) }
    ensures new { IfOk result (λ replicas. All (λ replica. replica ≡ new_replica) replicas.items) }
{
    let mut replicas = Vec::with_capacity(alloc, REPLICAS)?;
    'replicas: while replicas.len() < REPLICAS {
        replicas.push(MemoryReplica::new(alloc))?;
    }
    Ok(replicas)
}

// The words after the first, which is the name of the program.
fn after_name(alloc: Global, words: Args) -> Result<Vec<String>, NoMemory>
    ensures { IfOk result (λ after. after.items ≡ drop 1 (into_iter_items words)) }
{
    Ok(words.skip(1).collect(alloc)?)
}

// The words after the program's name. If one of them is not text, there are none, which is no form of the program.
fn given_words(alloc: Global, given: io::Result<Args>) -> Result<Vec<String>, NoMemory>
    ensures words { IfOk result (λ words. words.items ≡ words_after given) }
    ensures memory { IfErr given (λ e. error_kind e ≡ ErrorKind.OutOfMemory → IsErr result) }
    ensures not_text { IfErr given (λ e. error_kind e ≢ ErrorKind.OutOfMemory → IsOk result) }
{
    match given {
        Ok(words) => after_name(alloc, words),
        Err(e) if e.kind() == ErrorKind::OutOfMemory => Err(NoMemory),
        Err(_) => Ok(Vec::new(alloc)),
    }
}

// Runs the program with the words that the system gave it, over new replicas.
fn start<X: Threads + Wait + Sync, S: Source, K: Sink, G: Gate + Watch + Sync>(
    rt: &X,
    alloc: Global,
    given: io::Result<Args>,
    source: &mut S,
    sink: &mut K,
    gate: &G,
) -> Report
    ensures play { is_play (map string_bytes (words_after given)) ≡ true → IfSome (S.left source.old) (λ script.
        IsPlayed script result.status (K.written sink.old) (K.written sink.new)) }
    ensures drives { IfOk (plan_in (map string_bytes (words_after given))) (λ plan.
        DrivesOver (λ replica. Some (segments_of replica)) plan result.status (K.written sink.old) (K.written sink.new)) }
    ensures wrong_words { IsNoForm (map string_bytes (words_after given)) → result.status ≢ Status.NoMemory →
        Refuses result.status (K.written sink.old) (K.written sink.new) }
    ensures code { TellsCode result.status result.code (K.written sink.old) (K.written sink.new) }
{
    let Ok(words) = given_words(alloc, given) else {
        return Report::of(Status::NoMemory);
    };
    let Ok(mut replicas) = replicas(alloc) else {
        return Report::of(Status::NoMemory);
    };
    run::run(
        rt,
        alloc,
        words.as_slice(),
        source,
        sink,
        &mut replicas,
        gate,
    )
}

// Says on standard error what the code of a refusal means. If that cannot be said, the status and the text say enough.
fn tell_hint(rt: &HostRuntime, code: Option<u8>) {
    if let Some(hint) = code.and_then(meaning) {
        let _ = rt.eprintln(hint);
    }
}

// Whether the progress of a drive is shown: on a terminal, or if a variable asks for it.
fn shows_progress(rt: &HostRuntime) -> bool {
    rt.stderr().is_terminal() || env::var(rt, PROGRESS).is_ok()
}

fn main(rt: HostRuntime) -> ExitCode {
    let progress = Progress::new(&rt, shows_progress(&rt));
    let mut source = StdSource::new(rt.reader());
    let mut sink = StdSink::new(io::writer(&rt));
    let report = start(
        &rt,
        rt.alloc(),
        env::args(&rt),
        &mut source,
        &mut sink,
        &progress,
    );
    tell_hint(&rt, report.code);
    ExitCode::from(report.status.number())
}
