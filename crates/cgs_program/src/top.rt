//! The top call, by one worker or by many.

ghost use Rattle.std.specs.Prelude.{◌<◌};
ghost use Rattle.cgs_problem.specs.Problems.{IsProblem};
ghost use Rattle.cgs_program.specs.Run.{IsRun, Completes, MaySolve, Solves, Finishes, Delivers};
ghost use Rattle.cgs_program.specs.Promises.{KeepsBasis, KeepsSystem, KeepsLocated, KeepsDiscovered, KeepsSummary, KeepsAll};

use crate::faults::fault_line;
use crate::reply::{Halt, Reply, make_reply};
use crate::solve::{solved, solved_alone};
use crate::status::Status;
use cgs_io::{Failed, Sink, Source, WordList, write_all};
use cgs_problem::Problem;
use cgs_system::Solution;
use cgs_words::{Plan, read_words};
use cgs_worker::Gate;
use std::alloc::{AllocError, Global};
use std::sync::Wait;
use std::thread::Threads;

/// Does what the words ask for with what the source gives, writes the text due into the sink, and says how it ended. As many workers as the
/// words say solve a problem, each in a thread, and enter the gate between a claim and its work. It may wait for them.
pub fn run<R: Threads + Wait + Sync, S: Source, K: Sink, G: Gate + Sync>(
    rt: &R,
    alloc: Global,
    words: &WordList,
    source: &mut S,
    sink: &mut K,
    gate: &G,
) -> Status
    ensures run { IsRun words.now (S.seen source.old) (S.seen source.new) (K.seen sink.old) (K.seen sink.new) result }
    ensures complete { Completes words.now (S.seen source.old) (S.seen source.new) (K.seen sink.old) (K.seen sink.new) result }
    ensures basis { KeepsBasis words.now (S.seen source.old) (S.seen source.new) (K.seen sink.old) (K.seen sink.new) result }
    ensures system { KeepsSystem words.now (S.seen source.old) (S.seen source.new) (K.seen sink.old) (K.seen sink.new) result }
    ensures located { KeepsLocated words.now (S.seen source.old) (S.seen source.new) (K.seen sink.old) (K.seen sink.new) result }
    ensures discovered { KeepsDiscovered words.now (S.seen source.old) (S.seen source.new) (K.seen sink.old) (K.seen sink.new) result }
    ensures summary { KeepsSummary words.now (S.seen source.old) (S.seen source.new) (K.seen sink.old) (K.seen sink.new) result }
{
    run_words(
        alloc,
        words,
        source,
        sink,
        &|plan: Plan, problem: &Problem|
            requires workers { 0 < plan.workers }
            requires problem { IsProblem problem.now }
        { solved(rt, alloc, plan, problem, gate) },
    )
}

/// The same by one worker, which does the work of all. It never waits.
pub fn run_alone<S: Source, K: Sink>(
    alloc: Global,
    words: &WordList,
    source: &mut S,
    sink: &mut K,
) -> Status
    ensures run { IsRun words.now (S.seen source.old) (S.seen source.new) (K.seen sink.old) (K.seen sink.new) result }
    ensures complete { Completes words.now (S.seen source.old) (S.seen source.new) (K.seen sink.old) (K.seen sink.new) result }
    ensures basis { KeepsBasis words.now (S.seen source.old) (S.seen source.new) (K.seen sink.old) (K.seen sink.new) result }
    ensures system { KeepsSystem words.now (S.seen source.old) (S.seen source.new) (K.seen sink.old) (K.seen sink.new) result }
    ensures located { KeepsLocated words.now (S.seen source.old) (S.seen source.new) (K.seen sink.old) (K.seen sink.new) result }
    ensures discovered { KeepsDiscovered words.now (S.seen source.old) (S.seen source.new) (K.seen sink.old) (K.seen sink.new) result }
    ensures summary { KeepsSummary words.now (S.seen source.old) (S.seen source.new) (K.seen sink.old) (K.seen sink.new) result }
{
    run_words(
        alloc,
        words,
        source,
        sink,
        &|plan: Plan, problem: &Problem| solved_alone(alloc, plan, problem),
    )
}

/// The run, by a way of solving problems, with all that is promised of it.
fn run_words<S: Source, K: Sink, F: Fn(Plan, &Problem) -> Result<Solution, AllocError>>(
    alloc: Global,
    words: &WordList,
    source: &mut S,
    sink: &mut K,
    solve: &F,
) -> Status
    requires callable { MaySolve F.Fn solve.now }
    requires solves { Solves F.Fn solve.now }
    ensures { KeepsAll words.now (S.seen source.old) (S.seen source.new) (K.seen sink.old) (K.seen sink.new) result }
{
    run_plan(alloc, words, source, sink, solve)
}

/// The run itself; the other promises follow.
fn run_plan<S: Source, K: Sink, F: Fn(Plan, &Problem) -> Result<Solution, AllocError>>(
    alloc: Global,
    words: &WordList,
    source: &mut S,
    sink: &mut K,
    solve: &F,
) -> Status
    requires callable { MaySolve F.Fn solve.now }
    requires solves { Solves F.Fn solve.now }
    ensures { IsRun words.now (S.seen source.old) (S.seen source.new) (K.seen sink.old) (K.seen sink.new) result }
{
    let plan = match read_words(words) {
        Ok(plan) => plan,
        Err(fault) => return finish(sink, fault_line(fault), Status::Words),
    };
    let reply = make_reply(alloc, plan, source, solve);
    deliver(sink, reply)
}

/// Writes a reply that was made, or tells why there is none.
fn deliver<K: Sink>(sink: &mut K, reply: Result<Reply, Halt>) -> Status
    ensures { Delivers reply (K.seen sink.old) (K.seen sink.new) result }
{
    match reply {
        Ok(reply) => finish(sink, reply.text.as_slice(), reply.status),
        Err(Halt::Source) => Status::Source,
        Err(Halt::Memory) => Status::Memory,
    }
}

/// Writes the text. The status is `end`, unless the sink failed.
fn finish<K: Sink>(sink: &mut K, text: &[u8], end: Status) -> Status
    ensures { Finishes text.now end (K.seen sink.old) (K.seen sink.new) result }
{
    match write_all(sink, text) {
        Ok(()) => end,
        Err(Failed) => Status::Sink,
    }
}
