//! The commands `solve` and `locate`, and by whom a problem is solved.

ghost use Rattle.std.specs.Prelude.{◌≡◌, ◌<◌, ◌++◌, IfOk};
ghost use Rattle.std.specs.List.{AllByRecursion, list_any};
ghost use Rattle.cgs_board.specs.History.{HasQuit};
ghost use Rattle.cgs_entry.specs.Entries.{IsEntry, is_refused};
ghost use Rattle.cgs_problem.specs.Problems.{IsProblem};
ghost use Rattle.cgs_print.specs.Printing.{list_text};
ghost use Rattle.cgs_print.specs.History.{history_text};
ghost use Rattle.cgs_program.specs.Due.{entries_within, limits_of, list_answer, located_answer, status_of, IsThe, IsWhole};
ghost use Rattle.cgs_program.specs.Run.{IsFoundBy, MaySolve, Solves, Makes};

use crate::faults::NO_POINT;
use crate::reply::{Halt, Reply, fault_reply};
use crate::status::Status;
use cgs_board::EventList;
use cgs_entry::{Entry, EntryList};
use cgs_list::ItemList;
use cgs_print::{history_text, list_text, located_text};
use cgs_problem::Problem;
use cgs_split::Limits;
use cgs_system::{Solution, solve, solve_alone};
use cgs_words::Plan;
use cgs_worker::Gate;
use std::alloc::{AllocError, Global};
use std::sync::Wait;
use std::thread::Threads;

/// What is found of a problem within the limits of a plan, by workers in threads. It may wait.
pub(crate) fn solved<R: Threads + Wait + Sync, G: Gate + Sync>(
    rt: &R,
    alloc: Global,
    plan: Plan,
    problem: &Problem,
    gate: &G,
) -> Result<Solution, AllocError>
    requires workers { 0 < plan.workers }
    requires problem { IsProblem problem.now }
    ensures { IfOk result (IsFoundBy plan problem.now) }
{
    solve(rt, alloc, problem, &limits_of(plan), plan.workers, gate)
}

/// The same by one worker, which does the work of all.
pub(crate) fn solved_alone(
    alloc: Global,
    plan: Plan,
    problem: &Problem,
) -> Result<Solution, AllocError>
    requires workers { 0 < plan.workers }
    requires problem { IsProblem problem.now }
    ensures { IfOk result (IsFoundBy plan problem.now) }
{
    solve_alone(alloc, problem, &limits_of(plan))
}

/// The limits of a plan.
fn limits_of(plan: Plan) -> Limits
    ensures { result ≡ limits_of plan }
{
    Limits {
        budget: plan.budget,
        depth: plan.depth,
    }
}

/// What is found of a problem, by a way of solving problems.
pub(crate) fn found_by<F: Fn(Plan, &Problem) -> Result<Solution, AllocError>>(
    plan: Plan,
    problem: &Problem,
    solve: &F,
) -> Result<Solution, AllocError>
    requires problem { IsProblem problem.now }
    requires workers { 0 < plan.workers }
    requires callable { MaySolve F.Fn solve.now }
    requires solves { Solves F.Fn solve.now }
    ensures { IfOk result (IsFoundBy plan problem.now) }
{
    solve(plan, problem)
}

/// What `solve` answers: the list of the entries, and the history where it is asked.
pub(crate) fn list_reply<F: Fn(Plan, &Problem) -> Result<Solution, AllocError>>(
    alloc: Global,
    plan: Plan,
    problem: &Problem,
    solve: &F,
) -> Result<Reply, Halt>
    requires problem { IsProblem problem.now }
    requires workers { 0 < plan.workers }
    requires callable { MaySolve F.Fn solve.now }
    requires solves { Solves F.Fn solve.now }
    ensures { Makes result (IsWhole plan.history plan problem.now (list_answer problem.now (entries_within (limits_of plan) problem.now))) }
{
    let solution = found_by(plan, problem, solve)?;
    let reply = listed(alloc, problem, &solution.entries)?;
    if plan.history {
        with_history(reply, &solution.history)
    } else {
        Ok(reply)
    }
}

/// The reply that lists entries.
fn listed(alloc: Global, problem: &Problem, entries: &EntryList) -> Result<Reply, Halt>
    requires problem { IsProblem problem.now }
    requires entries { AllByRecursion (IsEntry problem.now.ring) entries.now }
    ensures { Makes result (IsThe (list_answer problem.now entries.now)) }
{
    let mut text = ItemList::new(alloc);
    list_text(problem, entries, &mut text)?;
    Ok(Reply {
        text,
        status: status_of(has_refused(entries.as_slice())),
    })
}

/// A reply with a history after it.
fn with_history(reply: Reply, events: &EventList) -> Result<Reply, Halt>
    requires { HasQuit events.now → ⊥ }
    ensures { Makes result (λ text end. (text ≡ reply.text ++ history_text events.now) × (end ≡ reply.status)) }
{
    let mut text = reply.text;
    history_text(events, &mut text)?;
    Ok(Reply {
        text,
        status: reply.status,
    })
}

/// What `locate` answers: where the points of the problem lie among the entries, or that there is no point.
pub(crate) fn located_reply<F: Fn(Plan, &Problem) -> Result<Solution, AllocError>>(
    alloc: Global,
    plan: Plan,
    problem: &Problem,
    solve: &F,
) -> Result<Reply, Halt>
    requires problem { IsProblem problem.now }
    requires workers { 0 < plan.workers }
    requires callable { MaySolve F.Fn solve.now }
    requires solves { Solves F.Fn solve.now }
    ensures { Makes result (IsThe (located_answer problem.now (entries_within (limits_of plan) problem.now))) }
{
    if problem.points.len() == 0 {
        return fault_reply(alloc, NO_POINT);
    }
    let solution = found_by(plan, problem, solve)?;
    let mut text = ItemList::new(alloc);
    located_text(alloc, problem, &solution.entries, &mut text)?;
    Ok(Reply {
        text,
        status: status_of(has_refused(solution.entries.as_slice())),
    })
}

/// Whether an entry is refused.
pub(crate) fn has_refused(entries: &[Entry]) -> bool
    ensures { result ≡ list_any is_refused entries.now }
{
    for entry in entries {
        if entry.is_refused() {
            return true;
        }
    }
    false
}

/// The status of a text of which a part is a refusal, or none is.
pub(crate) fn status_of(refused: bool) -> Status
    ensures { result ≡ status_of refused }
{
    if refused {
        Status::Partial
    } else {
        Status::Done
    }
}
