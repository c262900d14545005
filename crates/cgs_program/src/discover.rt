//! The command `discover`.

ghost use Rattle.std.specs.Prelude.{◌≡◌, ◌<◌, ◌||◌, Some, None, IfOk, IsErrOf};
ghost use Rattle.std.specs.List.{list_any};
ghost use Rattle.cgs_discover.specs.Refutation.{refutation, with_thesis};
ghost use Rattle.cgs_entry.specs.Entries.{is_refused};
ghost use Rattle.cgs_problem.specs.Problems.{IsProblem};
ghost use Rattle.cgs_program.specs.Due.{limits_of, discovered_answer, pair_answer, IsThe};
ghost use Rattle.cgs_program.specs.Run.{IsRefutable, MaySolve, Solves, Makes};

use crate::faults::NO_THESIS;
use crate::reply::{Halt, Reply, fault_reply};
use crate::solve::{found_by, has_refused, status_of};
use cgs_discover::{DiscoverFault, refutation, with_thesis};
use cgs_entry::Entry;
use cgs_list::ItemList;
use cgs_print::discovered_text;
use cgs_problem::Problem;
use cgs_system::Solution;
use cgs_words::Plan;
use std::alloc::{AllocError, Global};

/// What `discover` answers: the lists of the refutation and of the problem with its thesis, or that there is no thesis.
pub(crate) fn discovered_reply<F: Fn(Plan, &Problem) -> Result<Solution, AllocError>>(
    alloc: Global,
    plan: Plan,
    problem: &Problem,
    solve: &F,
) -> Result<Reply, Halt>
    requires problem { IsProblem problem.now }
    requires refutable { IsRefutable problem.now }
    requires workers { 0 < plan.workers }
    requires callable { MaySolve F.Fn solve.now }
    requires solves { Solves F.Fn solve.now }
    ensures { Makes result (IsThe (discovered_answer (limits_of plan) problem.now problem.now.thesis)) }
{
    match both_problems(alloc, problem) {
        Ok((refutation, extension)) => pair_reply(alloc, plan, &refutation, &extension, solve),
        Err(DiscoverFault::NoThesis) => fault_reply(alloc, NO_THESIS),
        Err(DiscoverFault::OutOfMemory) => Err(Halt::Memory),
    }
}

/// The refutation of a problem, and the problem with its thesis.
fn both_problems(alloc: Global, problem: &Problem) -> Result<(Problem, Problem), DiscoverFault>
    requires problem { IsProblem problem.now }
    requires refutable { IsRefutable problem.now }
    ensures refutation { IfOk result (λ pair. refutation problem.now ≡ Some pair.0) }
    ensures extension { IfOk result (λ pair. with_thesis problem.now ≡ Some pair.1) }
    ensures valid { IfOk result (λ pair. IsProblem pair.0 × IsProblem pair.1) }
    ensures no_thesis { IsErrOf result DiscoverFault.NoThesis → problem.now.thesis ≡ None }
{
    let refutation = refutation(alloc, problem)?;
    let extension = with_thesis(alloc, problem)?;
    Ok((refutation, extension))
}

/// The lists of both problems.
fn pair_reply<F: Fn(Plan, &Problem) -> Result<Solution, AllocError>>(
    alloc: Global,
    plan: Plan,
    refutation: &Problem,
    extension: &Problem,
    solve: &F,
) -> Result<Reply, Halt>
    requires refutation { IsProblem refutation.now }
    requires extension { IsProblem extension.now }
    requires workers { 0 < plan.workers }
    requires callable { MaySolve F.Fn solve.now }
    requires solves { Solves F.Fn solve.now }
    ensures { Makes result (IsThe (pair_answer (limits_of plan) refutation.now extension.now)) }
{
    let refuted = found_by(plan, refutation, solve)?;
    let extended = found_by(plan, extension, solve)?;
    let mut text = ItemList::new(alloc);
    discovered_text(
        refutation,
        &refuted.entries,
        extension,
        &extended.entries,
        &mut text,
    )?;
    let refused = has_refused_in_either(refuted.entries.as_slice(), extended.entries.as_slice());
    Ok(Reply {
        text,
        status: status_of(refused),
    })
}

/// Whether an entry of either list is refused.
fn has_refused_in_either(first: &[Entry], second: &[Entry]) -> bool
    ensures { result ≡ (list_any is_refused first.now || list_any is_refused second.now) }
{
    has_refused(first) || has_refused(second)
}
