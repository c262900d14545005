//! The command `stress`.

ghost use Rattle.std.specs.Prelude.{◌<◌};
ghost use Rattle.cgs_problem.specs.Problems.{IsProblem};
ghost use Rattle.cgs_program.specs.Due.{entries_within, limits_of, summary_answer, IsThe};
ghost use Rattle.cgs_program.specs.Run.{MaySolve, Solves, Makes};

use crate::reply::{Halt, Reply};
use crate::solve::{found_by, has_refused, status_of};
use cgs_list::ItemList;
use cgs_print::summary_text;
use cgs_problem::Problem;
use cgs_system::Solution;
use cgs_words::Plan;
use std::alloc::{AllocError, Global};

/// What `stress` answers: the summary of the entries of the problem that the number made.
pub(crate) fn summary_reply<F: Fn(Plan, &Problem) -> Result<Solution, AllocError>>(
    alloc: Global,
    plan: Plan,
    number: u32,
    problem: &Problem,
    solve: &F,
) -> Result<Reply, Halt>
    requires problem { IsProblem problem.now }
    requires workers { 0 < plan.workers }
    requires callable { MaySolve F.Fn solve.now }
    requires solves { Solves F.Fn solve.now }
    ensures { Makes result (IsThe (summary_answer number problem.now (entries_within (limits_of plan) problem.now))) }
{
    let solution = found_by(plan, problem, solve)?;
    let mut text = ItemList::new(alloc);
    summary_text(alloc, number, problem, &solution.entries, &mut text)?;
    Ok(Reply {
        text,
        status: status_of(has_refused(solution.entries.as_slice())),
    })
}
