//! The system by workers in threads.

ghost use Rattle.std.specs.Prelude.{◌≡◌, ◌<◌, IfOk};
ghost use Rattle.std.specs.List.{AllByRecursion};
ghost use Rattle.cgs_board.specs.History.{IsComplete};
ghost use Rattle.cgs_problem.specs.Problems.{IsProblem};
ghost use Rattle.cgs_entry.specs.Entries.{IsComprehensive, IsEntry};
ghost use Rattle.cgs_split.specs.Laws.{entry_list, IsConsistentIfTested};
ghost use Rattle.cgs_split.specs.NodeRun.{node_of};
ghost use Rattle.cgs_split.specs.Trees.{root_case};
ghost use Rattle.cgs_system.specs.ExactList.{IsExactList, IsTested};

use crate::solution::{Solution, solution_of};
use cgs_problem::Problem;
use cgs_split::{Limits, root_branch};
use cgs_worker::{Gate, run_board};
use std::alloc::{AllocError, Global};
use std::sync::Wait;
use std::thread::Threads;

/// The entries of the tree of a problem's branch, in path order, by as many workers, each in a thread. It may wait.
pub fn solve<R: Threads + Wait + Sync, G: Gate + Sync>(
    rt: &R,
    alloc: Global,
    problem: &Problem,
    limits: &Limits,
    workers: u32,
    gate: &G,
) -> Result<Solution, AllocError>
    requires problem { IsProblem problem.now }
    requires workers { 0 < workers }
    ensures list { IfOk result (λ solution. solution.entries ≡ entry_list problem.now.ring limits.now problem.now.zero problem.now.nonzero problem.now.polys) }
    ensures history { IfOk result (λ solution. IsComplete node_of (root_case problem.now.ring limits.now problem.now.zero problem.now.nonzero problem.now.polys) workers solution.history) }
    ensures comprehensive { IfOk result (λ solution. IsComprehensive problem.now.ring problem.now.zero problem.now.nonzero problem.now.polys solution.entries) }
    ensures exact { IfOk result (λ solution. AllByRecursion IsTested solution.entries → IsExactList problem.now.ring problem.now.zero problem.now.nonzero problem.now.polys solution.entries) }
    ensures of_ring { IfOk result (λ solution. AllByRecursion (IsEntry problem.now.ring) solution.entries) }
    ensures consistent { IfOk result (λ solution. AllByRecursion (IsConsistentIfTested problem.now.ring) solution.entries) }
{
    let root = root_branch(alloc, problem, limits)?;
    let board = run_board(rt, alloc, root, workers, gate)?;
    solution_of(alloc, board)
}
