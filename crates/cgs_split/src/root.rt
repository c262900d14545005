//! The branch of a problem.

ghost use Rattle.std.specs.Prelude.{◌≡◌, IfOk};
ghost use Rattle.cgs_problem.specs.Problems.{IsProblem};
ghost use Rattle.cgs_split.specs.Soundness.{IsGood};
ghost use Rattle.cgs_split.specs.Trees.{root_case};

use crate::branch::Branch;
use crate::kind::{BranchKind, Limits};
use crate::lists::with_conditions;
use cgs_entry::Conditions;
use cgs_list::Duplicate;
use cgs_poly::PolyList;
use cgs_problem::Problem;
use std::alloc::{AllocError, Global};

/// The branch of a problem's polynomials under its conditions.
pub fn root_branch(alloc: Global, problem: &Problem, limits: &Limits) -> Result<Branch, AllocError>
    requires { IsProblem problem.now }
    ensures value { IfOk result (λ branch. branch ≡ root_case problem.now.ring limits.now problem.now.zero problem.now.nonzero problem.now.polys) }
    ensures good { IfOk result (λ branch. IsGood branch.ring branch) }
{
    let none = PolyList::new(alloc);
    let zero = with_conditions(alloc, &problem.ring, &none, &problem.zero)?;
    let nonzero = with_conditions(alloc, &problem.ring, &none, &problem.nonzero)?;
    let polys = problem.polys.copy()?.shared()?;
    Ok(Branch {
        ring: problem.ring,
        limits: *limits,
        kind: BranchKind::Split,
        conditions: Conditions { zero, nonzero },
        polys,
        vanishing: None,
    })
}
