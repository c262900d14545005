//! The command `basis`.

ghost use Rattle.cgs_poly.specs.Polynomial.{ArePolys};
ghost use Rattle.cgs_basis.specs.BasisRun.{basis_run};
ghost use Rattle.cgs_problem.specs.Problems.{IsProblem};
ghost use Rattle.cgs_print.specs.Printing.{basis_text, refusal_text};
ghost use Rattle.cgs_program.specs.declared.status.Status.TheVariants.{Done, Partial};
ghost use Rattle.cgs_program.specs.Due.{answer, basis_answer, generators_of, IsThe};
ghost use Rattle.cgs_program.specs.Run.{Makes};

use crate::reply::{Halt, Reply};
use crate::status::Status;
use cgs_basis::reduced_basis;
use cgs_divide::Stop;
use cgs_entry::Cause;
use cgs_list::ItemList;
use cgs_poly::{PolyList, joined};
use cgs_print::{basis_text, refusal_text};
use cgs_problem::Problem;
use std::alloc::Global;

/// The reduced Gröbner basis of the polynomials and of those that have to vanish, in so many units, or why there is none.
pub(crate) fn basis_reply(alloc: Global, budget: u64, problem: &Problem) -> Result<Reply, Halt>
    requires { IsProblem problem.now }
    ensures { Makes result (IsThe (basis_answer problem.now (basis_run problem.now.ring (generators_of problem.now) budget))) }
{
    let generators = joined(alloc, &problem.polys, &problem.zero)?;
    let mut fuel = budget;
    match reduced_basis(alloc, &problem.ring, &generators, &mut fuel) {
        Ok(basis) => found(alloc, problem, &basis),
        Err(Stop::Budget) => refused(alloc, Cause::Budget),
        Err(Stop::Degree) => refused(alloc, Cause::Degree),
        Err(Stop::OutOfMemory) => Err(Halt::Memory),
    }
}

/// The reply with a basis.
fn found(alloc: Global, problem: &Problem, basis: &PolyList) -> Result<Reply, Halt>
    requires problem { IsProblem problem.now }
    requires basis { ArePolys problem.now.ring basis.now }
    ensures { Makes result (IsThe (answer (basis_text problem.now basis.now) Done)) }
{
    let mut text = ItemList::new(alloc);
    basis_text(problem, basis, &mut text)?;
    Ok(Reply {
        text,
        status: Status::Done,
    })
}

/// The reply without a basis.
fn refused(alloc: Global, cause: Cause) -> Result<Reply, Halt>
    ensures { Makes result (IsThe (answer (refusal_text cause) Partial)) }
{
    let mut text = ItemList::new(alloc);
    refusal_text(cause, &mut text)?;
    Ok(Reply {
        text,
        status: Status::Partial,
    })
}
