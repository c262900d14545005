//! The two problems.

ghost use Rattle.std.specs.Prelude.{◌≡◌, ◌≤◌, ◌↔◌, Some, None, [], ◌∷◌, bytes_eq, false, IfOk, IsErrOf};
ghost use Rattle.std.specs.List.{list_any};
ghost use Rattle.cgs_poly.specs.Polynomial.{IsPoly};
ghost use Rattle.cgs_problem.specs.Problems.{IsProblem, IsThesis};
ghost use Rattle.cgs_discover.specs.Refutation.{y_name, most_variables, refuted, extended, refutation, with_thesis};

use crate::copies::{copy_points, with_names};
use crate::fault::DiscoverFault;
use crate::lift::{lifted, with_variable, y_thesis};
use cgs_list::Duplicate;
use cgs_poly::Poly;
use cgs_problem::{NameList, Problem, Text};
use std::alloc::{AllocError, Global};

/// The problem with a new variable `_y`, which stands first, and with _y*T - 1 as the last of the polynomials, for the thesis T. It has
/// no thesis.
pub fn refutation(alloc: Global, problem: &Problem) -> Result<Problem, DiscoverFault>
    requires valid { IsProblem problem.now }
    requires room { problem.now.ring.variables ≤ most_variables }
    requires new { list_any (bytes_eq y_name) problem.now.names ≡ false }
    ensures refutation { IfOk result (λ answer. refutation problem.now ≡ Some answer) }
    ensures valid { IfOk result IsProblem }
    ensures no_thesis { IsErrOf result DiscoverFault.NoThesis ↔ (problem.now.thesis ≡ None) }
{
    let Some(thesis) = &problem.thesis else {
        return Err(DiscoverFault::NoThesis);
    };
    let answer = refuted(alloc, problem, thesis)?;
    Ok(answer)
}

/// The problem with its thesis as the last of the polynomials. It has no thesis.
pub fn with_thesis(alloc: Global, problem: &Problem) -> Result<Problem, DiscoverFault>
    requires valid { IsProblem problem.now }
    ensures with_thesis { IfOk result (λ answer. with_thesis problem.now ≡ Some answer) }
    ensures valid { IfOk result IsProblem }
    ensures no_thesis { IsErrOf result DiscoverFault.NoThesis ↔ (problem.now.thesis ≡ None) }
{
    let Some(thesis) = &problem.thesis else {
        return Err(DiscoverFault::NoThesis);
    };
    let answer = extended(alloc, problem, thesis)?;
    Ok(answer)
}

fn refuted(alloc: Global, problem: &Problem, thesis: &Poly) -> Result<Problem, AllocError>
    requires valid { IsProblem problem.now }
    requires room { problem.now.ring.variables ≤ most_variables }
    requires new { list_any (bytes_eq y_name) problem.now.names ≡ false }
    requires thesis { IsThesis problem.now.ring thesis.now }
    ensures { IfOk result (λ answer. answer ≡ refuted problem.now thesis.now) }
{
    let ring = &problem.ring;
    let wide = with_variable(ring);
    let mut polys = lifted(alloc, ring, &wide, problem.polys.as_slice())?;
    polys.push(y_thesis(alloc, ring, &wide, thesis)?)?;
    let y = y_alone(alloc)?;
    Ok(Problem {
        ring: wide,
        names: with_names(alloc, y, problem.names.as_slice())?,
        zero: lifted(alloc, ring, &wide, problem.zero.as_slice())?,
        nonzero: lifted(alloc, ring, &wide, problem.nonzero.as_slice())?,
        polys,
        thesis: None,
        points: copy_points(alloc, ring, problem.points.as_slice())?,
    })
}

// The name `_y` alone.
fn y_alone(alloc: Global) -> Result<NameList, AllocError>
    ensures { IfOk result (λ names. names ≡ y_name ∷ []) }
{
    let mut names = NameList::new(alloc);
    names.push(Text::from_slice(alloc, b"_y".as_slice())?)?;
    Ok(names)
}

fn extended(alloc: Global, problem: &Problem, thesis: &Poly) -> Result<Problem, AllocError>
    requires valid { IsProblem problem.now }
    requires thesis { IsPoly problem.now.ring thesis.now }
    ensures { IfOk result (λ answer. answer ≡ extended problem.now thesis.now) }
{
    let mut polys = problem.polys.copy()?;
    polys.push(thesis.copy()?)?;
    Ok(Problem {
        ring: problem.ring,
        names: with_names(alloc, NameList::new(alloc), problem.names.as_slice())?,
        zero: problem.zero.copy()?,
        nonzero: problem.nonzero.copy()?,
        polys,
        thesis: None,
        points: copy_points(alloc, &problem.ring, problem.points.as_slice())?,
    })
}
