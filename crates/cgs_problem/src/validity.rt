//! Whether a problem is valid.

ghost use Rattle.std.specs.Prelude.{◌≡◌, ◌<◌, ◌↔◌, IsTrue, IfSome, bytes_eq};
ghost use Rattle.std.specs.List.{AllByRecursion, IsDistinct, list_any};
ghost use Rattle.cgs_poly.specs.Polynomial.{IsRing, ArePolys};
ghost use Rattle.cgs_poly.specs.Parameters.{IsCondition};
ghost use Rattle.cgs_point.specs.Points.{IsPoint};
ghost use Rattle.cgs_problem.specs.Problems.{IsProblem, IsThesis};

use crate::polynomial::{is_condition, is_poly, is_thesis};
use crate::problem::{Problem, Text};
use cgs_field::Elem;
use cgs_point::Point;
use cgs_poly::{Poly, Ring};

/// Whether a problem is valid. A problem is plain data: its names, polynomials and points may be of another ring than its
/// own, and its conditions may have variables.
pub fn valid(problem: &Problem) -> bool
    ensures { IsTrue result ↔ IsProblem problem.now }
{
    let ring = &problem.ring;
    is_ring(ring)
        && problem.names.len() == ring.places()
        && are_distinct(problem.names.as_slice())
        && are_conditions(ring, problem.zero.as_slice())
        && are_conditions(ring, problem.nonzero.as_slice())
        && are_polys(ring, problem.polys.as_slice())
        && may_be_thesis(ring, &problem.thesis)
        && are_points(ring, problem.points.as_slice())
}

fn is_ring(ring: &Ring) -> bool
    ensures { IsTrue result ↔ IsRing ring.now }
{
    // A modulus is of the table by its type.
    let _modulus = ring.modulus.value();
    1 <= ring.variables && ring.variables <= 9 && ring.parameters <= 8
}

fn are_distinct(names: &[Text]) -> bool
    ensures { IsTrue result ↔ IsDistinct bytes_eq names.now }
{
    let mut rest = names;
    while let Some((name, after)) = rest.split_first() {
        if contains(after, name.as_slice()) {
            return false;
        }
        rest = after;
    }
    true
}

fn contains(names: &[Text], name: &[u8]) -> bool
    ensures { result ≡ list_any (bytes_eq name.now) names.now }
{
    names.iter().any(|other| name == other.as_slice())
}

fn are_conditions(ring: &Ring, polys: &[Poly]) -> bool
    requires { IsRing ring.now }
    ensures { IsTrue result ↔ AllByRecursion (IsCondition ring.now) polys.now }
{
    polys.iter().all(|f| is_condition(ring, f))
}

fn are_polys(ring: &Ring, polys: &[Poly]) -> bool
    requires { IsRing ring.now }
    ensures { IsTrue result ↔ ArePolys ring.now polys.now }
{
    polys.iter().all(|f| is_poly(ring, f))
}

// Whether it is no thesis or a thesis of the ring.
fn may_be_thesis(ring: &Ring, thesis: &Option<Poly>) -> bool
    requires { IsRing ring.now }
    ensures { IsTrue result ↔ IfSome thesis.now (IsThesis ring.now) }
{
    match thesis {
        Some(f) => is_thesis(ring, f),
        None => true,
    }
}

fn are_points(ring: &Ring, points: &[Point]) -> bool
    ensures { IsTrue result ↔ AllByRecursion (IsPoint ring.now) points.now }
{
    points.iter().all(|point| is_point(ring, point.as_slice()))
}

fn is_point(ring: &Ring, numbers: &[Elem]) -> bool
    ensures { IsTrue result ↔ IsPoint ring.now numbers.now }
{
    numbers.len() == ring.parameters as usize && are_below(numbers, ring.modulus.value())
}

fn are_below(numbers: &[Elem], bound: u32) -> bool
    ensures { IsTrue result ↔ AllByRecursion (λ n. n < bound) numbers.now }
{
    numbers.iter().all(|n| (n.number() as u32) < bound)
}
