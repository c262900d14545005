//! Polynomials in the ring with one variable more.

ghost use Rattle.std.specs.Prelude.{◌≡◌, ◌-◌, ◌<◌, ◌≤◌, [], ◌∷◌, map, replicate, IfOk};
ghost use Rattle.cgs_poly.specs.Polynomial.{IsRing, IsPoly, ArePolys, places, term};
ghost use Rattle.cgs_problem.specs.Problems.{IsThesis};
ghost use Rattle.cgs_discover.specs.Refutation.{with_variable, most_variables, lifted, y_thesis};

use cgs_exps::MAX_PLACES;
use cgs_field::Elem;
use cgs_poly::{Poly, PolyFault, PolyList, Ring};
use std::alloc::{AllocError, Global};

/// The ring with one variable more.
pub(crate) fn with_variable(ring: &Ring) -> Ring
    requires ring { IsRing ring.now }
    requires room { ring.now.variables ≤ most_variables }
    ensures ring { result ≡ with_variable ring.now }
    ensures valid { IsRing result }
{
    Ring {
        modulus: ring.modulus,
        variables: ring.variables + 1,
        parameters: ring.parameters,
        kind: ring.kind,
    }
}

/// Each polynomial in it.
pub(crate) fn lifted(
    alloc: Global,
    ring: &Ring,
    wide: &Ring,
    polys: &[Poly],
) -> Result<PolyList, AllocError>
    requires ring { IsRing ring.now }
    requires valid { IsRing wide.now }
    requires wide { wide.now ≡ with_variable ring.now }
    requires polys { ArePolys ring.now polys.now }
    ensures { IfOk result (λ list. list ≡ map (lifted ring.now) polys.now) }
{
    let mut list = PolyList::new(alloc);
    for f in polys {
        list.push(Poly::recast(alloc, ring, wide, f)?)?;
    }
    Ok(list)
}

/// y times a thesis, less 1.
pub(crate) fn y_thesis(
    alloc: Global,
    ring: &Ring,
    wide: &Ring,
    thesis: &Poly,
) -> Result<Poly, AllocError>
    requires ring { IsRing ring.now }
    requires valid { IsRing wide.now }
    requires wide { wide.now ≡ with_variable ring.now }
    requires thesis { IsThesis ring.now thesis.now }
    ensures { IfOk result (λ f. f ≡ y_thesis ring.now thesis.now) }
{
    let lifted = Poly::recast(alloc, ring, wide, thesis)?;
    let start = minus_one(alloc, wide)?;
    let c = opposite_of_one(wide);
    let mut y = [0; MAX_PLACES];
    y[0] = 1;
    match Poly::sub_multiple(alloc, wide, &start, c, &y[..wide.places()], &lifted) {
        Ok(f) => Ok(f),
        Err(PolyFault::OutOfMemory) => Err(AllocError),
        Err(PolyFault::Degree) => unreachable!(),
    }
}

// The polynomial -1.
fn minus_one(alloc: Global, ring: &Ring) -> Result<Poly, AllocError>
    requires ring { IsRing ring.now }
    ensures term { IfOk result (λ f. f ≡ term (ring.now.modulus - 1) (replicate (places ring.now) 0) ∷ []) }
    ensures poly { IfOk result (λ f. IsPoly ring.now f) }
{
    let one = [0; MAX_PLACES];
    let mut f = Poly::zero(alloc);
    f.push(opposite_of_one(ring), &one[..ring.places()])?;
    Ok(f)
}

// The number that gives 0 with 1.
fn opposite_of_one(ring: &Ring) -> Elem
    requires ring { IsRing ring.now }
    ensures number { result ≡ ring.now.modulus - 1 }
    ensures positive { 0 < result }
    ensures below { result < ring.now.modulus }
{
    let modulus = ring.modulus;
    let _prime = modulus.value();
    modulus.neg(modulus.of_u64(1))
}
