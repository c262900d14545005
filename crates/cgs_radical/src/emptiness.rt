//! The emptiness run.

ghost use Rattle.std.specs.Prelude.{ℕ, ◌≡◌, ◌<◌, ◌≤◌, ◌↔◌, List, [], ◌∷◌, replicate, IsTrue, IfOk, OnOk, IsErrOf};
ghost use Rattle.std.specs.List.{AllByRecursion};
ghost use Rattle.cgs_poly.specs.Polynomial.{one, Term, IsRing, IsPoly, HasLowDegrees, term, places, ArePolys};
ghost use Rattle.cgs_poly.specs.Product.{multiple};
ghost use Rattle.cgs_poly.specs.Parameters.{IsCondition};
ghost use Rattle.cgs_point.specs.Points.{IsPoint};
ghost use Rattle.cgs_entry.specs.Conditions.{IsInRegion};
ghost use Rattle.cgs_algebra.specs.Groebner.{AreMonic};
ghost use Rattle.cgs_divide.specs.Ending.{ended, EndsAs};
ghost use Rattle.cgs_basis.specs.BasisRun.{basis_run};
ghost use Rattle.cgs_radical.specs.EmptinessRun.{with_y, y_ring, y_times_less_one, contradiction_run, vanishing_run, emptiness_run};
ghost use Rattle.cgs_radical.specs.Laws.{Contradict};

use crate::product::products_remainder;
use cgs_basis::reduced_basis;
use cgs_divide::Stop;
use cgs_entry::Conditions;
use cgs_exps::MAX_PLACES;
use cgs_field::Elem;
use cgs_list::Duplicate;
use cgs_poly::{Poly, PolyFault, PolyList, Ring, are_same};
use std::alloc::{AllocError, Global};

/// Whether the conditions contradict each other: 1 is in the ideal of those that have to vanish and of y times the product of the others
/// less 1. No point meets them then. Units and errors are as for `divide`.
pub fn test_empty(
    alloc: Global,
    ring: &Ring,
    conditions: &Conditions,
    fuel: &mut u64,
) -> Result<bool, Stop>
    requires ring { IsRing ring.now }
    requires zero { AllByRecursion (IsCondition ring.now) conditions.now.zero }
    requires nonzero { AllByRecursion (IsCondition ring.now) conditions.now.nonzero }
    ensures ends { EndsAs (emptiness_run ring.now conditions.now.zero conditions.now.nonzero fuel.old) fuel.new result }
    ensures exact { IfOk result (λ empty. IsTrue empty ↔ Contradict ring.now conditions.now.zero conditions.now.nonzero) }
    ensures no_point { IfOk result (λ empty. IsTrue empty → (a : List ℕ) → IsPoint ring.now a → ¬ (IsInRegion ring.now conditions.now.zero conditions.now.nonzero a)) }
    ensures units { fuel.new ≤ fuel.old }
{
    let basis = vanishing_basis(alloc, ring, &conditions.zero, fuel)?;
    let empty = test_empty_by(alloc, ring, &basis, &conditions.nonzero, fuel)?;
    Ok(empty)
}

/// The first part of `test_empty`: the reduced basis of the conditions that have to vanish, with one variable above the parameters. It can
/// be kept, with the units that it leaves, for all regions with these conditions and units.
pub fn vanishing_basis(
    alloc: Global,
    ring: &Ring,
    zero: &PolyList,
    fuel: &mut u64,
) -> Result<PolyList, Stop>
    requires ring { IsRing ring.now }
    requires zero { AllByRecursion (IsCondition ring.now) zero.now }
    ensures ends { EndsAs (vanishing_run ring.now zero.now fuel.old) fuel.new result }
    ensures monic { IfOk result (λ B. AreMonic (y_ring ring.now) B) }
    ensures polys { IfOk result (λ B. ArePolys (y_ring ring.now) B) }
    ensures units { fuel.new ≤ fuel.old }
{
    let above = with_y(ring);
    let generators = lifted(alloc, ring, &above, zero)?;
    let basis = reduced_basis(alloc, &above, &generators, fuel)?;
    Ok(basis)
}

/// The rest of `test_empty`, by the basis of the conditions that have to vanish and in the units that it leaves.
pub fn test_empty_by(
    alloc: Global,
    ring: &Ring,
    basis: &PolyList,
    nonzero: &PolyList,
    fuel: &mut u64,
) -> Result<bool, Stop>
    requires ring { IsRing ring.now }
    requires monic { AreMonic (y_ring ring.now) basis.now }
    requires basis { ArePolys (y_ring ring.now) basis.now }
    requires nonzero { AllByRecursion (IsCondition ring.now) nonzero.now }
    ensures ends { (E : List (List Term)) (units : ℕ) → vanishing_run ring.now E units ≡ ended basis.now fuel.old → EndsAs (emptiness_run ring.now E nonzero.now units) fuel.new result }
    ensures units { fuel.new ≤ fuel.old }
{
    let above = with_y(ring);
    let factors = lifted(alloc, ring, &above, nonzero)?;
    let start = Poly::one(alloc, &above)?;
    let q = products_remainder(alloc, &above, basis, &factors, start, fuel)?;
    let empty = contradicts(alloc, &above, basis, &q, fuel)?;
    Ok(empty)
}

// The ring with one variable above the parameters.
fn with_y(ring: &Ring) -> Ring
    requires ring { IsRing ring.now }
    ensures ring { result ≡ y_ring ring.now }
    ensures valid { IsRing result }
{
    Ring {
        modulus: ring.modulus,
        variables: 1,
        parameters: ring.parameters,
        kind: ring.kind,
    }
}

// Polynomials in the parameters, in the ring with one variable above them.
fn lifted(alloc: Global, ring: &Ring, above: &Ring, list: &PolyList) -> Result<PolyList, AllocError>
    requires ring { IsRing ring.now }
    requires valid { IsRing above.now }
    requires above { above.now ≡ y_ring ring.now }
    requires conditions { AllByRecursion (IsCondition ring.now) list.now }
    ensures ok { IfOk result (λ polys. polys ≡ with_y ring.now list.now) }
    ensures polys { IfOk result (λ polys. ArePolys above.now polys) }
{
    let mut polys = PolyList::new(alloc);
    for i in 0..list.len() {
        let poly = Poly::recast(alloc, ring, above, list.get(i))?;
        polys.push(poly)?;
    }
    Ok(polys)
}

// A number that is not 0 as a polynomial.
fn constant(alloc: Global, ring: &Ring, c: Elem) -> Result<Poly, PolyFault>
    requires ring { IsRing ring.now }
    requires some { 0 < c }
    requires below { c < ring.now.modulus }
    ensures ok { IfOk result (λ f. f ≡ term c (replicate (places ring.now) 0) ∷ []) }
    ensures poly { IfOk result (λ f. IsPoly ring.now f) }
    ensures low { ¬ (IsErrOf result PolyFault.Degree) }
{
    let zeros = [0; MAX_PLACES];
    Poly::of_term(alloc, ring, c, &zeros[..ring.places()])
}

// Whether the ideal of a basis and of y*q - 1 has 1, by its basis.
fn contradicts(
    alloc: Global,
    ring: &Ring,
    basis: &PolyList,
    q: &Poly,
    fuel: &mut u64,
) -> Result<bool, Stop>
    requires ring { IsRing ring.now }
    requires one_variable { ring.now.variables ≡ 1 }
    requires basis { ArePolys ring.now basis.now }
    requires poly { IsPoly ring.now q.now }
    ensures ends { EndsAs (contradiction_run basis_run ring.now basis.now q.now fuel.old) fuel.new result }
    ensures units { fuel.new ≤ fuel.old }
{
    if q.len() == 0 {
        return Ok(true);
    }
    let last = times_y_less_one(alloc, ring, q)?;
    let mut generators = basis.copy()?;
    generators.push(last)?;
    let found = reduced_basis(alloc, ring, &generators, fuel)?;
    let whole = one_alone(alloc, ring)?;
    Ok(are_same(&found, &whole))
}

/// The list of 1 alone.
pub fn one_alone(alloc: Global, ring: &Ring) -> Result<PolyList, AllocError>
    requires { IsRing ring.now }
    ensures ok { IfOk result (λ list. list ≡ one ring.now ∷ []) }
    ensures polys { IfOk result (λ list. ArePolys ring.now list) }
{
    let mut list = PolyList::new(alloc);
    list.push(Poly::one(alloc, ring)?)?;
    Ok(list)
}

// y*q - 1.
fn times_y_less_one(alloc: Global, ring: &Ring, q: &Poly) -> Result<Poly, PolyFault>
    requires ring { IsRing ring.now }
    requires one_variable { ring.now.variables ≡ 1 }
    requires poly { IsPoly ring.now q.now }
    ensures ok { IfOk result (λ f. f ≡ y_times_less_one ring.now q.now) }
    ensures poly { IfOk result (λ f. IsPoly ring.now f) }
    ensures low { OnOk result (HasLowDegrees (multiple 1 (1 ∷ replicate ring.now.parameters 0) q.now)) }
    ensures degree { IsErrOf result PolyFault.Degree → ¬ (HasLowDegrees (multiple 1 (1 ∷ replicate ring.now.parameters 0) q.now)) }
{
    let minus_one = ring.modulus.neg(ring.modulus.of_u64(1));
    let last = constant(alloc, ring, minus_one)?;
    let mut y = [0; MAX_PLACES];
    y[0] = 1;
    Poly::sub_multiple(alloc, ring, &last, minus_one, &y[..ring.places()], q)
}
