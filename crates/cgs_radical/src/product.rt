//! The product of the polynomials that must not be 0, reduced by a basis after each factor.

ghost use Rattle.std.specs.Prelude.{◌≡◌, ◌<◌, ◌≤◌, ◌-◌, ◌*◌, max, IfOk, IfErr, OnOk, OnErr};
ghost use Rattle.cgs_poly.specs.Polynomial.{IsRing, IsPoly, ArePolys};
ghost use Rattle.cgs_algebra.specs.Groebner.{AreMonic};
ghost use Rattle.cgs_divide.specs.Ending.{EndsAs};
ghost use Rattle.cgs_radical.specs.EmptinessRun.{product_remainder, products_remainder};

use cgs_divide::{Stop, remainder};
use cgs_poly::{Poly, PolyList, Ring};
use std::alloc::Global;

// The remainder of q*n by a basis. The product takes as many units as there are products of terms, at least one; the division what it
// takes.
pub(crate) fn product_remainder(
    alloc: Global,
    ring: &Ring,
    basis: &PolyList,
    q: &Poly,
    n: &Poly,
    fuel: &mut u64,
) -> Result<Poly, Stop>
    requires ring { IsRing ring.now }
    requires monic { AreMonic ring.now basis.now }
    requires basis { ArePolys ring.now basis.now }
    requires first { IsPoly ring.now q.now }
    requires second { IsPoly ring.now n.now }
    ensures ends { EndsAs (product_remainder ring.now basis.now q.now n.now fuel.old) fuel.new result }
    ensures poly { IfOk result (λ r. IsPoly ring.now r) }
    ensures units { fuel.new ≤ fuel.old }
{
    spend_product(q.len(), n.len(), fuel)?;
    let product = Poly::product(alloc, ring, q, n)?;
    let rest = remainder(alloc, ring, &product, basis, fuel)?;
    Ok(rest)
}

// The remainder of q times each factor in turn by a basis, until it is 0.
pub(crate) fn products_remainder(
    alloc: Global,
    ring: &Ring,
    basis: &PolyList,
    factors: &PolyList,
    start: Poly,
    fuel: &mut u64,
) -> Result<Poly, Stop>
    requires ring { IsRing ring.now }
    requires monic { AreMonic ring.now basis.now }
    requires basis { ArePolys ring.now basis.now }
    requires factors { ArePolys ring.now factors.now }
    requires start { IsPoly ring.now start }
    ensures ends { EndsAs (products_remainder ring.now basis.now factors.now start fuel.old) fuel.new result }
    ensures poly { IfOk result (λ r. IsPoly ring.now r) }
    ensures units { fuel.new ≤ fuel.old }
{
    let mut q = start;
    for i in 0..factors.len() {
        if q.len() != 0 {
            q = product_remainder(alloc, ring, basis, &q, factors.get(i), fuel)?;
        }
    }
    Ok(q)
}

// Takes the units of a product of polynomials with so many terms.
fn spend_product(first: usize, second: usize, fuel: &mut u64) -> Result<(), Stop>
    ensures ok { OnOk result ((max 1 (first * second) ≤ fuel.old) × (fuel.new ≡ fuel.old - max 1 (first * second))) }
    ensures budget { OnErr result ((fuel.old < max 1 (first * second)) × (fuel.new ≡ fuel.old)) }
    ensures err { IfErr result (λ stop. stop ≡ Stop.Budget) }
{
    let left = *fuel;
    let Some(products) = first.checked_mul(second) else {
        return Err(Stop::Budget);
    };
    let cost = (products as u64).max(1);
    if left < cost {
        return Err(Stop::Budget);
    }
    *fuel = left - cost;
    Ok(())
}
