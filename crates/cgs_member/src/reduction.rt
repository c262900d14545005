//! The reduction of a polynomial by a basis whose leading coefficients are polynomials in the parameters.

ghost use Rattle.std.specs.Prelude.{◌≡◌, ◌<◌, ◌≤◌, ◌*◌, ◌+◌, ◌-◌, ◌^◌, [], length, true, IsNone, IfSome, IfOk, OnOk, OnErr, IfErr};
ghost use Rattle.cgs_poly.specs.Polynomial.{IsRing, IsPoly, ArePolys};
ghost use Rattle.cgs_poly.specs.Parameters.{lead_x};
ghost use Rattle.cgs_divide.specs.Ending.{EndsAs};
ghost use Rattle.cgs_member.specs.ReductionRun as run;

use crate::cancelling::cancel;
use crate::parts::{part_end, terms_between};
use cgs_divide::{Stop, spend};
use cgs_exps::divides;
use cgs_list::Duplicate;
use cgs_poly::{Poly, PolyList, Ring};
use std::alloc::Global;

// What is left of a polynomial, and the remainder so far.
#[derive(Drop)]
struct Parts {
    rest: Poly,
    remainder: Poly,
}

/// The remainder of `f` by the members of a basis, which are multiplied by leading coefficients and never divided by them.
pub(crate) fn reduce(
    alloc: Global,
    ring: &Ring,
    basis: &PolyList,
    f: &Poly,
    fuel: &mut u64,
) -> Result<Poly, Stop>
    requires ring { IsRing ring.now }
    requires basis { ArePolys ring.now basis.now }
    requires poly { IsPoly ring.now f.now }
    ensures ends { EndsAs (run.reduction ring.now basis.now fuel.old f.now []) fuel.new result }
    ensures poly { IfOk result (λ r. IsPoly ring.now r) }
    ensures units { fuel.new ≤ fuel.old }
{
    let mut rest = f.copy()?;
    let mut remainder = Poly::zero(alloc);
    while rest.len() > 0 {
        let parts = step(alloc, ring, basis, &rest, &remainder, fuel)?;
        rest = parts.rest;
        remainder = parts.remainder;
    }
    Ok(remainder)
}

// One step: by the first member whose lead divides that of `f` in the variables, or the leading part goes to the remainder.
fn step(
    alloc: Global,
    ring: &Ring,
    basis: &PolyList,
    f: &Poly,
    r: &Poly,
    fuel: &mut u64,
) -> Result<Parts, Stop>
    requires ring { IsRing ring.now }
    requires basis { ArePolys ring.now basis.now }
    requires poly { IsPoly ring.now f.now }
    requires some { 0 < length f.now }
    requires remainder { IsPoly ring.now r.now }
    ensures ends { EndsAs (run.step ring.now basis.now fuel.old f.now r.now) fuel.new result }
    ensures rest { IfOk result (λ p. IsPoly ring.now p.rest) }
    ensures remainder { IfOk result (λ p. IsPoly ring.now p.remainder) }
    ensures paid { OnOk result (fuel.new < fuel.old) }
    ensures units { fuel.new ≤ fuel.old }
{
    match first_divisor(ring, basis, f) {
        Some(i) => cancelling(alloc, ring, basis.get(i), f, r, fuel),
        None => moving(alloc, ring, f, r, fuel),
    }
}

// The step by a member of the basis.
fn cancelling(
    alloc: Global,
    ring: &Ring,
    b: &Poly,
    f: &Poly,
    r: &Poly,
    fuel: &mut u64,
) -> Result<Parts, Stop>
    requires ring { IsRing ring.now }
    requires member { IsPoly ring.now b.now }
    requires poly { IsPoly ring.now f.now }
    requires some { 0 < length f.now }
    requires divides { run.lead_divides ring.now b.now (lead_x ring.now f.now) ≡ true }
    requires remainder { IsPoly ring.now r.now }
    ensures ends { EndsAs (run.cancelling ring.now b.now fuel.old f.now r.now) fuel.new result }
    ensures rest { IfOk result (λ p. IsPoly ring.now p.rest) }
    ensures remainder { IfOk result (λ p. IsPoly ring.now p.remainder) }
    ensures paid { OnOk result (fuel.new < fuel.old) }
    ensures units { fuel.new ≤ fuel.old }
{
    let c = Poly::lc_x(alloc, ring, f)?;
    let d = Poly::lc_x(alloc, ring, b)?;
    spend_products(d.len(), f.len(), c.len(), b.len(), r.len(), fuel)?;
    let rest = cancel(alloc, ring, &d, &c, f, b)?;
    let remainder = Poly::product(alloc, ring, &d, r)?;
    Ok(Parts { rest, remainder })
}

// The step where no lead divides that of `f`.
fn moving(alloc: Global, ring: &Ring, f: &Poly, r: &Poly, fuel: &mut u64) -> Result<Parts, Stop>
    requires ring { IsRing ring.now }
    requires poly { IsPoly ring.now f.now }
    requires some { 0 < length f.now }
    requires remainder { IsPoly ring.now r.now }
    ensures ends { EndsAs (run.moving ring.now fuel.old f.now r.now) fuel.new result }
    ensures rest { IfOk result (λ p. IsPoly ring.now p.rest) }
    ensures remainder { IfOk result (λ p. IsPoly ring.now p.remainder) }
    ensures paid { OnOk result (fuel.new < fuel.old) }
    ensures units { fuel.new ≤ fuel.old }
{
    let end = part_end(ring, f, 0);
    spend(fuel, end as u64)?;
    let part = terms_between(alloc, ring, f, 0, end)?;
    let remainder = Poly::add(alloc, ring, r, &part)?;
    let rest = terms_between(alloc, ring, f, end, f.len())?;
    Ok(Parts { rest, remainder })
}

// The place of the first member whose lead divides that of `f` in the variables.
fn first_divisor(ring: &Ring, basis: &PolyList, f: &Poly) -> Option<usize>
    requires ring { IsRing ring.now }
    requires basis { ArePolys ring.now basis.now }
    requires poly { IsPoly ring.now f.now }
    requires some { 0 < length f.now }
    ensures none { IsNone result → length basis.now ≤ run.first_divisor ring.now basis.now (lead_x ring.now f.now) }
    ensures first { IfSome result (λ i. (i < length basis.now) × (run.first_divisor ring.now basis.now (lead_x ring.now f.now) ≡ i)) }
{
    for i in 0..basis.len() {
        if lead_divides(ring, basis.get(i), f) {
            return Some(i);
        }
    }
    None
}

// Whether the lead of `b` divides that of `f` in the variables.
fn lead_divides(ring: &Ring, b: &Poly, f: &Poly) -> bool
    requires ring { IsRing ring.now }
    requires member { IsPoly ring.now b.now }
    requires poly { IsPoly ring.now f.now }
    requires some { 0 < length f.now }
    ensures { result ≡ run.lead_divides ring.now b.now (lead_x ring.now f.now) }
{
    let Some(m) = f.lead_x(ring) else {
        return false;
    };
    match b.lead_x(ring) {
        Some(n) => divides(n, m),
        None => false,
    }
}

// Takes the units of the products of d and f, of c and b and of d and r, by their numbers of terms. It errs where they cost more,
// and takes nothing then.
fn spend_products(
    d: usize,
    f: usize,
    c: usize,
    b: usize,
    r: usize,
    fuel: &mut u64,
) -> Result<(), Stop>
    ensures ok { OnOk result ((d * f + c * b + d * r ≤ fuel.old) × (fuel.new ≡ fuel.old - (d * f + c * b + d * r))) }
    ensures budget { OnErr result ((fuel.old < d * f + c * b + d * r) × (fuel.new ≡ fuel.old)) }
    ensures err { IfErr result (λ stop. stop ≡ Stop.Budget) }
{
    let left = *fuel;
    let Some(cost) = cost_of(d, f, c, b, r) else {
        return Err(Stop::Budget);
    };
    if left < cost {
        return Err(Stop::Budget);
    }
    *fuel = left - cost;
    Ok(())
}

// The number of products of terms, where it fits.
fn cost_of(d: usize, f: usize, c: usize, b: usize, r: usize) -> Option<u64>
    ensures some { IfSome result (λ cost. cost ≡ d * f + c * b + d * r) }
    ensures none { IsNone result → 2 ^ 64 ≤ d * f + c * b + d * r }
{
    let first = d.checked_mul(f)?;
    let second = c.checked_mul(b)?;
    let third = d.checked_mul(r)?;
    let sum = first.checked_add(second)?.checked_add(third)?;
    Some(sum as u64)
}
