//! The terms of a polynomial that have one monomial in the variables: they stand side by side.

ghost use Rattle.std.specs.Prelude.{◌≡◌, ◌<◌, ◌≤◌, ◌-◌, length, take, drop, IfOk};
ghost use Rattle.cgs_poly.specs.Polynomial.{IsRing, IsPoly};
ghost use Rattle.cgs_poly.specs.Parameters.{lead_x, part_at};
ghost use Rattle.cgs_member.specs.ReductionRun.{others_at};

use cgs_poly::{Poly, Ring};
use std::alloc::{AllocError, Global};

/// The place behind those that have the variables of the term at a place.
pub(crate) fn part_end(ring: &Ring, f: &Poly, from: usize) -> usize
    requires ring { IsRing ring.now }
    requires poly { IsPoly ring.now f.now }
    requires place { from < length f.now }
    ensures rising { from < result }
    ensures within { result ≤ length f.now }
    ensures part { part_at ring.now (lead_x ring.now (drop from f.now)) (drop from f.now) ≡ take (result - from) (drop from f.now) }
    ensures others { others_at ring.now (lead_x ring.now (drop from f.now)) (drop from f.now) ≡ drop result f.now }
{
    let count = f.len();
    let variables = ring.variables as usize;
    let (x, _) = f.term(from).exponents.split_at(variables);
    for to in from + 1..count {
        let (own, _) = f.term(to).exponents.split_at(variables);
        if own != x {
            return to;
        }
    }
    count
}

/// The sum of the terms from one place up to another.
pub(crate) fn terms_between(
    alloc: Global,
    ring: &Ring,
    f: &Poly,
    from: usize,
    to: usize,
) -> Result<Poly, AllocError>
    requires poly { IsPoly ring.now f.now }
    requires rising { from ≤ to }
    requires within { to ≤ length f.now }
    ensures terms { IfOk result (λ part. part ≡ take (to - from) (drop from f.now)) }
    ensures poly { IfOk result (λ part. IsPoly ring.now part) }
{
    let mut part = Poly::zero(alloc);
    for i in from..to {
        let term = f.term(i);
        part.push(term.coefficient, term.exponents)?;
    }
    Ok(part)
}
