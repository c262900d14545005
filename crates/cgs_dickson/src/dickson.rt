//! The members that make a minimal Dickson basis.

ghost use Rattle.std.specs.Prelude.{◌≡◌, ◌&&◌, ◌||◌, [], bytes_eq, IfOk};
ghost use Rattle.std.specs.List.{AllByRecursion};
ghost use Rattle.std.specs.Ordering.{is_lt};
ghost use Rattle.cgs_order.specs.TermOrder.{compared};
ghost use Rattle.cgs_poly.specs.Polynomial.{IsRing, IsPoly, order_of, ArePolys};
ghost use Rattle.cgs_poly.specs.Product.{leading_monomial};
ghost use Rattle.cgs_poly.specs.Parameters.{lead_x};
ghost use Rattle.cgs_dickson.specs.Dickson.{properly_divides, has_minimal_lead_x, has_least_lead, minimal_dickson};

use cgs_exps::divides;
use cgs_list::Duplicate;
use cgs_order::compare;
use cgs_poly::{Poly, PolyList, Ring};
use std::alloc::{AllocError, Global};
use std::cmp::Ordering;

/// For each leading monomial in the variables that no other properly divides, the member with it that has the least leading monomial, in
/// the order of the list.
pub fn minimal_dickson(
    alloc: Global,
    ring: &Ring,
    members: &PolyList,
) -> Result<PolyList, AllocError>
    requires ring { IsRing ring.now }
    requires polys { ArePolys ring.now members.now }
    requires nonzero { AllByRecursion (λ g. ¬ (g ≡ [])) members.now }
    ensures kept { IfOk result (λ kept. kept ≡ minimal_dickson ring.now members.now) }
    ensures polys { IfOk result (λ kept. ArePolys ring.now kept) }
    ensures nonzero { IfOk result (λ kept. AllByRecursion (λ g. ¬ (g ≡ [])) kept) }
{
    let mut kept = PolyList::new(alloc);
    for i in 0..members.len() {
        let g = members.get(i);
        if is_kept(ring, members, g) {
            let copy = g.copy()?;
            kept.push(copy)?;
        }
    }
    Ok(kept)
}

// Whether no member excludes g.
fn is_kept(ring: &Ring, members: &PolyList, g: &Poly) -> bool
    requires ring { IsRing ring.now }
    requires polys { ArePolys ring.now members.now }
    requires nonzero { AllByRecursion (λ g. ¬ (g ≡ [])) members.now }
    requires poly { IsPoly ring.now g.now }
    requires some { ¬ (g.now ≡ []) }
    ensures { result ≡ (has_minimal_lead_x ring.now members.now g.now && has_least_lead ring.now members.now g.now) }
{
    for i in 0..members.len() {
        if excludes(ring, members.get(i), g) {
            return false;
        }
    }
    true
}

// Whether h has a leading monomial in the variables that properly divides that of g, or the same with a smaller leading monomial.
fn excludes(ring: &Ring, h: &Poly, g: &Poly) -> bool
    requires ring { IsRing ring.now }
    requires first { IsPoly ring.now h.now }
    requires first_some { ¬ (h.now ≡ []) }
    requires second { IsPoly ring.now g.now }
    requires second_some { ¬ (g.now ≡ []) }
    ensures { result ≡ (properly_divides (lead_x ring.now h.now) (lead_x ring.now g.now) || (bytes_eq (lead_x ring.now h.now) (lead_x ring.now g.now) && is_lt (compared (order_of ring.now) (leading_monomial h.now) (leading_monomial g.now)))) }
{
    let m = h.term(0).exponents;
    let n = g.term(0).exponents;
    let (x, _) = m.split_at(ring.variables as usize);
    let (y, _) = n.split_at(ring.variables as usize);
    if x != y {
        return divides(x, y);
    }
    compare(&ring.order(), m, n) == Ordering::Less
}
