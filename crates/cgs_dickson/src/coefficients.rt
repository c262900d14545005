//! The leading coefficients of a list as conditions.

ghost use Rattle.std.specs.Prelude.{◌≡◌, [], IfOk};
ghost use Rattle.std.specs.List.{AllByRecursion};
ghost use Rattle.cgs_poly.specs.Polynomial.{IsRing, IsPoly, ArePolys};
ghost use Rattle.cgs_poly.specs.Parameters.{IsCondition};
ghost use Rattle.cgs_dickson.specs.Dickson.{is_constant, coefficient_list};

use cgs_entry::GrowingList;
use cgs_exps::degree;
use cgs_poly::{Poly, PolyList, Ring};
use std::alloc::{AllocError, Global};

/// The leading coefficients of the members that are not constant, made monic, in order and with no repeats.
pub fn coefficient_list(
    alloc: Global,
    ring: &Ring,
    members: &PolyList,
) -> Result<PolyList, AllocError>
    requires ring { IsRing ring.now }
    requires polys { ArePolys ring.now members.now }
    requires nonzero { AllByRecursion (λ g. ¬ (g ≡ [])) members.now }
    ensures list { IfOk result (λ list. list ≡ coefficient_list ring.now members.now) }
    ensures conditions { IfOk result (λ list. AllByRecursion (IsCondition ring.now) list) }
{
    let none = PolyList::new(alloc);
    let mut list = GrowingList::new(alloc, &none)?;
    for i in 0..members.len() {
        let coefficient = Poly::lc_x(alloc, ring, members.get(i))?;
        if !is_constant(ring, &coefficient) {
            list.add(alloc, ring, &coefficient)?;
        }
    }
    Ok(list.into_members())
}

// Whether no monomial but 1 stands in f.
fn is_constant(ring: &Ring, f: &Poly) -> bool
    requires ring { IsRing ring.now }
    requires poly { IsPoly ring.now f.now }
    ensures { result ≡ is_constant f.now }
{
    for i in 0..f.len() {
        if degree(f.term(i).exponents) != 0 {
            return false;
        }
    }
    true
}
