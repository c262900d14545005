//! Conditions on the parameters.

ghost use Rattle.std.specs.Prelude.{◌≡◌, ◌↔◌, IsTrue, OnOk, OnErr};
ghost use Rattle.std.specs.List.{AllByRecursion};
ghost use Rattle.cgs_poly.specs.Polynomial.{IsRing, IsPoly};
ghost use Rattle.cgs_poly.specs.Parameters.{IsCondition, value_at};
ghost use Rattle.cgs_point.specs.Points.{IsPoint};
ghost use Rattle.cgs_entry.specs.Conditions.{with_member};

use cgs_point::{Point, vanishes};
use cgs_poly::{Poly, PolyList, Ring, is_among};
use std::alloc::{AllocError, Global};

/// What has to vanish, and what must not, in the parameters alone.
#[derive(Debug, Drop)]
pub struct Conditions {
    pub zero: PolyList,
    pub nonzero: PolyList,
}

/// Adds a polynomial to a list of conditions: made monic, and only where it does not stand there. 0 is added too.
pub fn add(alloc: Global, ring: &Ring, list: &mut PolyList, f: &Poly) -> Result<(), AllocError>
    requires ring { IsRing ring.now }
    requires poly { IsPoly ring.now f.now }
    ensures ok { OnOk result (list.new ≡ with_member ring.now list.old f.now) }
    ensures err { OnErr result (list.new ≡ list.old) }
    ensures conditions { OnOk result (AllByRecursion (IsCondition ring.now) list.old → IsCondition ring.now f.now → AllByRecursion (IsCondition ring.now) list.new) }
{
    let monic = Poly::monic(alloc, ring, f)?;
    if !is_among(&monic, list) {
        list.push(monic)?;
    }
    Ok(())
}

// Whether each polynomial is 0 at a point.
pub(crate) fn all_vanish(ring: &Ring, list: &[Poly], point: &Point) -> bool
    requires ring { IsRing ring.now }
    requires conditions { AllByRecursion (IsCondition ring.now) list.now }
    requires point { IsPoint ring.now point.now }
    ensures { IsTrue result ↔ AllByRecursion (λ f. value_at ring.now point.now f ≡ 0) list.now }
{
    for f in list {
        if !vanishes(ring, f, point) {
            return false;
        }
    }
    true
}

// Whether no polynomial is 0 at a point.
pub(crate) fn none_vanishes(ring: &Ring, list: &[Poly], point: &Point) -> bool
    requires ring { IsRing ring.now }
    requires conditions { AllByRecursion (IsCondition ring.now) list.now }
    requires point { IsPoint ring.now point.now }
    ensures { IsTrue result ↔ AllByRecursion (λ f. ¬ (value_at ring.now point.now f ≡ 0)) list.now }
{
    for f in list {
        if vanishes(ring, f, point) {
            return false;
        }
    }
    true
}
