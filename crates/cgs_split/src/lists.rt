//! Lists of polynomials and of conditions, made from others.

ghost use Rattle.std.specs.Prelude.{◌≡◌, IfOk};
ghost use Rattle.std.specs.List.{AllByRecursion};
ghost use Rattle.cgs_poly.specs.Polynomial.{IsRing, ArePolys};
ghost use Rattle.cgs_poly.specs.Parameters.{IsCondition};
ghost use Rattle.cgs_algebra.specs.Stability.{parametric_members as parametric, other_members as others};
ghost use Rattle.cgs_entry.specs.Conditions.{with_member, with_members as with_all_members};

use cgs_entry::{GrowingList, add};
use cgs_list::Duplicate;
use cgs_poly::{Poly, PolyList, Ring};
use std::alloc::{AllocError, Global};

/// The list with a condition added.
pub(crate) fn with_condition(
    alloc: Global,
    ring: &Ring,
    list: &PolyList,
    f: &Poly,
) -> Result<PolyList, AllocError>
    requires ring { IsRing ring.now }
    requires conditions { AllByRecursion (IsCondition ring.now) list.now }
    requires condition { IsCondition ring.now f.now }
    ensures conditions { IfOk result (λ longer. AllByRecursion (IsCondition ring.now) longer) }
    ensures added { IfOk result (λ longer. longer ≡ with_member ring.now list.now f.now) }
{
    let mut longer = list.copy()?;
    add(alloc, ring, &mut longer, f)?;
    let shared = longer.shared()?;
    Ok(shared)
}

/// The list with conditions added in order.
pub(crate) fn with_conditions(
    alloc: Global,
    ring: &Ring,
    list: &PolyList,
    more: &PolyList,
) -> Result<PolyList, AllocError>
    requires ring { IsRing ring.now }
    requires conditions { AllByRecursion (IsCondition ring.now) list.now }
    requires more { AllByRecursion (IsCondition ring.now) more.now }
    ensures conditions { IfOk result (λ longer. AllByRecursion (IsCondition ring.now) longer) }
    ensures added { IfOk result (λ longer. longer ≡ with_all_members ring.now list.now more.now) }
{
    let mut longer = GrowingList::new(alloc, list)?;
    for i in 0..more.len() {
        longer.add(alloc, ring, more.get(i))?;
    }
    longer.into_members().shared()
}

/// The members in the parameters alone.
pub(crate) fn parametric_members(
    alloc: Global,
    ring: &Ring,
    list: &PolyList,
) -> Result<PolyList, AllocError>
    requires polys { ArePolys ring.now list.now }
    ensures { IfOk result (λ kept. kept ≡ parametric ring.now list.now) }
{
    let mut kept = PolyList::new(alloc);
    for i in 0..list.len() {
        let g = list.get(i);
        if g.has_no_variables(ring) {
            kept.push(g.copy()?)?;
        }
    }
    kept.shared()
}

/// The members with variables.
pub(crate) fn other_members(
    alloc: Global,
    ring: &Ring,
    list: &PolyList,
) -> Result<PolyList, AllocError>
    requires polys { ArePolys ring.now list.now }
    ensures { IfOk result (λ kept. kept ≡ others ring.now list.now) }
{
    let mut kept = PolyList::new(alloc);
    for i in 0..list.len() {
        let g = list.get(i);
        if !g.has_no_variables(ring) {
            kept.push(g.copy()?)?;
        }
    }
    kept.shared()
}
