//! The cases of a polynomial over a solved entry.

ghost use Rattle.std.specs.Prelude.{◌≡◌, ◌≤◌, [], false, IfOk};
ghost use Rattle.std.specs.List.{AllByRecursion};
ghost use Rattle.cgs_poly.specs.Polynomial.{IsRing, IsPoly, ArePolys};
ghost use Rattle.cgs_poly.specs.Parameters.{IsCondition};
ghost use Rattle.cgs_divide.specs.Ending.{EndsAs};
ghost use Rattle.cgs_entry.specs.Bases.{basis_of};
ghost use Rattle.cgs_entry.specs.Conditions.{with_members};
ghost use Rattle.cgs_entry.specs.Entries.{IsEntry, is_refused};
ghost use Rattle.cgs_member.specs.Cases.{coefficients, cases_run};
ghost use Rattle.cgs_member.specs.Laws.{DecideMembership};

use crate::parts::{part_end, terms_between};
use crate::reduction::reduce;
use cgs_divide::Stop;
use cgs_entry::{Entry, EntryKind, GrowingList};
use cgs_poly::{Poly, PolyList, Ring};
use std::alloc::{AllocError, Global};

/// Polynomials in the parameters that are all 0 exactly at those points of the entry's region where `f` lies in the specialised
/// ideal; where there are none, it lies there at every point. A step by a member of the basis takes as many units from `fuel` as
/// it makes products of terms, and a term of what is left takes one. It errs where a step costs more than is left, or where
/// monomials are multiplied whose degrees are above 32767 together; `fuel` is what is left then.
pub fn cases(
    alloc: Global,
    ring: &Ring,
    entry: &Entry,
    f: &Poly,
    fuel: &mut u64,
) -> Result<PolyList, Stop>
    requires ring { IsRing ring.now }
    requires entry { IsEntry ring.now entry.now }
    requires solved { is_refused entry.now ≡ false }
    requires poly { IsPoly ring.now f.now }
    ensures ends { EndsAs (cases_run ring.now (basis_of entry.now.kind) fuel.old f.now) fuel.new result }
    ensures conditions { IfOk result (λ list. AllByRecursion (IsCondition ring.now) list) }
    ensures decides { IfOk result (DecideMembership ring.now entry.now f.now) }
    ensures units { fuel.new ≤ fuel.old }
{
    match &entry.kind {
        EntryKind::Solved { basis, .. } => cases_over(alloc, ring, basis, f, fuel),
        EntryKind::Refused(_) => Ok(PolyList::new(alloc)),
    }
}

// The cases over a basis.
fn cases_over(
    alloc: Global,
    ring: &Ring,
    basis: &PolyList,
    f: &Poly,
    fuel: &mut u64,
) -> Result<PolyList, Stop>
    requires ring { IsRing ring.now }
    requires basis { ArePolys ring.now basis.now }
    requires poly { IsPoly ring.now f.now }
    ensures ends { EndsAs (cases_run ring.now basis.now fuel.old f.now) fuel.new result }
    ensures conditions { IfOk result (λ list. AllByRecursion (IsCondition ring.now) list) }
    ensures units { fuel.new ≤ fuel.old }
{
    let remainder = reduce(alloc, ring, basis, f, fuel)?;
    let list = monic_coefficients(alloc, ring, &remainder)?;
    Ok(list)
}

// The coefficients of the monomials in the variables, each made monic, the first of equal ones.
fn monic_coefficients(alloc: Global, ring: &Ring, r: &Poly) -> Result<PolyList, AllocError>
    requires ring { IsRing ring.now }
    requires poly { IsPoly ring.now r.now }
    ensures ok { IfOk result (λ list. list ≡ with_members ring.now [] (coefficients ring.now r.now)) }
    ensures conditions { IfOk result (λ list. AllByRecursion (IsCondition ring.now) list) }
{
    let mut list = GrowingList::new(alloc, &PolyList::new(alloc))?;
    let mut from = 0;
    while from < r.len() {
        let end = part_end(ring, r, from);
        let part = terms_between(alloc, ring, r, from, end)?;
        let c = Poly::lc_x(alloc, ring, &part)?;
        list.add(alloc, ring, &c)?;
        from = end;
    }
    Ok(list.into_members())
}
