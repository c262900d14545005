//! The search through the entries.

ghost use Rattle.std.specs.Prelude.{◌≡◌, IfOk, IfSome};
ghost use Rattle.std.specs.List.{AllByRecursion};
ghost use Rattle.cgs_poly.specs.Polynomial.{IsRing, IsPoly, ArePolys};
ghost use Rattle.cgs_poly.specs.Parameters.{variables_ring};
ghost use Rattle.cgs_point.specs.Points.{IsPoint};
ghost use Rattle.cgs_entry.specs.Bases.{basis_of};
ghost use Rattle.cgs_entry.specs.Entries.{IsEntry, IsFound};
ghost use Rattle.cgs_locate.specs.Located.{monic_at, basis_at, located};

use cgs_entry::{EntryKind, EntryList};
use cgs_point::{Point, specialise};
use cgs_poly::{Poly, PolyList, Ring};
use std::alloc::{AllocError, Global};

/// An entry that holds a point, by its place in the list, and its basis there; the empty list where the entry is refused.
#[derive(Debug, Drop)]
pub struct Located {
    pub index: usize,
    pub basis: PolyList,
}

/// The first entry whose region has the point. Only its own basis is specialised.
pub fn locate(
    alloc: Global,
    ring: &Ring,
    entries: &EntryList,
    point: &Point,
) -> Result<Option<Located>, AllocError>
    requires ring { IsRing ring.now }
    requires entries { AllByRecursion (IsEntry ring.now) entries.now }
    requires point { IsPoint ring.now point.now }
    ensures located { IfOk result (λ found. found ≡ located ring.now point.now entries.now) }
    ensures polys { IfOk result (λ found. IfSome found (λ place. ArePolys (variables_ring ring.now) place.basis)) }
{
    for (i, entry) in entries.as_slice().iter().enumerate() {
        if entry.holds_at(ring, point) {
            let basis = basis_at(alloc, ring, &entry.kind, point)?;
            return Ok(Some(Located { index: i, basis }));
        }
    }
    Ok(None)
}

// The basis of an entry at a point.
fn basis_at(
    alloc: Global,
    ring: &Ring,
    kind: &EntryKind,
    point: &Point,
) -> Result<PolyList, AllocError>
    requires ring { IsRing ring.now }
    requires found { IsFound ring.now kind.now }
    requires point { IsPoint ring.now point.now }
    ensures basis { IfOk result (λ basis. basis ≡ basis_at ring.now point.now (basis_of kind.now)) }
    ensures polys { IfOk result (λ basis. ArePolys (variables_ring ring.now) basis) }
{
    match kind {
        EntryKind::Solved { basis, .. } => monic_members(alloc, ring, basis.as_slice(), point),
        EntryKind::Refused(_) => Ok(PolyList::new(alloc)),
    }
}

// What each polynomial becomes at a point, made monic.
fn monic_members(
    alloc: Global,
    ring: &Ring,
    polys: &[Poly],
    point: &Point,
) -> Result<PolyList, AllocError>
    requires ring { IsRing ring.now }
    requires polys { ArePolys ring.now polys.now }
    requires point { IsPoint ring.now point.now }
    ensures members { IfOk result (λ list. list ≡ basis_at ring.now point.now polys.now) }
    ensures polys { IfOk result (λ list. ArePolys (variables_ring ring.now) list) }
{
    let mut list = PolyList::new(alloc);
    for f in polys {
        list.push(monic_member(alloc, ring, f, point)?)?;
    }
    Ok(list)
}

// What one polynomial becomes, made monic.
fn monic_member(alloc: Global, ring: &Ring, f: &Poly, point: &Point) -> Result<Poly, AllocError>
    requires ring { IsRing ring.now }
    requires poly { IsPoly ring.now f.now }
    requires point { IsPoint ring.now point.now }
    ensures member { IfOk result (λ h. h ≡ monic_at ring.now point.now f.now) }
    ensures poly { IfOk result (λ h. IsPoly (variables_ring ring.now) h) }
{
    let special = specialise(alloc, ring, f, point)?;
    let monic = Poly::monic(alloc, &ring.variables_ring(), &special)?;
    Ok(monic)
}
