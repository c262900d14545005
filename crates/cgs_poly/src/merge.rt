//! The sum of two polynomials, of which the second is multiplied on the way.

ghost use Rattle.std.specs.Prelude.{◌≡◌, ◌++◌, IfOk};
ghost use Rattle.cgs_poly.specs.Polynomial.{IsRing, IsCanonical, canonical};
ghost use Rattle.cgs_poly.specs.Merge.{changed, EachTerm};

use crate::poly::Poly;
use cgs_terms::{Draft, Multiple, Ring, merge};
use std::alloc::{AllocError, Global};

/// The sum of `f` and the multiple of `g`.
pub(crate) fn merged<M: Multiple>(
    alloc: Global,
    ring: &Ring,
    f: &Poly,
    g: &Poly,
    by: &M,
) -> Result<Poly, AllocError>
    requires ring { IsRing ring.now }
    requires first { IsCanonical ring.now f.now }
    requires terms { IsCanonical ring.now g.now }
    requires can { EachTerm (M.can_multiply by.now ring.now.modulus) g.now }
    requires second { IsCanonical ring.now (changed (M.coefficient by.now ring.now.modulus) (M.monomial by.now) g.now) }
    ensures { IfOk result (λ h. h ≡ canonical ring.now (f.now ++ changed (M.coefficient by.now ring.now.modulus) (M.monomial by.now) g.now)) }
{
    let first = f.terms.flat();
    let second = g.terms.flat();
    let draft = Draft::with_room_for(alloc, ring.places(), &first, &second)?;
    let sum = merge(draft, ring, &first, &second, by)?;
    Ok(Poly { terms: sum })
}

/// The multiple of `g` alone.
pub(crate) fn multiplied<M: Multiple>(
    alloc: Global,
    ring: &Ring,
    g: &Poly,
    by: &M,
) -> Result<Poly, AllocError>
    requires ring { IsRing ring.now }
    requires terms { IsCanonical ring.now g.now }
    requires can { EachTerm (M.can_multiply by.now ring.now.modulus) g.now }
    requires multiple { IsCanonical ring.now (changed (M.coefficient by.now ring.now.modulus) (M.monomial by.now) g.now) }
    ensures { IfOk result (λ h. h ≡ changed (M.coefficient by.now ring.now.modulus) (M.monomial by.now) g.now) }
{
    let zero = Poly::zero(alloc);
    let multiple = merged(alloc, ring, &zero, g, by)?;
    Ok(multiple)
}
