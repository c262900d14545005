//! A polynomial and a member of a basis multiplied by each other's leading coefficients in the parameters, so that their leading parts cancel.

ghost use Rattle.std.specs.Prelude.{◌≡◌, ◌<◌, length, true, IfOk, OnOk, IsErrOf};
ghost use Rattle.cgs_poly.specs.Polynomial.{IsRing, IsPoly, HasLowDegrees};
ghost use Rattle.cgs_poly.specs.Product.{multiple, all_products};
ghost use Rattle.cgs_poly.specs.Parameters.{lead_x, lc_x};
ghost use Rattle.cgs_member.specs.ReductionRun.{lead_divides, lead_quotient, cancelled};

use cgs_exps::{MAX_PLACES, quotient_into};
use cgs_poly::{Poly, PolyFault, Ring};
use std::alloc::Global;

/// d*f - c*t*b, where c and d are the leading coefficients of `f` and of `b` and t brings the lead of `b` to that of `f`.
pub(crate) fn cancel(
    alloc: Global,
    ring: &Ring,
    d: &Poly,
    c: &Poly,
    f: &Poly,
    b: &Poly,
) -> Result<Poly, PolyFault>
    requires ring { IsRing ring.now }
    requires poly { IsPoly ring.now f.now }
    requires member { IsPoly ring.now b.now }
    requires some { 0 < length f.now }
    requires divides { lead_divides ring.now b.now (lead_x ring.now f.now) ≡ true }
    requires first { d.now ≡ lc_x ring.now b.now }
    requires second { c.now ≡ lc_x ring.now f.now }
    ensures ok { IfOk result (λ h. h ≡ cancelled ring.now f.now b.now) }
    ensures poly { IfOk result (λ h. IsPoly ring.now h) }
    ensures low_first { OnOk result (HasLowDegrees (all_products (lc_x ring.now b.now) f.now)) }
    ensures low_second { OnOk result (HasLowDegrees (all_products (multiple 1 (lead_quotient ring.now f.now b.now) (lc_x ring.now f.now)) b.now)) }
    ensures degree { IsErrOf result PolyFault.Degree → ¬ (HasLowDegrees (all_products (lc_x ring.now b.now) f.now) × HasLowDegrees (all_products (multiple 1 (lead_quotient ring.now f.now b.now) (lc_x ring.now f.now)) b.now)) }
{
    let lifted = times_lead_quotient(alloc, ring, c, f, b)?;
    let first = Poly::product(alloc, ring, d, f)?;
    let second = Poly::product(alloc, ring, &lifted, b)?;
    let minus_one = ring.modulus.neg(ring.modulus.of_u64(1));
    let negated = Poly::scale(alloc, ring, minus_one, &second)?;
    let rest = Poly::add(alloc, ring, &first, &negated)?;
    Ok(rest)
}

// c*t, where t brings the lead of `b` to that of `f` in the variables.
fn times_lead_quotient(
    alloc: Global,
    ring: &Ring,
    c: &Poly,
    f: &Poly,
    b: &Poly,
) -> Result<Poly, PolyFault>
    requires ring { IsRing ring.now }
    requires coefficient { IsPoly ring.now c.now }
    requires poly { IsPoly ring.now f.now }
    requires member { IsPoly ring.now b.now }
    requires some { 0 < length f.now }
    requires divides { lead_divides ring.now b.now (lead_x ring.now f.now) ≡ true }
    ensures ok { IfOk result (λ h. h ≡ multiple 1 (lead_quotient ring.now f.now b.now) c.now) }
    ensures poly { IfOk result (λ h. IsPoly ring.now h) }
    ensures degree { IsErrOf result PolyFault.Degree → ¬ (HasLowDegrees (multiple 1 (lead_quotient ring.now f.now b.now) c.now)) }
{
    let zero = Poly::zero(alloc);
    let Some(m) = f.lead_x(ring) else {
        return Ok(zero);
    };
    let Some(n) = b.lead_x(ring) else {
        return Ok(zero);
    };
    let mut room = [0; MAX_PLACES];
    quotient_into(m, n, &mut room[..ring.variables as usize]);
    let minus_one = ring.modulus.neg(ring.modulus.of_u64(1));
    Poly::sub_multiple(alloc, ring, &zero, minus_one, &room[..ring.places()], c)
}
