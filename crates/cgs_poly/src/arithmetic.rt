//! The arithmetic of polynomials.

ghost use Rattle.std.specs.Prelude.{ℕ, List, [], ◌≡◌, ◌+◌, ◌-◌, ◌*◌, ◌++◌, ◌%◌, ◌<◌, ◌↔◌, length, IfOk, OnOk, IsErrOf};
ghost use Rattle.cgs_poly.specs.Polynomial.{IsRing, IsPoly, HasLowDegrees, places, canonical, coefficient};
ghost use Rattle.cgs_poly.specs.Product.{scaled, multiple, leading_coefficient};
ghost use Rattle.cgs_poly.specs.Monic.{monic_of};

use crate::fault::PolyFault;
use crate::merge::{merged, multiplied};
use crate::poly::Poly;
use cgs_exps::degree;
use cgs_field::Elem;
use cgs_terms::{Factor, Once, Ring, Scalar};
use std::alloc::{AllocError, Global};

impl Poly {
    /// The sum, in one pass over both.
    pub fn add(alloc: Global, ring: &Ring, f: &Poly, g: &Poly) -> Result<Poly, AllocError>
        requires ring { IsRing ring.now }
        requires first { IsPoly ring.now f.now }
        requires second { IsPoly ring.now g.now }
        ensures sum { IfOk result (λ h. h ≡ canonical ring.now (f.now ++ g.now)) }
        ensures poly { IfOk result (λ h. IsPoly ring.now h) }
        ensures coefficients { IfOk result (λ h. (m : List ℕ) → coefficient ring.now.modulus h m ≡ (coefficient ring.now.modulus f.now m + coefficient ring.now.modulus g.now m) % ring.now.modulus) }
    {
        let sum = merged(alloc, ring, f, g, &Once)?;
        Ok(sum)
    }

    /// The number c times f.
    pub fn scale(alloc: Global, ring: &Ring, c: Elem, f: &Poly) -> Result<Poly, AllocError>
        requires ring { IsRing ring.now }
        requires below { c < ring.now.modulus }
        requires poly { IsPoly ring.now f.now }
        ensures multiple { IfOk result (λ h. h ≡ canonical ring.now (scaled c f.now)) }
        ensures poly { IfOk result (λ h. IsPoly ring.now h) }
        ensures coefficients { IfOk result (λ h. (m : List ℕ) → coefficient ring.now.modulus h m ≡ (c * coefficient ring.now.modulus f.now m) % ring.now.modulus) }
    {
        if c.number() == 0 {
            return Ok(Poly::zero(alloc));
        }
        let scaled = multiplied(alloc, ring, f, &Scalar { number: c })?;
        Ok(scaled)
    }

    /// The multiple of f by a number whose leading coefficient is 1; 0 stays 0.
    pub fn monic(alloc: Global, ring: &Ring, f: &Poly) -> Result<Poly, AllocError>
        requires ring { IsRing ring.now }
        requires poly { IsPoly ring.now f.now }
        ensures monic { IfOk result (λ h. h ≡ monic_of ring.now f.now) }
        ensures zero { IfOk result (λ h. f.now ≡ [] → h ≡ []) }
        ensures lead { IfOk result (λ h. ¬ (f.now ≡ []) → leading_coefficient h ≡ 1) }
        ensures multiple { IfOk result (λ h. f.now ≡ canonical ring.now (scaled (leading_coefficient f.now) h)) }
        ensures poly { IfOk result (λ h. IsPoly ring.now h) }
    {
        let Some(lead) = f.lead() else {
            return Ok(Poly::zero(alloc));
        };
        let scaled = Poly::scale(alloc, ring, ring.modulus.inverse(lead.coefficient), f)?;
        Ok(scaled)
    }

    /// f minus c times m times g, in one pass over both. It errs where a monomial of m times g has a degree above 32767,
    /// before memory is taken.
    pub fn sub_multiple(
        alloc: Global,
        ring: &Ring,
        f: &Poly,
        c: Elem,
        m: &[u16],
        g: &Poly,
    ) -> Result<Poly, PolyFault>
        requires ring { IsRing ring.now }
        requires first { IsPoly ring.now f.now }
        requires positive { 0 < c }
        requires below { c < ring.now.modulus }
        requires places { length m.now ≡ places ring.now }
        requires second { IsPoly ring.now g.now }
        ensures difference { IfOk result (λ h. h ≡ canonical ring.now (f.now ++ multiple (ring.now.modulus - c) m.now g.now)) }
        ensures poly { IfOk result (λ h. IsPoly ring.now h) }
        ensures degree { IsErrOf result PolyFault.Degree ↔ (¬ HasLowDegrees (multiple c m.now g.now)) }
        ensures low { OnOk result (HasLowDegrees (multiple c m.now g.now)) }
        ensures coefficients { IfOk result (λ h. (n : List ℕ) → (coefficient ring.now.modulus h n + coefficient ring.now.modulus (multiple c m.now g.now) n) % ring.now.modulus ≡ coefficient ring.now.modulus f.now n) }
    {
        if g.exceeds(degree(m)) {
            return Err(PolyFault::Degree);
        }
        let factor = Factor {
            coefficient: ring.modulus.neg(c),
            exponents: m,
        };
        let difference = merged(alloc, ring, f, g, &factor)?;
        Ok(difference)
    }
}
