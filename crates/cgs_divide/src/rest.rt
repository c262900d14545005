//! What is left of a polynomial in a division.

ghost use Rattle.std.specs.Prelude.{◌≡◌, ◌<◌, ◌≤◌, ◌^◌, ◌++◌, [], ◌∷◌, Some, length, drop, slice_get, IsNone, IfSome, OnOk};
ghost use Rattle.cgs_poly.specs.Polynomial.{IsRing, IsPoly, HasLowDegrees, places, term, canonical};
ghost use Rattle.cgs_poly.specs.Draft.{HaveLength};
ghost use Rattle.cgs_poly.specs.Product.{multiple};
ghost use Rattle.cgs_divide.specs.Rest.{left, against, IsRest};

use cgs_bucket::Bucket;
use cgs_field::Elem;
use cgs_order::compare;
use cgs_poly::{Poly, Ring};
use std::alloc::{AllocError, Global};
use std::cmp::Ordering;

/// What is left of a polynomial: the sum of the multiples that steps added, and the polynomial's own terms from a place
/// on, which nobody copies.
#[derive(Drop)]
pub(crate) struct Rest {
    pub(crate) sum: Bucket,
    pub(crate) from: usize,
}

impl Rest {
    // The terms of a polynomial from a place on.
    pub(crate) fn behind(alloc: Global, ring: &Ring, from: usize) -> Rest
        requires { IsRing ring.now }
        ensures sum { result.sum ≡ record { ring = ring.now; terms = [] } }
        ensures from { result.from ≡ from }
    {
        Rest {
            sum: Bucket::new(alloc, ring.modulus, ring.order()),
            from,
        }
    }

    // Takes the leading term away, if there is one: its monomial is written into `out`, and the answer is its coefficient.
    pub(crate) fn take_lead(&mut self, ring: &Ring, f: &Poly, out: &mut [u16]) -> Option<Elem>
        requires ring { IsRing ring.now }
        requires poly { IsPoly ring.now f.now }
        requires rest { IsRest ring.now f.now self.old }
        requires out { length out.old ≡ places ring.now }
        ensures rest { IsRest ring.now f.now self.new }
        ensures out { length out.new ≡ places ring.now }
        ensures none { IsNone result → left ring.now self.old f.now ≡ [] }
        ensures first { IfSome result (λ c. left ring.now self.old f.now ≡ term c out.new ∷ left ring.now self.new f.now) }
    {
        while let Some(c) = self.summed_lead(out) {
            match self.against_own(ring, f, out) {
                Ordering::Less => return self.take_own(f, out),
                Ordering::Greater => {
                    self.sum.drop_lead();
                    return Some(c);
                }
                Ordering::Equal => {}
            }
            let joined = ring.modulus.add(c, f.term(self.from).coefficient);
            self.sum.drop_lead();
            self.from += 1;
            if joined.number() != 0 {
                return Some(joined);
            }
        }
        self.take_own(f, out)
    }

    // The coefficient of the sum's leading term, whose monomial is written into `out`.
    fn summed_lead(&mut self, out: &mut [u16]) -> Option<Elem>
        requires poly { IsPoly self.old.sum.ring self.old.sum.terms }
        requires out { length out.old ≡ places self.old.sum.ring }
        ensures same { self.new ≡ self.old }
        ensures out { length out.new ≡ length out.old }
        ensures none { IsNone result → self.old.sum.terms ≡ [] }
        ensures first { IfSome result (λ c. slice_get self.old.sum.terms 0 ≡ Some (term c out.new)) }
    {
        let lead = self.sum.lead()?;
        out.copy_from_slice(lead.exponents);
        Some(*lead.coefficient)
    }

    // How a monomial compares to the first of the polynomial's own terms that are left. It is greater where there is none.
    fn against_own(&self, ring: &Ring, f: &Poly, m: &[u16]) -> Ordering
        requires poly { IsPoly ring.now f.now }
        requires places { length m.now ≡ places ring.now }
        ensures order { result ≡ against ring.now m.now (drop self.now.from f.now) }
        ensures few { length f.now < 2 ^ 64 }
    {
        if self.from >= f.len() {
            return Ordering::Greater;
        }
        compare(&ring.order(), m, f.term(self.from).exponents)
    }

    // Takes away the first of the polynomial's own terms that are left.
    fn take_own(&mut self, f: &Poly, out: &mut [u16]) -> Option<Elem>
        requires places { HaveLength (length out.old) f.now }
        ensures sum { self.new.sum ≡ self.old.sum }
        ensures from { self.old.from ≤ length f.now → self.new.from ≤ length f.now }
        ensures out { length out.new ≡ length out.old }
        ensures none { IsNone result → drop self.old.from f.now ≡ [] }
        ensures first { IfSome result (λ c. drop self.old.from f.now ≡ term c out.new ∷ drop self.new.from f.now) }
    {
        if self.from >= f.len() {
            return None;
        }
        let first = f.term(self.from);
        out.copy_from_slice(first.exponents);
        self.from += 1;
        Some(first.coefficient)
    }

    // Adds a multiple of the terms of a divisor behind its leading one, where the degrees are known to fit.
    pub(crate) fn add_behind_lead(
        &mut self,
        c: Elem,
        t: &[u16],
        divisor: &Poly,
    ) -> Result<(), AllocError>
        requires positive { 0 < c }
        requires below { c < self.old.sum.ring.modulus }
        requires places { length t.now ≡ places self.old.sum.ring }
        requires divisor { IsPoly self.old.sum.ring divisor.now }
        requires some { 0 < length divisor.now }
        requires low { HasLowDegrees (multiple c t.now (drop 1 divisor.now)) }
        ensures from { self.new.from ≡ self.old.from }
        ensures ring { self.new.sum.ring ≡ self.old.sum.ring }
        ensures sum { OnOk result (self.new.sum.terms ≡ canonical self.old.sum.ring (self.old.sum.terms ++ multiple c t.now (drop 1 divisor.now))) }
    {
        let coefficients = divisor.coefficients();
        let exponents = divisor.exponents();
        self.sum
            .add_low_multiple(c, t, &coefficients[1..], &exponents[t.len()..])
    }
}
