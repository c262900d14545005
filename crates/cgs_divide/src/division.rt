//! The division of a polynomial by a list of polynomials.

ghost use Rattle.std.specs.Prelude.{◌≡◌, ◌<◌, ◌≤◌, ◌-◌, ◌++◌, ℕ, [], ◌∷◌, length, slice_index_or, slice_set, drop, map, replicate, IsTrue, IsNone, IfSome, IfOk, OnOk, OnErr, IsErrOf, IfErr};
ghost use Rattle.std.specs.List.{AllByRecursion};
ghost use Rattle.cgs_exps.specs.Monomial as monomial;
ghost use Rattle.cgs_exps.specs.Mask as masks;
ghost use Rattle.cgs_poly.specs.Polynomial.{IsRing, IsPoly, HasLowDegrees, places, term, canonical, ArePolys};
ghost use Rattle.cgs_poly.specs.Product.{leading_monomial, multiple};
ghost use Rattle.cgs_poly.specs.Draft.{HaveLength};
ghost use Rattle.cgs_algebra.specs.Groebner.{AreMonic};
ghost use Rattle.cgs_divide.specs.Ending.{EndsAs};
ghost use Rattle.cgs_divide.specs.DivisionRun.{divided, remainder_of, keeping, lead_mask};
ghost use Rattle.cgs_divide.specs.DivisionRun as run;
ghost use Rattle.cgs_divide.specs.Division.{HasDivided, IsRemainder};
ghost use Rattle.cgs_divide.specs.Tops.{top_behind_lead};

use crate::rest::Rest;
use crate::stop::Stop;
use crate::tops::Tops;
use cgs_exps::{MAX_DEGREE, MAX_PLACES, degree, divides, mask, may_divide, quotient_into};
use cgs_field::Elem;
use cgs_poly::{Poly, PolyList, Ring};
use std::alloc::{AllocError, Global};

/// What a division finds: no lead of a divisor divides a monomial of the remainder, and there is a quotient for each
/// divisor (Cox, Little, O'Shea, chapter 2, section 3).
#[derive(Debug, Drop)]
pub struct Division {
    pub remainder: Poly,
    pub quotients: PolyList,
}

/// Divides a polynomial by monic ones. A step takes as many units from `fuel` as its divisor has terms, and a term of
/// the remainder takes one. It errs where a step costs more than is left, or where a multiple of a divisor has a monomial
/// of a degree above 32767; `fuel` is what is left then.
pub fn divide(
    alloc: Global,
    ring: &Ring,
    f: &Poly,
    divisors: &PolyList,
    fuel: &mut u64,
) -> Result<Division, Stop>
    requires ring { IsRing ring.now }
    requires poly { IsPoly ring.now f.now }
    requires monic { AreMonic ring.now divisors.now }
    requires divisors { ArePolys ring.now divisors.now }
    ensures ends { EndsAs (divided ring.now divisors.now fuel.old f.now) fuel.new result }
    ensures found { IfOk result (λ d. HasDivided ring.now divisors.now f.now d.remainder d.quotients) }
    ensures remainder { IfOk result (λ d. IsPoly ring.now d.remainder) }
    ensures quotients { IfOk result (λ d. ArePolys ring.now d.quotients) }
    ensures units { fuel.new ≤ fuel.old }
{
    divide_keeping(alloc, ring, f, divisors, divisors.len(), fuel)
}

/// The remainder alone, by the same steps as in `divide`, where nobody asks for the quotients. Units and errors are as for
/// `divide`.
pub fn remainder(
    alloc: Global,
    ring: &Ring,
    f: &Poly,
    divisors: &PolyList,
    fuel: &mut u64,
) -> Result<Poly, Stop>
    requires ring { IsRing ring.now }
    requires poly { IsPoly ring.now f.now }
    requires monic { AreMonic ring.now divisors.now }
    requires divisors { ArePolys ring.now divisors.now }
    ensures ends { EndsAs (remainder_of (divided ring.now divisors.now fuel.old f.now)) fuel.new result }
    ensures found { IfOk result (λ r. IsRemainder ring.now divisors.now f.now r) }
    ensures poly { IfOk result (λ r. IsPoly ring.now r) }
    ensures units { fuel.new ≤ fuel.old }
{
    let Division { remainder, .. } = divide_keeping(alloc, ring, f, divisors, 0, fuel)?;
    Ok(remainder)
}

// The division with the quotients of the first `kept` divisors.
fn divide_keeping(
    alloc: Global,
    ring: &Ring,
    f: &Poly,
    divisors: &PolyList,
    kept: usize,
    fuel: &mut u64,
) -> Result<Division, Stop>
    requires ring { IsRing ring.now }
    requires poly { IsPoly ring.now f.now }
    requires monic { AreMonic ring.now divisors.now }
    requires divisors { ArePolys ring.now divisors.now }
    requires kept { kept ≤ length divisors.now }
    ensures ends { EndsAs (keeping kept (divided ring.now divisors.now fuel.old f.now)) fuel.new result }
    ensures units { fuel.new ≤ fuel.old }
{
    let mut quotients = zeros(alloc, kept)?;
    let masks = lead_masks(alloc, divisors)?;
    let before = undivided(divisors, &masks, f, *fuel);
    *fuel -= before as u64;
    let mut remainder = Poly::first_terms(alloc, f, before)?;
    let mut rest = Rest::behind(alloc, ring, before);
    let mut tops = Tops::unknown(alloc, divisors)?;
    let places = ring.places();
    let mut room = [0; MAX_PLACES];
    while let Some(c) = rest.take_lead(ring, f, &mut room[..places]) {
        let leading = &room[..places];
        match first_divisor(divisors, &masks, leading) {
            None => {
                spend(fuel, 1)?;
                remainder.push(c, leading)?;
            }
            Some(i) => {
                let divisor = divisors.get(i);
                let mut quotient = [0; MAX_PLACES];
                let t = &mut quotient[..places];
                lead_quotient_into(leading, divisor, t);
                keep_term(&mut quotients, i, c, t)?;
                let top = tops.top(ring, divisors, i);
                reduce(ring, &mut rest, c, t, divisor, top, fuel)?;
            }
        }
    }
    Ok(Division {
        remainder,
        quotients: PolyList::from_vec(quotients),
    })
}

// So many polynomials 0.
fn zeros(alloc: Global, count: usize) -> Result<Vec<Poly>, AllocError>
    ensures { IfOk result (λ zeros. zeros.items ≡ replicate count []) }
{
    let mut zeros = Vec::with_capacity(alloc, count)?;
    for _ in 0..count {
        zeros.push(Poly::zero(alloc))?;
    }
    Ok(zeros)
}

// The masks of the divisors' leads.
fn lead_masks(alloc: Global, divisors: &PolyList) -> Result<Vec<u32>, AllocError>
    requires some { (i : ℕ) → i < length divisors.now → 0 < length (slice_index_or divisors.now i []) }
    requires places { (i : ℕ) → i < length divisors.now → length (leading_monomial (slice_index_or divisors.now i [])) ≤ MAX_PLACES }
    ensures { IfOk result (λ masks. masks.items ≡ map lead_mask divisors.now) }
{
    let mut masks = Vec::with_capacity(alloc, divisors.len())?;
    for i in 0..divisors.len() {
        masks.push(mask(divisors.get(i).term(0).exponents))?;
    }
    Ok(masks)
}

// How many terms stand before the first that the lead of a divisor divides, at most `limit`.
fn undivided(divisors: &PolyList, masks: &[u32], f: &Poly, limit: u64) -> usize
    requires places { AllByRecursion (λ x. length x.exponents ≤ MAX_PLACES) f.now }
    requires some { (i : ℕ) → i < length divisors.now → 0 < length (slice_index_or divisors.now i []) }
    requires lengths { (i : ℕ) → i < length divisors.now → HaveLength (length (leading_monomial (slice_index_or divisors.now i []))) f.now }
    requires masks { masks.now ≡ map lead_mask divisors.now }
    ensures { result ≡ run.undivided limit divisors.now f.now }
{
    let most = limit.min(f.len() as u64) as usize;
    for i in 0..most {
        if first_divisor(divisors, masks, f.term(i).exponents).is_some() {
            return i;
        }
    }
    most
}

// The place of the first divisor whose lead divides a monomial.
fn first_divisor(divisors: &PolyList, masks: &[u32], m: &[u16]) -> Option<usize>
    requires places { length m.now ≤ MAX_PLACES }
    requires some { (i : ℕ) → i < length divisors.now → 0 < length (slice_index_or divisors.now i []) }
    requires lengths { (i : ℕ) → i < length divisors.now → length (leading_monomial (slice_index_or divisors.now i [])) ≡ length m.now }
    requires masks { masks.now ≡ map lead_mask divisors.now }
    ensures none { IsNone result → length divisors.now ≤ run.first_divisor divisors.now m.now }
    ensures first { IfSome result (λ i. (i < length divisors.now) × (run.first_divisor divisors.now m.now ≡ i)) }
{
    let m_mask = mask(m);
    for i in 0..divisors.len() {
        if lead_divides(divisors.get(i), masks[i], m, m_mask) {
            return Some(i);
        }
    }
    None
}

// Whether the lead of a divisor divides a monomial. Most divisors are passed over by their masks.
fn lead_divides(divisor: &Poly, lead_mask: u32, m: &[u16], m_mask: u32) -> bool
    requires some { 0 < length divisor.now }
    requires same_places { length (leading_monomial divisor.now) ≡ length m.now }
    requires places { length m.now ≤ MAX_PLACES }
    requires lead { lead_mask ≡ masks.mask (leading_monomial divisor.now) }
    requires mask { m_mask ≡ masks.mask m.now }
    ensures { result ≡ monomial.divides (leading_monomial divisor.now) m.now }
{
    may_divide(lead_mask, m_mask) && divides(divisor.term(0).exponents, m)
}

/// Takes the cost of a step from the units that are left. It errs where the step costs more, and takes nothing then.
pub fn spend(fuel: &mut u64, cost: u64) -> Result<(), Stop>
    ensures ok { OnOk result ((cost ≤ fuel.old) × (fuel.new ≡ fuel.old - cost)) }
    ensures budget { OnErr result ((fuel.old < cost) × (fuel.new ≡ fuel.old)) }
    ensures err { IfErr result (λ stop. stop ≡ Stop.Budget) }
{
    if *fuel < cost {
        return Err(Stop::Budget);
    }
    *fuel -= cost;
    Ok(())
}

// Writes the monomial that the lead of a divisor is multiplied by to make a monomial into `out`.
fn lead_quotient_into(m: &[u16], divisor: &Poly, out: &mut [u16])
    requires some { 0 < length divisor.now }
    requires same_places { length (leading_monomial divisor.now) ≡ length m.now }
    requires out_places { length out.old ≡ length m.now }
    requires places { length m.now ≤ MAX_PLACES }
    requires divides { IsTrue (monomial.divides (leading_monomial divisor.now) m.now) }
    ensures { out.new ≡ monomial.quotient m.now (leading_monomial divisor.now) }
{
    quotient_into(m, divisor.term(0).exponents, out);
}

// The step by a divisor whose multiple starts with the term that was taken: the terms behind its lead, of which `top` is the
// greatest degree, are subtracted.
fn reduce(
    ring: &Ring,
    rest: &mut Rest,
    c: Elem,
    t: &[u16],
    divisor: &Poly,
    top: u32,
    fuel: &mut u64,
) -> Result<(), Stop>
    requires ring { rest.old.sum.ring ≡ ring.now }
    requires modulus { IsRing ring.now }
    requires positive { 0 < c }
    requires below { c < ring.now.modulus }
    requires places { length t.now ≡ places ring.now }
    requires low { monomial.degree t.now ≤ MAX_DEGREE }
    requires divisor { IsPoly ring.now divisor.now }
    requires some { 0 < length divisor.now }
    requires top { top ≡ top_behind_lead divisor.now }
    ensures from { rest.new.from ≡ rest.old.from }
    ensures ring { rest.new.sum.ring ≡ ring.now }
    ensures sum { OnOk result (rest.new.sum.terms ≡ canonical ring.now (rest.old.sum.terms ++ multiple (ring.now.modulus - c) t.now (drop 1 divisor.now))) }
    ensures paid { OnOk result ((length divisor.now ≤ fuel.old) × (fuel.new ≡ fuel.old - length divisor.now)) }
    ensures low { OnOk result (HasLowDegrees (multiple (ring.now.modulus - c) t.now (drop 1 divisor.now))) }
    ensures budget { IsErrOf result Stop.Budget → (fuel.old < length divisor.now) × (fuel.new ≡ fuel.old) }
    ensures degree { IsErrOf result Stop.Degree → (length divisor.now ≤ fuel.old) × (fuel.new ≡ fuel.old - length divisor.now) × (¬ HasLowDegrees (multiple (ring.now.modulus - c) t.now (drop 1 divisor.now))) }
    ensures memory { fuel.new ≤ fuel.old }
{
    spend(fuel, divisor.len() as u64)?;
    if degree(t) + top > MAX_DEGREE {
        return Err(Stop::Degree);
    }
    rest.add_behind_lead(ring.modulus.neg(c), t, divisor)?;
    Ok(())
}

// Puts a term at the end of the quotient at a place, if there is one.
fn keep_term(quotients: &mut Vec<Poly>, i: usize, c: Elem, m: &[u16]) -> Result<(), AllocError>
    requires places { HaveLength (length m.now) (slice_index_or quotients.old.items i []) }
    ensures { OnOk result (quotients.new.items ≡ slice_set quotients.old.items i (slice_index_or quotients.old.items i [] ++ term c m.now ∷ [])) }
{
    if i < quotients.len() {
        quotients[i].push(c, m)?;
    }
    Ok(())
}
