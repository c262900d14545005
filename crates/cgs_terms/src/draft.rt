//! Terms as they are put together, one after the other, with room for all of them from the start.

ghost use Rattle.std.specs.Prelude.{◌≡◌, ◌≤◌, ◌<◌, ◌+◌, ◌*◌, ℕ, [], ◌∷◌, ◌++◌, length, take, drop, ◌-◌, vec_len, vec_capacity, OnOk, IfOk, IfSome};
ghost use Rattle.cgs_terms.specs.Polynomial.{term};
ghost use Rattle.cgs_terms.specs.Merge.{joined};
ghost use Rattle.cgs_terms.specs.Draft.{terms_in, IsFlat, HasRoom, Appended, HaveLength};

use crate::flat::{Flat, coefficients_part, part};
use crate::list::TermList;
use crate::ring::Ring;
use cgs_field::Elem;
use std::alloc::{AllocError, Global};

/// Terms of one length in two flat vectors. Nothing is known of them after an error.
#[derive(Drop)]
pub struct Draft {
    pub coefficients: Vec<Elem>,
    pub exponents: Vec<u16>,
    pub places: usize,
}

impl Draft {
    /// No terms yet, and room for so many coefficients and exponents.
    pub fn with_room(
        alloc: Global,
        places: usize,
        coefficients: usize,
        exponents: usize,
    ) -> Result<Draft, AllocError>
        ensures none { IfOk result (λ draft. terms_in draft ≡ []) }
        ensures flat { IfOk result IsFlat }
        ensures places { IfOk result (λ draft. draft.places ≡ places) }
        ensures room { IfOk result (λ draft. (n : ℕ) → n ≤ coefficients → n * places ≤ exponents → HasRoom draft n) }
    {
        Ok(Draft {
            coefficients: Vec::with_capacity(alloc, coefficients)?,
            exponents: Vec::with_capacity(alloc, exponents)?,
            places,
        })
    }

    /// No terms yet, and room for all terms of two lists.
    pub fn with_room_for(
        alloc: Global,
        places: usize,
        f: &Flat<'_>,
        g: &Flat<'_>,
    ) -> Result<Draft, AllocError>
        ensures none { IfOk result (λ draft. terms_in draft ≡ []) }
        ensures flat { IfOk result IsFlat }
        ensures places { IfOk result (λ draft. draft.places ≡ places) }
        ensures room { IfOk result (λ draft. HaveLength places f.now → HaveLength places g.now → HasRoom draft (length f.now + length g.now)) }
    {
        let coefficients = f.coefficients.len() + g.coefficients.len();
        let exponents = f.exponents.len() + g.exponents.len();
        let draft = Draft::with_room(alloc, places, coefficients, exponents)?;
        Ok(draft)
    }

    /// No terms, in the memory of a list, which grows where it has no room for all terms of two lists.
    pub fn reusing(
        list: TermList,
        places: usize,
        f: &Flat<'_>,
        g: &Flat<'_>,
    ) -> Result<Draft, AllocError>
        ensures none { IfOk result (λ draft. terms_in draft ≡ []) }
        ensures flat { IfOk result IsFlat }
        ensures places { IfOk result (λ draft. draft.places ≡ places) }
        ensures room { IfOk result (λ draft. HaveLength places f.now → HaveLength places g.now → HasRoom draft (length f.now + length g.now)) }
    {
        let mut coefficients = list.coefficients;
        let mut exponents = list.exponents;
        coefficients.clear();
        coefficients.reserve(f.coefficients.len() + g.coefficients.len())?;
        exponents.clear();
        exponents.reserve(f.exponents.len() + g.exponents.len())?;
        Ok(Draft {
            coefficients,
            exponents,
            places,
        })
    }

    /// Puts a term at the end, for which there is room.
    #[inline(always)]
    pub fn push(&mut self, c: Elem, m: &[u16])
        requires flat { IsFlat self.old }
        requires places { length m.now ≡ self.old.places }
        requires room { HasRoom self.old 1 }
        ensures appended { Appended self.old self.new (term c m.now ∷ []) }
        ensures room { (n : ℕ) → HasRoom self.old (n + 1) → HasRoom self.new n }
    {
        self.coefficients.push_reserved(c);
        push_row(&mut self.exponents, m);
    }

    /// Puts a term at the end whose monomial is given in two parts.
    pub fn push_parts(&mut self, c: Elem, head: &[u16], tail: &[u16]) -> Result<(), AllocError>
        requires flat { IsFlat self.old }
        requires places { length head.now + length tail.now ≡ self.old.places }
        ensures { OnOk result (Appended self.old self.new (term c (head.now ++ tail.now) ∷ [])) }
    {
        self.coefficients.push(c)?;
        self.exponents.extend_from_slice(head)?;
        self.exponents.extend_from_slice(tail)?;
        Ok(())
    }

    /// Puts the terms of a list from one place up to another at the end.
    pub fn extend(&mut self, f: &Flat<'_>, from: usize, to: usize) -> Result<(), AllocError>
        requires flat { IsFlat self.old }
        requires places { HaveLength self.old.places f.now }
        requires rising { from ≤ to }
        requires within { to ≤ length f.now }
        ensures { OnOk result (Appended self.old self.new (take (to - from) (drop from f.now))) }
    {
        if from == to {
            return Ok(());
        }
        self.coefficients
            .extend_from_slice(coefficients_part(f.coefficients, from, to))?;
        self.exponents
            .extend_from_slice(part(f.exponents, f.places, from, to))?;
        Ok(())
    }

    /// Puts a term at the end, for which there is room, together with a term of the same monomial if there is one with this
    /// coefficient.
    #[inline(always)]
    pub fn push_joined(&mut self, ring: &Ring, met: Option<Elem>, c: Elem, m: &[u16])
        requires flat { IsFlat self.old }
        requires places { length m.now ≡ self.old.places }
        requires met { IfSome met (λ d. d < ring.now.modulus) }
        requires below { c < ring.now.modulus }
        requires room { HasRoom self.old 1 }
        ensures appended { Appended self.old self.new (joined ring.now c m.now met) }
        ensures room { (n : ℕ) → HasRoom self.old (n + 1) → HasRoom self.new n }
    {
        let Some(other) = met else {
            return self.push(c, m);
        };
        let sum = ring.modulus.add(other, c);
        if sum.number() != 0 {
            self.push(sum, m);
        }
    }

    /// The list of these terms.
    pub fn finish(self) -> TermList
        requires flat { IsFlat self }
        ensures { result ≡ terms_in self }
    {
        TermList {
            coefficients: self.coefficients,
            exponents: self.exponents,
            places: self.places,
        }
    }
}

/// Puts the exponents of a monomial at the end, for which there is room. They are few: pushing each takes less time than a call that copies
/// them all.
#[inline(always)]
pub(crate) fn push_row(exponents: &mut Vec<u16>, m: &[u16])
    requires room { vec_len exponents.old + length m.now ≤ vec_capacity exponents.old }
    ensures items { exponents.new.items ≡ exponents.old.items ++ m.now }
    ensures len { vec_len exponents.new ≡ vec_len exponents.old + length m.now }
    ensures capacity { vec_capacity exponents.new ≡ vec_capacity exponents.old }
{
    for &x in m {
        exponents.push_reserved(x);
    }
}
