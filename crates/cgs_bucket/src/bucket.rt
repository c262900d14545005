//! A sum of many multiples.

ghost use Rattle.std.specs.Prelude.{◌≡◌, ◌<◌, ◌≤◌, ◌+◌, ◌*◌, ◌++◌, ◌↔◌, [], Some, ⊤, length, drop, slice_get, IfSome, IsNone, OnOk, OnErr, IsErrOf};
ghost use Rattle.cgs_terms.specs.Polynomial.{term, places, canonical, IsPoly, HasLowDegrees};
ghost use Rattle.cgs_terms.specs.Product.{multiple};
ghost use Rattle.cgs_terms.specs.Flat.{terms_of};
ghost use Rattle.cgs_bucket.specs.Levels.{Contents, ring_of};

use crate::fault::BucketFault;
use crate::front::{lead_of, settled};
use crate::level::{Lead, Level};
use crate::levels::add;
use cgs_exps::degree;
use cgs_field::{Elem, Modulus};
use cgs_order::BlockOrder;
use cgs_terms::{Flat, Ring, TermList};
use std::alloc::{AllocError, Global};
use std::marker::Model;

/// A sum, which contracts see as its canonical list of terms.
#[derive(Drop)]
pub struct Bucket {
    levels: Vec<Level>,
    spare: TermList,
    ring: Ring,
    alloc: Global,
}

impl Model for Bucket {
    ghost use Rattle.cgs_terms.specs.Polynomial.{canonical};
    ghost use Rattle.cgs_bucket.specs.Levels.{Contents, all_terms, IsBucket};

    ghost Value = { Contents };

    ghost view = { λ b. record { ring = b.ring; terms = canonical b.ring (all_terms b.levels.items) } };

    ghost invariant = { λ b. IsBucket b.ring b.levels.items };
}

impl Bucket {
    ghost use Rattle.std.specs.Borrow.{sem};
    ghost use mathlib.Core.Option.{none};
    ghost use denote.Follow.{follows_so};
    ghost use Rattle.cgs_bucket.specs.contracts.bucket.Bucket.{the_row};

    /// The empty sum, which takes no memory yet.
    pub fn new(alloc: Global, modulus: Modulus, order: BlockOrder) -> Bucket
        requires few { order.head + order.tail ≤ 17 }
        ensures { result ≡ record { ring = ring_of modulus order; terms = [] } }
    {
        Bucket {
            levels: Vec::new(alloc),
            spare: TermList::new(alloc),
            ring: Ring {
                modulus,
                variables: order.head,
                parameters: order.tail,
                kind: order.kind,
            },
            alloc,
        }
    }

    /// Adds c times m times the terms given. It errs where the degree of m and that of some term add up to more than 32767,
    /// before memory is taken. After an error the sum is as before.
    pub fn add_multiple(
        &mut self,
        c: Elem,
        m: &[u16],
        coefficients: &[Elem],
        exponents: &[u16],
    ) -> Result<(), BucketFault>
        requires positive { 0 < c }
        requires below { c < self.old.ring.modulus }
        requires places { length m.now ≡ places self.old.ring }
        requires flat { length exponents.now ≡ length coefficients.now * places self.old.ring }
        requires poly { IsPoly self.old.ring (terms_of (places self.old.ring) coefficients.now exponents.now) }
        ensures ring { self.new.ring ≡ self.old.ring }
        ensures ok { OnOk result (self.new.terms ≡ canonical self.old.ring (self.old.terms ++ multiple c m.now (terms_of (places self.old.ring) coefficients.now exponents.now))) }
        ensures err { OnErr result (self.new ≡ self.old) }
        ensures degree { IsErrOf result BucketFault.Degree ↔ (¬ HasLowDegrees (multiple c m.now (terms_of (places self.old.ring) coefficients.now exponents.now))) }
    {
        let g = Flat::new(coefficients, exponents, self.ring.places());
        if g.exceeds(degree(m)) {
            return Err(BucketFault::Degree);
        }
        self.add_low_multiple(c, m, coefficients, exponents)?;
        Ok(())
    }

    /// Adds c times m times the terms given, where the degrees are known to fit. After an error the sum is as before.
    pub fn add_low_multiple(
        &mut self,
        c: Elem,
        m: &[u16],
        coefficients: &[Elem],
        exponents: &[u16],
    ) -> Result<(), AllocError>
        requires positive { 0 < c }
        requires below { c < self.old.ring.modulus }
        requires places { length m.now ≡ places self.old.ring }
        requires flat { length exponents.now ≡ length coefficients.now * places self.old.ring }
        requires poly { IsPoly self.old.ring (terms_of (places self.old.ring) coefficients.now exponents.now) }
        requires low { HasLowDegrees (multiple c m.now (terms_of (places self.old.ring) coefficients.now exponents.now)) }
        ensures ring { self.new.ring ≡ self.old.ring }
        ensures ok { OnOk result (self.new.terms ≡ canonical self.old.ring (self.old.terms ++ multiple c m.now (terms_of (places self.old.ring) coefficients.now exponents.now))) }
        ensures err { OnErr result (self.new ≡ self.old) }
    {
        let g = Flat::new(coefficients, exponents, self.ring.places());
        add(
            self.alloc,
            &self.ring,
            &mut self.levels,
            &mut self.spare,
            c,
            m,
            &g,
        )
    }

    /// The term with the greatest monomial, which stays in the sum. No memory is taken.
    pub fn lead(&mut self) -> Option<Lead<'_>>
        ensures none { IsNone result ↔ (self.old.terms ≡ []) }
        ensures first { IfSome result (λ x. slice_get self.old.terms 0 ≡ Some (term x.coefficient.now x.exponents.now)) }
        ensures* stays { sem 𝓛 (follows_so the_row the_row self.entry.ghost_name none (λ _ _. ⊤) (λ after. after ≡ self.old)) }
    {
        // A sum to which nothing was added is asked most often where it is short.
        if self.levels.is_empty() {
            return None;
        }
        let k = settled(&self.ring, &mut self.levels)?;
        Some(lead_of(&self.levels, k))
    }

    /// Takes the term with the greatest monomial away. No memory is taken.
    pub fn drop_lead(&mut self)
        requires { ¬ (self.old.terms ≡ []) }
        ensures ring { self.new.ring ≡ self.old.ring }
        ensures terms { self.new.terms ≡ drop 1 self.old.terms }
    {
        match settled(&self.ring, &mut self.levels) {
            None => {}
            Some(k) => self.levels[k].drop_first(),
        }
    }
}
