//! The greatest degrees of the divisors' terms behind their leads. Each is looked up at the first step by its divisor.

ghost use Rattle.std.specs.Prelude.{◌≡◌, ◌<◌, ◌≤◌, [], length, slice_index_or, IfOk};
ghost use Rattle.cgs_poly.specs.Polynomial.{IsRing, ArePolys};
ghost use Rattle.cgs_poly.specs.Draft.{HaveLength};
ghost use Rattle.cgs_divide.specs.Tops as tops;

use cgs_exps::MAX_PLACES;
use cgs_poly::{Poly, PolyList, Ring};
use cgs_terms::Flat;
use std::alloc::{AllocError, Global};

/// The degrees that are known so far, each at the place of its divisor.
#[derive(Drop)]
pub(crate) struct Tops {
    degrees: Vec<Option<u32>>,
}

impl Tops {
    // No degree is known yet.
    pub(crate) fn unknown(alloc: Global, divisors: &PolyList) -> Result<Tops, AllocError>
        ensures { IfOk result (λ known. tops.AreTops divisors.now known.degrees.items) }
    {
        let mut degrees = Vec::new(alloc);
        degrees.resize(divisors.len(), None)?;
        Ok(Tops { degrees })
    }

    // The greatest degree of the terms behind the lead of the divisor at a place.
    pub(crate) fn top(&mut self, ring: &Ring, divisors: &PolyList, i: usize) -> u32
        requires ring { IsRing ring.now }
        requires divisors { ArePolys ring.now divisors.now }
        requires within { i < length divisors.now }
        requires some { 0 < length (slice_index_or divisors.now i []) }
        requires known { tops.AreTops divisors.now self.old.degrees.items }
        ensures top { result ≡ tops.top_behind_lead (slice_index_or divisors.now i []) }
        ensures known { tops.AreTops divisors.now self.new.degrees.items }
    {
        if let Some(top) = self.degrees[i] {
            return top;
        }
        let top = top_behind_lead(divisors.get(i), ring.places());
        self.degrees[i] = Some(top);
        top
    }
}

// The greatest degree of the terms behind the lead.
fn top_behind_lead(f: &Poly, places: usize) -> u32
    requires some { 0 < length f.now }
    requires few { places ≤ MAX_PLACES }
    requires lengths { HaveLength places f.now }
    ensures { result ≡ tops.top_behind_lead f.now }
{
    let terms = Flat::new(f.coefficients(), f.exponents(), places);
    terms.between(1, f.len()).top_degree()
}
