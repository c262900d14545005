//! A list of conditions that grows: whether a polynomial stands there is looked up in an index.

ghost use Rattle.std.specs.Prelude.{◌≡◌, ◌++◌, [], ◌∷◌, IfOk, OnOk, OnErr};
ghost use Rattle.std.specs.List.{AllByRecursion};
ghost use Rattle.cgs_poly.specs.Polynomial.{IsRing, IsPoly};
ghost use Rattle.cgs_poly.specs.Parameters.{IsCondition};
ghost use Rattle.cgs_poly.specs.Same.{is_among as stands};
ghost use Rattle.cgs_entry.specs.Conditions.{with_member};
ghost use Rattle.cgs_entry.specs.Index.{numbers_of as all_numbers};

use cgs_list::Duplicate;
use cgs_poly::{Poly, PolyList, Ring, is_among};
use std::alloc::{AllocError, Global};
use std::collections::BTreeMap;
use std::marker::Model;

/// Conditions that more are added to, which contracts see as their list.
#[derive(Drop)]
pub struct GrowingList {
    members: PolyList,
    // the numbers of each member, with its place
    index: BTreeMap<Vec<u16>, usize>,
}

impl Model for GrowingList {
    ghost use Rattle.std.specs.Prelude.{List};
    ghost use Rattle.cgs_poly.specs.Polynomial.{Term};
    ghost use Rattle.cgs_entry.specs.Index.{AreIndexed};

    ghost Value = { List (List Term) };

    ghost view = { λ list. list.members };

    ghost invariant = { λ list. AreIndexed list.index.entries (λ k. k.items) list.members };
}

impl GrowingList {
    /// A list that begins with copies of these.
    #[tactic(auto, using(cgs_list::proofs::ListLemmas::take_next))]
    pub fn new(alloc: Global, start: &PolyList) -> Result<GrowingList, AllocError>
        ensures { IfOk result (λ list. list ≡ start.now) }
    {
        let mut list = GrowingList {
            members: PolyList::new(alloc),
            index: BTreeMap::new(alloc),
        };
        for i in 0..start.len() {
            let f = start.get(i).copy()?;
            let numbers = numbers_of(alloc, &f)?;
            list.push(numbers, f)?;
        }
        Ok(list)
    }

    /// Adds a polynomial as `add` does.
    pub fn add(&mut self, alloc: Global, ring: &Ring, f: &Poly) -> Result<(), AllocError>
        requires ring { IsRing ring.now }
        requires poly { IsPoly ring.now f.now }
        ensures ok { OnOk result (self.new ≡ with_member ring.now self.old f.now) }
        ensures err { OnErr result (self.new ≡ self.old) }
        ensures conditions { OnOk result (AllByRecursion (IsCondition ring.now) self.old → IsCondition ring.now f.now → AllByRecursion (IsCondition ring.now) self.new) }
    {
        let monic = Poly::monic(alloc, ring, f)?;
        let numbers = numbers_of(alloc, &monic)?;
        if !self.has(numbers.as_slice(), &monic) {
            self.push(numbers, monic)?;
        }
        Ok(())
    }

    /// The conditions.
    pub fn members(&self) -> &PolyList
        ensures { result.now ≡ self.now }
    {
        &self.members
    }

    /// The conditions, with no index.
    pub fn into_members(self) -> PolyList
        ensures { result ≡ self }
    {
        self.members
    }

    // Whether a polynomial stands in the list. After a push that found no memory, and only then, another or none may stand at its place.
    fn has(&self, numbers: &[u16], f: &Poly) -> bool
        requires { numbers.now ≡ all_numbers f.now }
        ensures { result ≡ stands f.now self.now }
    {
        let Some(&place) = self.index.get(numbers) else {
            return false;
        };
        if place < self.members.len() && self.members.get(place).same(f) {
            return true;
        }
        is_among(f, &self.members)
    }

    // Puts a polynomial at the end.
    fn push(&mut self, numbers: Vec<u16>, f: Poly) -> Result<(), AllocError>
        requires { numbers.items ≡ all_numbers f }
        ensures ok { OnOk result (self.new ≡ self.old ++ f ∷ []) }
        ensures err { OnErr result (self.new ≡ self.old) }
    {
        self.index.insert(numbers, self.members.len())?;
        self.members.push(f)?;
        Ok(())
    }
}

// All exponents, and then all coefficients.
fn numbers_of(alloc: Global, f: &Poly) -> Result<Vec<u16>, AllocError>
    ensures { IfOk result (λ all. all.items ≡ all_numbers f.now) }
{
    let exponents = f.exponents();
    let coefficients = f.coefficients();
    let mut all = Vec::with_capacity(alloc, exponents.len() + coefficients.len())?;
    all.extend_from_slice(exponents)?;
    for c in coefficients {
        all.push(c.number())?;
    }
    Ok(all)
}
