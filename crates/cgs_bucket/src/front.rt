//! The greatest leading term of the levels.

ghost use Rattle.std.specs.Prelude.{◌≡◌, ◌<◌, [], Some, length, slice_get, slice_index_or, IfSome, IsNone};
ghost use Rattle.cgs_terms.specs.Polynomial.{ArePolys, term};
ghost use Rattle.cgs_terms.specs.Product.{leading_monomial};
ghost use Rattle.cgs_bucket.specs.Levels.{all_terms, IsTie, IsFront, IsFound, SameSum};

use crate::level::{Lead, Level};
use cgs_order::compare;
use cgs_terms::Ring;
use std::cmp::Ordering;

/// What is found at the front: no term, the level that has the greatest, or two levels that start with one monomial.
#[derive(Clone, Copy)]
pub(crate) enum Front {
    Nothing,
    One(usize),
    Two(usize, usize),
}

/// The place of the level that starts with the greatest monomial, which no other level has after the call.
pub(crate) fn settled(ring: &Ring, levels: &mut Vec<Level>) -> Option<usize>
    requires polys { ArePolys ring.now levels.old.items }
    ensures same { SameSum ring.now levels.old.items levels.new.items }
    ensures none { IsNone result → all_terms levels.new.items ≡ [] }
    ensures front { IfSome result (λ k. IsFront ring.now levels.new.items k) }
{
    loop {
        match found_front(ring, levels) {
            Front::Nothing => return None,
            Front::One(k) => return Some(k),
            Front::Two(a, b) => join(ring, levels, a, b),
        }
    }
}

// What is at the front of the levels.
fn found_front(ring: &Ring, levels: &[Level]) -> Front
    requires polys { ArePolys ring.now levels.now }
    ensures { IsFound ring.now levels.now result }
{
    let order = ring.order();
    let mut best = None;
    for k in 0..levels.len() {
        if levels[k].len() == 0 {
            continue;
        }
        let Some(b) = best else {
            best = Some(k);
            continue;
        };
        match compare(&order, lead_at(levels, k), lead_at(levels, b)) {
            Ordering::Less => continue,
            Ordering::Equal => return Front::Two(b, k),
            Ordering::Greater => {}
        }
        best = Some(k);
    }
    match best {
        None => Front::Nothing,
        Some(k) => Front::One(k),
    }
}

/// The first term of a level.
pub(crate) fn lead_of(levels: &Vec<Level>, k: usize) -> Lead<'_>
    requires within { k < length levels.now.items }
    requires some { 0 < length (slice_index_or levels.now.items k []) }
    ensures { slice_get (slice_index_or levels.now.items k []) 0 ≡ Some (term result.coefficient.now result.exponents.now) }
{
    levels[k].lead()
}

// The monomial of the first term of a level.
fn lead_at(levels: &[Level], k: usize) -> &[u16]
    requires within { k < length levels.now }
    requires some { 0 < length (slice_index_or levels.now k []) }
    ensures { result.now ≡ leading_monomial (slice_index_or levels.now k []) }
{
    levels[k].first().exponents
}

// Joins the first terms of two levels, which have one monomial.
fn join(ring: &Ring, levels: &mut Vec<Level>, a: usize, b: usize)
    requires polys { ArePolys ring.now levels.old.items }
    requires tie { IsTie levels.old.items a b }
    ensures same { SameSum ring.now levels.old.items levels.new.items }
    ensures fewer { length (all_terms levels.new.items) < length (all_terms levels.old.items) }
{
    let first = levels[a].first().coefficient;
    let second = levels[b].first().coefficient;
    let sum = ring.modulus.add(first, second);
    levels[b].drop_first();
    if sum.number() == 0 {
        levels[a].drop_first();
    } else {
        levels[a].set_first(sum);
    }
}
