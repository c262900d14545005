//! The pairs of a new member that no pair of it before them lets pass.

ghost use Rattle.std.specs.Prelude.{◌≡◌, ◌<◌, [], length, slice_index_or, IfOk};
ghost use Rattle.std.specs.List.{AllByRecursion};
ghost use Rattle.cgs_exps.specs.Monomial as monomial;
ghost use Rattle.cgs_pairs.specs.Unpassed.{AreAlike, lcm_at};
ghost use Rattle.cgs_pairs.specs.Unpassed as unpassed;

use crate::runs::lead_at;
use cgs_exps::{MAX_PLACES, Powers, coprime, divides, lcm_into};
use std::alloc::{AllocError, Global};

/// The places before one whose lcms with it are minimal, and whose leads are not coprime to that there.
pub(crate) fn places_to_queue(
    alloc: Global,
    leads: &[Powers],
    larger: usize,
) -> Result<Vec<usize>, AllocError>
    requires within { larger < length leads.now }
    requires leads { AreAlike (length (slice_index_or leads.now larger [])) leads.now }
    ensures { IfOk result (λ places. places.items ≡ unpassed.without_coprime leads.now larger (unpassed.minimal_places leads.now larger larger)) }
{
    let mut places = Vec::new(alloc);
    for i in 0..larger {
        places = with_minimal(alloc, leads, larger, i, places)?;
    }
    without_coprime(alloc, leads, larger, &places)
}

// A place put after those whose lcms with the larger one are minimal so far.
fn with_minimal(
    alloc: Global,
    leads: &[Powers],
    larger: usize,
    i: usize,
    places: Vec<usize>,
) -> Result<Vec<usize>, AllocError>
    requires within { larger < length leads.now }
    requires leads { AreAlike (length (slice_index_or leads.now larger [])) leads.now }
    requires place { i < length leads.now }
    requires places { AllByRecursion (λ k. k < length leads.now) places.items }
    ensures { IfOk result (λ kept. kept.items ≡ unpassed.with_minimal leads.now larger i places.items) }
{
    let mut room = [0; MAX_PLACES];
    let second = lead_at(leads, larger);
    let lcm = &mut room[..second.len()];
    lcm_into(lead_at(leads, i), second, lcm);
    if has_divisor_at(leads, lcm, &places) {
        return Ok(places);
    }
    let mut kept = without_multiples(alloc, leads, larger, lead_at(leads, i), &places)?;
    kept.push(i)?;
    Ok(kept)
}

// Whether the lead at one of some places divides a monomial.
fn has_divisor_at(leads: &[Powers], m: &[u16], places: &[usize]) -> bool
    requires leads { AreAlike (length m.now) leads.now }
    requires places { AllByRecursion (λ k. k < length leads.now) places.now }
    ensures { result ≡ unpassed.has_divisor_at leads.now m.now places.now }
{
    for &k in places {
        if divides(lead_at(leads, k), m) {
            return true;
        }
    }
    false
}

// The places whose lcms with the larger one are no multiples of a monomial.
fn without_multiples(
    alloc: Global,
    leads: &[Powers],
    larger: usize,
    d: &[u16],
    places: &[usize],
) -> Result<Vec<usize>, AllocError>
    requires leads { AreAlike (length d.now) leads.now }
    requires within { larger < length leads.now }
    requires places { AllByRecursion (λ k. k < length leads.now) places.now }
    ensures { IfOk result (λ kept. kept.items ≡ unpassed.without_multiples leads.now larger d.now places.now) }
{
    let mut kept = Vec::with_capacity(alloc, places.len())?;
    for &k in places {
        if !divides_lcm(leads, larger, d, k) {
            kept.push(k)?;
        }
    }
    Ok(kept)
}

// Whether a monomial divides the lcm of the leads at two places.
fn divides_lcm(leads: &[Powers], larger: usize, d: &[u16], k: usize) -> bool
    requires leads { AreAlike (length d.now) leads.now }
    requires within { larger < length leads.now }
    requires place { k < length leads.now }
    ensures { result ≡ monomial.divides d.now (lcm_at leads.now k larger) }
{
    let mut room = [0; MAX_PLACES];
    let lcm = &mut room[..d.len()];
    lcm_into(lead_at(leads, k), lead_at(leads, larger), lcm);
    divides(d, lcm)
}

// The places whose leads have something in common with that at the larger one.
fn without_coprime(
    alloc: Global,
    leads: &[Powers],
    larger: usize,
    places: &[usize],
) -> Result<Vec<usize>, AllocError>
    requires within { larger < length leads.now }
    requires leads { AreAlike (length (slice_index_or leads.now larger [])) leads.now }
    requires places { AllByRecursion (λ k. k < length leads.now) places.now }
    ensures { IfOk result (λ kept. kept.items ≡ unpassed.without_coprime leads.now larger places.now) }
{
    let second = lead_at(leads, larger);
    let mut kept = Vec::with_capacity(alloc, places.len())?;
    for &k in places {
        if !coprime(lead_at(leads, k), second) {
            kept.push(k)?;
        }
    }
    Ok(kept)
}
