//! Which pairs are passed by the leads and the order of the pairs alone, whatever was taken before (Gebauer, Möller, 1988).

ghost use Rattle.std.specs.Prelude.{◌≡◌, ◌<◌, [], length, slice_index_or, IsTrue};
ghost use Rattle.std.specs.Ordering.{nat_cmp, is_lt, ordering_then};
ghost use Rattle.cgs_exps.specs.Monomial as monomial;
ghost use Rattle.cgs_pairs.specs.Runs.{pair_at, AreLeads};
ghost use Rattle.cgs_pairs.specs.Unpassed.{pair_between};
ghost use Rattle.cgs_pairs.specs.Unpassed as unpassed;

use crate::pair::Pair;
use crate::runs::lead_at;
use cgs_exps::{MAX_PLACES, Powers, coprime, divides, lcm_into};
use cgs_order::BlockOrder;

/// Whether a pair is passed whenever it is the least that waits.
pub(crate) fn is_ever_passed(order: &BlockOrder, leads: &[Powers], pair: &Pair) -> bool
    requires leads { AreLeads order.now leads.now }
    requires smaller { pair.now.smaller < length leads.now }
    requires larger { pair.now.larger < length leads.now }
    requires pair { pair.now ≡ pair_at leads.now pair.now.larger pair.now.smaller }
    ensures { result ≡ unpassed.is_ever_passed order.now leads.now pair.now }
{
    if coprime(lead_at(leads, pair.smaller), lead_at(leads, pair.larger)) {
        return true;
    }
    for k in 0..leads.len() {
        if is_earlier_third(order, leads, pair, k) {
            return true;
        }
    }
    false
}

// Whether a place is none of a pair's, its lead divides the lcm, and its pairs with both places come before the pair.
fn is_earlier_third(order: &BlockOrder, leads: &[Powers], pair: &Pair, k: usize) -> bool
    requires leads { AreLeads order.now leads.now }
    requires within { k < length leads.now }
    requires smaller { pair.now.smaller < length leads.now }
    requires larger { pair.now.larger < length leads.now }
    requires pair { pair.now ≡ pair_at leads.now pair.now.larger pair.now.smaller }
    ensures { result ≡ unpassed.is_earlier_third order.now leads.now pair.now k (slice_index_or leads.now k []) }
{
    k != pair.smaller
        && k != pair.larger
        && divides(lead_at(leads, k), pair.lcm.as_slice())
        && precedes(order, leads, k, pair.smaller, pair)
        && precedes(order, leads, k, pair.larger, pair)
}

// Whether the pair of two places comes before a pair whose lcm both leads divide.
fn precedes(order: &BlockOrder, leads: &[Powers], i: usize, j: usize, pair: &Pair) -> bool
    requires leads { AreLeads order.now leads.now }
    requires first { i < length leads.now }
    requires second { j < length leads.now }
    requires places { length pair.now.lcm ≡ length (slice_index_or leads.now i []) }
    requires first_divides { IsTrue (monomial.divides (slice_index_or leads.now i []) pair.now.lcm) }
    requires second_divides { IsTrue (monomial.divides (slice_index_or leads.now j []) pair.now.lcm) }
    ensures { result ≡ unpassed.precedes order.now (pair_between leads.now i j) pair.now }
{
    let mut room = [0; MAX_PLACES];
    let first = lead_at(leads, i);
    let lcm = &mut room[..first.len()];
    lcm_into(first, lead_at(leads, j), lcm);
    if *lcm != *pair.lcm.as_slice() {
        return true;
    }
    if i < j {
        return places_precede(j, i, pair);
    }
    places_precede(i, j, pair)
}

// Whether two places come before those of a pair.
fn places_precede(larger: usize, smaller: usize, pair: &Pair) -> bool
    ensures { result ≡ is_lt (ordering_then (nat_cmp larger pair.now.larger) (nat_cmp smaller pair.now.smaller)) }
{
    larger < pair.larger || (larger == pair.larger && smaller < pair.smaller)
}
