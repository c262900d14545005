//! Whether a pair is passed over by Buchberger's two criteria.

ghost use Rattle.std.specs.Prelude.{◌≡◌, ◌+◌, ◌*◌, ◌/◌, ◌<◌, ◌≤◌, ℕ, [], true, false, length, slice_index_or};
ghost use Rattle.std.specs.Int.{bit_at};
ghost use Rattle.cgs_poly.specs.Product.{leading_monomial, leading_coefficient};
ghost use Rattle.cgs_algebra.specs.SPolynomial.{pair_lcm};
ghost use Rattle.cgs_pairs.specs.Passed.{is_passed, AreOfOneRing, IsThirdPlace};
ghost use Rattle.cgs_pairs.specs.Passed as passed;

use crate::pair::Pair;
use crate::taken::Taken;
use cgs_exps::{MAX_PLACES, coprime, divides};
use cgs_poly::{Poly, PolyList};

/// Whether a pair of two places of a list is passed: its leads are coprime, or the lead at some third place divides
/// the lcm, and the pairs of that place with either place were taken (Becker, Weispfenning, section 5.5).
pub fn passes(pair: &Pair, members: &PolyList, taken: &Taken) -> bool
    requires ring { AreOfOneRing members.now }
    requires smaller { pair.now.smaller < length members.now }
    requires larger { pair.now.larger < length members.now }
    requires lcm { pair.now.lcm ≡ pair_lcm (slice_index_or members.now pair.now.smaller []) (slice_index_or members.now pair.now.larger []) }
    ensures { result ≡ is_passed pair.now members.now taken.now }
{
    let first = lead_of(members.get(pair.smaller));
    let second = lead_of(members.get(pair.larger));
    coprime(first, second) || has_third(pair, members, taken)
}

// Whether some place is a third one for a pair. Only those are tried whose pairs with both places were taken.
fn has_third(pair: &Pair, members: &PolyList, taken: &Taken) -> bool
    requires ring { AreOfOneRing members.now }
    requires smaller { pair.now.smaller < length members.now }
    requires larger { pair.now.larger < length members.now }
    requires lcm { pair.now.lcm ≡ pair_lcm (slice_index_or members.now pair.now.smaller []) (slice_index_or members.now pair.now.larger []) }
    ensures { result ≡ passed.has_third pair.now taken.now 0 members.now }
{
    let first = taken.partners_of(pair.smaller);
    let second = taken.partners_of(pair.larger);
    let blocks = first.len().min(second.len()).min(members.len() / 64 + 1);
    for block in 0..blocks {
        let both = first[block] & second[block];
        if has_third_in(pair, members, taken, block, both) {
            return true;
        }
    }
    false
}

// Whether a place of a block of 64 is a third one for a pair. The word has the bits of all that can be.
fn has_third_in(pair: &Pair, members: &PolyList, taken: &Taken, block: usize, word: u64) -> bool
    requires ring { AreOfOneRing members.now }
    requires smaller { pair.now.smaller < length members.now }
    requires larger { pair.now.larger < length members.now }
    requires lcm { pair.now.lcm ≡ pair_lcm (slice_index_or members.now pair.now.smaller []) (slice_index_or members.now pair.now.larger []) }
    requires within { block ≤ length members.now / 64 }
    requires bits { (i : ℕ) → i < 64 → IsThirdPlace pair.now members.now taken.now (64 * block + i) → bit_at word i ≡ 1 }
    ensures found { result ≡ true → passed.has_third pair.now taken.now 0 members.now ≡ true }
    ensures none { result ≡ false → (i : ℕ) → i < 64 → ¬ IsThirdPlace pair.now members.now taken.now (64 * block + i) }
{
    let end = members.len();
    let mut rest = word;
    while rest != 0 {
        let bit = rest.trailing_zeros();
        let k = 64 * block + bit as usize;
        if k < end && is_third(pair, k, members.get(k), taken) {
            return true;
        }
        rest &= !(1 << bit);
    }
    false
}

// Whether a place is a third one for a pair, where f stands there.
fn is_third(pair: &Pair, k: usize, f: &Poly, taken: &Taken) -> bool
    requires monic { leading_coefficient f.now ≡ 1 }
    requires same_places { length (leading_monomial f.now) ≡ length pair.now.lcm }
    requires places { length pair.now.lcm ≤ MAX_PLACES }
    ensures { result ≡ passed.is_third pair.now taken.now k f.now }
{
    k != pair.smaller
        && k != pair.larger
        && divides(lead_of(f), pair.lcm.as_slice())
        && was_taken(k, pair.smaller, taken)
        && was_taken(k, pair.larger, taken)
}

// Whether the pair of two places was taken, whichever is larger.
fn was_taken(i: usize, j: usize, taken: &Taken) -> bool
    ensures { result ≡ passed.was_taken i j taken.now }
{
    if i < j {
        taken.has(j, i)
    } else {
        taken.has(i, j)
    }
}

// The lead of a monic polynomial.
fn lead_of(f: &Poly) -> &[u16]
    requires { leading_coefficient f.now ≡ 1 }
    ensures { result.now ≡ leading_monomial f.now }
{
    f.term(0).exponents
}
