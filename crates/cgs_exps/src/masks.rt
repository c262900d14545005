//! Masks of monomials: a divisor that has a place of its own is passed over without a look at the exponents.

ghost use Rattle.std.specs.Prelude.{◌≡◌, ◌<◌, ◌≤◌, length};
ghost use Rattle.cgs_exps.specs.Mask as masks;

use crate::lanes::{LANES, lanes, mask_in_lanes};
use crate::places::MAX_PLACES;

/// The number with the bit i set exactly where place i is not 0, and no other bit.
pub fn mask(a: &[u16]) -> u32
    requires { length a.now ≤ MAX_PLACES }
    ensures { result ≡ masks.mask a.now }
{
    if a.len() < LANES {
        return mask_by_place(a);
    }
    mask_by_place(&a[LANES..]) * 65536 + mask_in_lanes(lanes(a))
}

// The mask, from the last place on.
fn mask_by_place(a: &[u16]) -> u32
    requires { length a.now < LANES }
    ensures { result ≡ masks.mask a.now }
{
    let mut mask = 0;
    for i in (0..a.len()).rev() {
        mask = 2 * mask + (a[i] != 0) as u32;
    }
    mask
}

/// Whether each bit of the first mask is one of the second. Where it is not, the first monomial does not divide the
/// second, as `divisor_has_mask_within` says.
pub fn may_divide(first: u32, second: u32) -> bool
    ensures { result ≡ masks.is_within first second }
{
    first & second == first
}
