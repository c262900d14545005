//! Monomials as slices of exponents: degree, divisibility, product, quotient, least common multiple.
//!
//! It stands on `cgs_list`. It promises that each call is the operation place by place, and that a product or an owned
//! monomial is refused exactly where its degree exceeds `MAX_DEGREE`; that a mask shows which places are not 0, and rules
//! divisors out. Read first: `degree`, `product`, `divides` (specs/Monomial) and `mask` (specs/Mask).
#![tactic(auto)]

mod lanes;
mod laws;
mod masks;
mod owned;
mod places;

pub use laws::{divisor_has_mask_within, mask_has_bits};
pub use masks::{mask, may_divide};
pub use owned::{Exps, ExpsFault, Powers};
pub use places::{
    DegreeFault, MAX_DEGREE, MAX_PLACES, coprime, degree, divides, lcm_into, low_product_into,
    product_into, quotient_into,
};

#[cfg(test)]
mod tests;
