//! What the second list of a merge is multiplied by on the way.

ghost use Rattle.std.specs.Prelude.{◌≡◌, ◌<◌, ◌≤◌, ◌*◌, ◌%◌, ℕ, List, length, take};
ghost use Rattle.cgs_exps.specs.Monomial.{product};
ghost use Rattle.cgs_terms.specs.Merge.{CanMultiply};

use cgs_exps::{MAX_PLACES, low_product_into};
use cgs_field::{Elem, Modulus};

/// A factor of all terms of a list.
pub trait Multiple {
    // whether a term with this coefficient and this monomial can be multiplied, modulo p
    ghost can_multiply: { Self → ℕ → ℕ → List ℕ → Type 0 };

    // what a coefficient becomes, modulo p
    ghost coefficient: { Self → ℕ → ℕ → ℕ };

    // what a monomial becomes
    ghost monomial: { Self → List ℕ → List ℕ };

    // whether `room` is prepared for a monomial
    ghost is_ready: { Self → List ℕ → List ℕ → Type 0 };

    // The coefficient of a term's multiple.
    fn times_coefficient(&self, modulus: Modulus, c: Elem, m: &[u16]) -> Elem
        requires below { c < modulus }
        requires can { can_multiply self.now modulus c m.now }
        ensures { result ≡ coefficient self.now modulus c };

    // Writes the monomial of a term's multiple into `room`, if it is a new one.
    fn prepare(&self, modulus: Modulus, c: Elem, m: &[u16], room: &mut [u16; MAX_PLACES])
        requires can { can_multiply self.now modulus c m.now }
        ensures { is_ready self.now m.now room.new };

    // The monomial of a term's multiple.
    fn times_monomial<'a>(&self, m: &'a [u16], room: &'a [u16; MAX_PLACES]) -> &'a [u16]
        requires { is_ready self.now m.now room.now }
        ensures { result.now ≡ monomial self.now m.now };
}

/// The factor 1, for a sum of two lists as they are.
pub struct Once;

impl Multiple for Once {
    ghost can_multiply = { λ once p c m. Unit {0} };

    ghost coefficient = { λ once p c. c };

    ghost monomial = { λ once m. m };

    ghost is_ready = { λ once m room. Unit {0} };

    fn times_coefficient(&self, _modulus: Modulus, c: Elem, _m: &[u16]) -> Elem {
        c
    }

    fn prepare(&self, _modulus: Modulus, _c: Elem, _m: &[u16], _room: &mut [u16; MAX_PLACES]) {}

    fn times_monomial<'a>(&self, m: &'a [u16], _room: &'a [u16; MAX_PLACES]) -> &'a [u16] {
        m
    }
}

/// A number as factor.
#[derive(Clone, Copy)]
pub struct Scalar {
    pub number: Elem,
}

impl Multiple for Scalar {
    ghost can_multiply = { λ scalar p c m. scalar.number < p };

    ghost coefficient = { λ scalar p c. (scalar.number * c) % p };

    ghost monomial = { λ scalar m. m };

    ghost is_ready = { λ scalar m room. Unit {0} };

    fn times_coefficient(&self, modulus: Modulus, c: Elem, _m: &[u16]) -> Elem {
        modulus.mul(self.number, c)
    }

    fn prepare(&self, _modulus: Modulus, _c: Elem, _m: &[u16], _room: &mut [u16; MAX_PLACES]) {}

    fn times_monomial<'a>(&self, m: &'a [u16], _room: &'a [u16; MAX_PLACES]) -> &'a [u16] {
        m
    }
}

/// A number times a monomial as factor.
#[derive(Clone, Copy)]
pub struct Factor<'a> {
    pub coefficient: Elem,
    pub exponents: &'a [u16],
}

impl<'f> Multiple for Factor<'f> {
    ghost can_multiply = { λ factor p c m. (factor.coefficient < p) × CanMultiply factor.exponents.now m };

    ghost coefficient = { λ factor p c. (factor.coefficient * c) % p };

    ghost monomial = { λ factor m. product factor.exponents.now m };

    ghost is_ready = { λ factor m room. (length m ≤ 17) × (take (length m) room ≡ product factor.exponents.now m) };

    fn times_coefficient(&self, modulus: Modulus, c: Elem, _m: &[u16]) -> Elem {
        modulus.mul(self.coefficient, c)
    }

    fn prepare(&self, _modulus: Modulus, _c: Elem, m: &[u16], room: &mut [u16; MAX_PLACES]) {
        let product = &mut room[..m.len()];
        low_product_into(self.exponents, m, product);
    }

    fn times_monomial<'a>(&self, m: &'a [u16], room: &'a [u16; MAX_PLACES]) -> &'a [u16] {
        &room[..m.len()]
    }
}
