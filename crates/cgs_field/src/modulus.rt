//! The moduli and the arithmetic modulo each of them.

ghost use Rattle.std.specs.Prelude.{◌≡◌, ◌+◌, ◌-◌, ◌*◌, ◌%◌, ◌<◌, SomeIff};
ghost use Rattle.cgs_field.specs.Prime.{IsModulus, IsPrime};
ghost use Rattle.cgs_field.specs.Inverse.{inverse};

use crate::elem::Elem;
use crate::euclid::inverse_modulo;
use std::marker::Model;

const MODULI: [u32; 13] = [2, 3, 5, 7, 11, 13, 101, 251, 257, 1009, 10007, 32003, 65521];

/// A prime number of the table, which contracts see as that number.
#[derive(Clone, Copy, Debug, PartialEq, Eq)]
pub struct Modulus {
    number: u16,
}

impl Model for Modulus {
    ghost use Rattle.std.specs.Prelude.{ℕ};
    ghost use Rattle.cgs_field.specs.Prime.{IsModulus};

    ghost Value = { ℕ };

    ghost view = { λ modulus. modulus.number };

    ghost invariant = { λ modulus. IsModulus modulus.number };

    ghost inverse = { λ n. record { number = n } };
}

impl Modulus {
    /// The modulus with this number, which is there exactly where the table has the number.
    pub fn of(p: u32) -> Option<Modulus>
        ensures { SomeIff result (IsModulus p) p }
    {
        if !MODULI.contains(&p) {
            return None;
        }
        Some(Modulus { number: p as u16 })
    }

    /// The number itself.
    pub fn value(self) -> u32
        ensures value { result ≡ self }
        ensures modulus { IsModulus self }
        ensures prime { IsPrime self }
        ensures fits { self < 65536 }
    {
        self.number as u32
    }

    /// The remainder of any number.
    pub fn of_u64(self, n: u64) -> Elem
        ensures value { result ≡ n % self }
        ensures below { result < self }
    {
        Elem::new((n % self.value() as u64) as u16)
    }

    /// The sum.
    pub fn add(self, a: Elem, b: Elem) -> Elem
        requires left { a < self }
        requires right { b < self }
        ensures value { result ≡ (a + b) % self }
        ensures below { result < self }
    {
        let p = self.value();
        let sum = a.number() as u32 + b.number() as u32;
        let reduced = if sum < p { sum } else { sum - p };
        Elem::new(reduced as u16)
    }

    /// The difference: the number that gives `a` with `b`.
    pub fn sub(self, a: Elem, b: Elem) -> Elem
        requires left { a < self }
        requires right { b < self }
        ensures value { result ≡ (a + (self - b)) % self }
        ensures back { (result + b) % self ≡ a }
        ensures below { result < self }
    {
        self.add(a, self.neg(b))
    }

    /// The product.
    pub fn mul(self, a: Elem, b: Elem) -> Elem
        requires left { a < self }
        requires right { b < self }
        ensures value { result ≡ (a * b) % self }
        ensures below { result < self }
    {
        Elem::new((a.number() as u32 * b.number() as u32 % self.value()) as u16)
    }

    /// The opposite: the number that gives 0 with `a`.
    pub fn neg(self, a: Elem) -> Elem
        requires { a < self }
        ensures value { result ≡ (self - a) % self }
        ensures back { (result + a) % self ≡ 0 }
        ensures below { result < self }
    {
        if a.number() == 0 {
            return a;
        }
        Elem::new((self.value() - a.number() as u32) as u16)
    }

    /// The number whose product with `a` is 1.
    pub fn inverse(self, a: Elem) -> Elem
        requires positive { 0 < a }
        requires below { a < self }
        ensures value { result ≡ inverse self a }
        ensures product { (a * result) % self ≡ 1 }
        ensures below { result < self }
    {
        Elem::new(inverse_modulo(self.value(), a.number() as u32) as u16)
    }
}
