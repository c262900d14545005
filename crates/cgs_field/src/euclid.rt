//! The extended Euclidean algorithm.

ghost use Rattle.std.specs.Prelude.{◌≡◌, ◌*◌, ◌%◌, ◌<◌};
ghost use Rattle.cgs_field.specs.Prime.{IsPrime};

/// The inverse of `a` modulo a prime number `p`. At each turn the remainder is the factor times `a` modulo `p`, or its
/// opposite, by turns (Cox–Little–O'Shea, chapter 1, section 5, for the algorithm).
pub(crate) fn inverse_modulo(p: u32, a: u32) -> u32
    requires prime { IsPrime p }
    requires fits { p < 65536 }
    requires positive { 0 < a }
    requires below { a < p }
    ensures product { (a * result) % p ≡ 1 }
    ensures below { result < p }
{
    let (mut before, mut remainder) = (p, a);
    let (mut factor_before, mut factor) = (0, 1);
    let mut opposite = false;
    while remainder > 1 {
        let quotient = before / remainder;
        (before, remainder) = (remainder, before % remainder);
        (factor_before, factor) = (factor, factor_before + quotient * factor);
        opposite = !opposite;
    }
    if opposite { p - factor } else { factor }
}
