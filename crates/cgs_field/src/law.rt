//! What the moduli of the table are.

ghost use Rattle.cgs_field.specs.Prime.{IsModulus, IsPrime, IsField};
ghost use Rattle.std.specs.Prelude.{ℕ};

/// Each modulus of the table is a prime number.
pub fn moduli_are_prime()
    ensures { (p : ℕ) → IsModulus p → IsPrime p }
{}

/// The numbers modulo each modulus of the table are a field.
pub fn moduli_are_fields()
    ensures { (p : ℕ) → IsModulus p → IsField p }
{}
