//! The prime fields of the table of moduli: numbers modulo p, with sum, product and inverse.
//!
//! It promises that each modulus is a prime number, and that each call is exact. Nothing stands below it, and nothing
//! takes memory or refuses. Read first `IsModulus`, `IsPrime` and `IsField` (specs/Prime).
#![tactic(auto)]

mod elem;
mod euclid;
mod law;
mod modulus;
#[cfg(test)]
mod tests;

pub use elem::Elem;
pub use law::{moduli_are_fields, moduli_are_prime};
pub use modulus::Modulus;
