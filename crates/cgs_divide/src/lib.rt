//! Division of a polynomial by a list of polynomials, with a limit on its work.
//!
//! `divide` is the run `divided`, step by step. It promises that f is the sum of quotients times divisors plus the
//! remainder, that no lead of a divisor divides a monomial of the remainder, and that whatever f is below, the remainder
//! and all multiples are below too. `remainder` is the same run for callers that throw the quotients away.
//! Below it stand polynomials (cgs_poly) and the ideals that they generate (cgs_algebra).
//! Read first `divide`, then `EndsAs` (specs/Ending), `divided` (specs/DivisionRun) and `HasDivided` (specs/Division).
#![tactic(auto)]

mod autoreduction;
mod division;
mod laws;
mod rest;
mod stop;
mod tops;

pub use autoreduction::autoreduce;
pub use division::{Division, divide, remainder, spend};
pub use laws::{
    autoreduction_examples, autoreduction_reduces, autoreduction_run_reduces, calls_answer_runs,
    division_divides, division_examples, division_keeps_lead,
};
pub use stop::Stop;

#[cfg(test)]
mod tests;
