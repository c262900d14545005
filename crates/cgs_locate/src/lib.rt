//! The entry of a list that holds a point, and its basis there.
//!
//! It promises the first such entry, with its basis specialised and made monic; over a comprehensive list that is a minimal Gröbner
//! basis of what the polynomials become. Below it stand entries (`cgs_entry`) and points (`cgs_point`). Read first: `located`
//! (specs/Located), `IsFirst`, `BasisServes` (specs/Laws).
#![tactic(auto)]

mod laws;
mod search;

pub use laws::{basis_serves, first_is_found, nowhere_outside};
pub use search::{Located, locate};

#[cfg(test)]
mod tests;
