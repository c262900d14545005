//! Why a polynomial could not be made.

ghost use Rattle.std.specs.Prelude.{◌≡◌};
ghost use Rattle.cgs_poly.specs.declared.fault.PolyFault.TheVariants.{OutOfMemory};

use std::alloc::AllocError;

/// Why a polynomial could not be made.
#[derive(Clone, Copy, Debug, PartialEq, Eq, thiserror::Error)]
pub enum PolyFault {
    /// The degree of a monomial is above 32767.
    #[error("the degree of a monomial is above 32767")]
    Degree,
    /// No memory is left.
    #[error("out of memory")]
    OutOfMemory,
}

impl From<AllocError> for PolyFault {
    ghost from_gives = { λ _ fault. fault ≡ OutOfMemory };

    fn from(_error: AllocError) -> PolyFault {
        PolyFault::OutOfMemory
    }
}
