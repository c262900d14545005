//! The reduced Gröbner basis of an ideal.

ghost use Rattle.std.specs.Prelude.{◌≡◌, ◌≤◌, List, IfOk};
ghost use Rattle.cgs_poly.specs.Polynomial.{Term, IsRing, ArePolys};
ghost use Rattle.cgs_algebra.specs.Groebner.{IsReduced, IsAscending};
ghost use Rattle.cgs_divide.specs.Ending.{EndsAs};
ghost use Rattle.cgs_basis.specs.BasisRun.{basis_run};

use crate::completion::complete;
use cgs_divide::{Stop, autoreduce};
use cgs_poly::{PolyList, Ring};
use std::alloc::Global;

/// The reduced Gröbner basis of the ideal of the generators, with ascending leads: a completion, and its autoreduction in
/// the units that are left. Units and errors are as for `divide`.
pub fn reduced_basis(
    alloc: Global,
    ring: &Ring,
    generators: &PolyList,
    fuel: &mut u64,
) -> Result<PolyList, Stop>
    requires ring { IsRing ring.now }
    requires polys { ArePolys ring.now generators.now }
    ensures ends { EndsAs (basis_run ring.now generators.now fuel.old) fuel.new result }
    ensures reduced { IfOk result (λ R. IsReduced ring.now R generators.now) }
    ensures ascending { IfOk result (λ R. IsAscending ring.now R) }
    ensures unique { IfOk result (λ R. (S : List (List Term)) → IsReduced ring.now S generators.now → IsAscending ring.now S → S ≡ R) }
    ensures polys { IfOk result (λ R. ArePolys ring.now R) }
    ensures units { fuel.new ≤ fuel.old }
{
    let members = complete(alloc, ring, generators, fuel)?;
    let basis = autoreduce(alloc, ring, &members, fuel)?;
    Ok(basis)
}
