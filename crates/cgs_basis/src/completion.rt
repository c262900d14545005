//! Completion: Buchberger's algorithm up to a Gröbner basis that need not be reduced.

ghost use Rattle.std.specs.Prelude.{◌≡◌, ◌≤◌, IfOk, OnOk};
ghost use Rattle.cgs_poly.specs.Polynomial.{IsRing, IsPoly, ArePolys};
ghost use Rattle.cgs_poly.specs.Product.{leading_coefficient};
ghost use Rattle.cgs_algebra.specs.Groebner.{AreMonic, IsGroebnerBasis};
ghost use Rattle.cgs_divide.specs.Ending.{EndsAs};
ghost use Rattle.cgs_basis.specs.BasisRun.{Completion, appended, with_generator, with_remainder, completion};
ghost use Rattle.cgs_basis.specs.Completion.{IsCompletion, StandFor};

use cgs_divide::{Stop, remainder, spend};
use cgs_pairs::{Waiting, s_polynomial};
use cgs_poly::{Poly, PolyList, Ring, is_among};
use std::alloc::{AllocError, Global};

/// A Gröbner basis of the ideal of the generators, with them at the front. A pair that is not passed costs one unit, and
/// the remainder of its S-polynomial is put at the end. The leads alone tell which pairs are passed, so none of these
/// waits. Units and errors are as for `divide`.
pub fn complete(
    alloc: Global,
    ring: &Ring,
    generators: &PolyList,
    fuel: &mut u64,
) -> Result<PolyList, Stop>
    requires ring { IsRing ring.now }
    requires polys { ArePolys ring.now generators.now }
    ensures ends { EndsAs (completion ring.now generators.now fuel.old) fuel.new result }
    ensures basis { IfOk result (λ G. IsGroebnerBasis ring.now G generators.now) }
    ensures monic { IfOk result (λ G. AreMonic ring.now G) }
    ensures polys { IfOk result (λ G. ArePolys ring.now G) }
    ensures units { fuel.new ≤ fuel.old }
{
    let mut members = PolyList::new(alloc);
    let mut queue = Waiting::new(alloc, ring.order());
    for i in 0..generators.len() {
        append_generator(alloc, ring, &mut members, &mut queue, generators.get(i))?;
    }
    while let Some(pair) = queue.take_least()? {
        spend(fuel, 1)?;
        let s = s_polynomial(
            alloc,
            ring,
            members.get(pair.smaller),
            members.get(pair.larger),
        )?;
        let rest = remainder(alloc, ring, &s, &members, fuel)?;
        append_remainder(alloc, ring, &mut members, &mut queue, &rest)?;
    }
    Ok(members)
}

// Puts a generator, made monic, at the end, unless it is 0 or is there.
fn append_generator(
    alloc: Global,
    ring: &Ring,
    members: &mut PolyList,
    queue: &mut Waiting,
    f: &Poly,
) -> Result<(), AllocError>
    requires ring { IsRing ring.now }
    requires completion { IsCompletion ring.now members.old queue.old }
    requires poly { IsPoly ring.now f.now }
    ensures state { OnOk result ((s : Completion) → StandFor ring.now s members.old queue.old → StandFor ring.now (with_generator ring.now s f.now) members.new queue.new) }
    ensures completion { OnOk result (IsCompletion ring.now members.new queue.new) }
{
    if f.len() == 0 {
        return Ok(());
    }
    let monic = Poly::monic(alloc, ring, f)?;
    if !is_among(&monic, members) {
        append(ring, members, queue, monic)?;
    }
    Ok(())
}

// Puts a remainder, made monic, at the end, unless it is 0.
fn append_remainder(
    alloc: Global,
    ring: &Ring,
    members: &mut PolyList,
    queue: &mut Waiting,
    f: &Poly,
) -> Result<(), AllocError>
    requires ring { IsRing ring.now }
    requires completion { IsCompletion ring.now members.old queue.old }
    requires poly { IsPoly ring.now f.now }
    ensures state { OnOk result ((s : Completion) → StandFor ring.now s members.old queue.old → StandFor ring.now (with_remainder ring.now s f.now) members.new queue.new) }
    ensures completion { OnOk result (IsCompletion ring.now members.new queue.new) }
{
    if f.len() == 0 {
        return Ok(());
    }
    let member = Poly::monic(alloc, ring, f)?;
    append(ring, members, queue, member)?;
    Ok(())
}

// Puts a monic polynomial at the end, and its pairs with the members before it into the queue.
fn append(
    ring: &Ring,
    members: &mut PolyList,
    queue: &mut Waiting,
    g: Poly,
) -> Result<(), AllocError>
    requires ring { IsRing ring.now }
    requires completion { IsCompletion ring.now members.old queue.old }
    requires poly { IsPoly ring.now g }
    requires lead { leading_coefficient g ≡ 1 }
    ensures state { OnOk result ((s : Completion) → StandFor ring.now s members.old queue.old → StandFor ring.now (appended ring.now s g) members.new queue.new) }
    ensures completion { OnOk result (IsCompletion ring.now members.new queue.new) }
{
    queue.append(g.term(0).exponents)?;
    members.push(g)?;
    Ok(())
}
