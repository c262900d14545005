//! The levels of a sum: a multiple goes to the last one, and levels of like size become one. The memory of a list that was
//! merged is kept as a spare for the next merge.

ghost use Rattle.std.specs.Prelude.{◌≡◌, ◌<◌, ◌≤◌, ◌++◌, length, OnOk, OnErr, IfOk};
ghost use Rattle.cgs_field.specs.Prime.{IsModulus};
ghost use Rattle.cgs_terms.specs.Polynomial.{IsCanonical, HasLowDegrees, IsPoly, ArePolys, places, canonical};
ghost use Rattle.cgs_terms.specs.Product.{multiple};
ghost use Rattle.cgs_terms.specs.Merge.{changed, EachTerm};
ghost use Rattle.cgs_bucket.specs.Levels.{SameSum, IsAdded};

use crate::level::Level;
use cgs_field::Elem;
use cgs_terms::{Draft, Factor, Flat, Multiple, Once, Ring, TermList, merge};
use std::alloc::{AllocError, Global};
use std::mem;

/// Adds c times m times `g` to the levels. An error leaves their sum as it is.
pub(crate) fn add(
    alloc: Global,
    ring: &Ring,
    levels: &mut Vec<Level>,
    spare: &mut TermList,
    c: Elem,
    m: &[u16],
    g: &Flat<'_>,
) -> Result<(), AllocError>
    requires few { places ring.now ≤ 17 }
    requires modulus { IsModulus ring.now.modulus }
    requires polys { ArePolys ring.now levels.old.items }
    requires second { IsPoly ring.now g.now }
    requires positive { 0 < c }
    requires below { c < ring.now.modulus }
    requires places { length m.now ≡ places ring.now }
    requires low { HasLowDegrees (multiple c m.now g.now) }
    ensures ok { OnOk result (IsAdded ring.now levels.old.items (multiple c m.now g.now) levels.new.items) }
    ensures err { OnErr result (SameSum ring.now levels.old.items levels.new.items) }
{
    compact(alloc, ring, levels, spare)?;
    let factor = Factor {
        coefficient: c,
        exponents: m,
    };
    let n = levels.len();
    if n > 0 && levels[n - 1].len() / 3 <= g.len() {
        let sum = merged(alloc, ring, spare, &levels[n - 1].flat(), g, &factor)?;
        *spare = levels[n - 1].renew(sum);
        return Ok(());
    }
    let nothing = Flat::new(&[], &[], 0);
    let multiple = merged(alloc, ring, spare, &nothing, g, &factor)?;
    levels.push(Level::new(multiple))?;
    Ok(())
}

// Merges the last two levels as long as they are of like size. The sum stays as it is.
fn compact(
    alloc: Global,
    ring: &Ring,
    levels: &mut Vec<Level>,
    spare: &mut TermList,
) -> Result<(), AllocError>
    requires modulus { IsModulus ring.now.modulus }
    requires polys { ArePolys ring.now levels.old.items }
    ensures { SameSum ring.now levels.old.items levels.new.items }
{
    while levels.len() >= 2 {
        let n = levels.len();
        if levels[n - 2].len() / 2 > levels[n - 1].len() {
            return Ok(());
        }
        merge_last(alloc, ring, levels, spare)?;
    }
    Ok(())
}

// Makes one level of the last two. The sum stays as it is.
fn merge_last(
    alloc: Global,
    ring: &Ring,
    levels: &mut Vec<Level>,
    spare: &mut TermList,
) -> Result<(), AllocError>
    requires modulus { IsModulus ring.now.modulus }
    requires polys { ArePolys ring.now levels.old.items }
    requires two { 2 ≤ length levels.old.items }
    ensures same { SameSum ring.now levels.old.items levels.new.items }
    ensures fewer { OnOk result (length levels.new.items < length levels.old.items) }
{
    let n = levels.len();
    let sum = merged(
        alloc,
        ring,
        spare,
        &levels[n - 2].flat(),
        &levels[n - 1].flat(),
        &Once,
    )?;
    levels.truncate(n - 1);
    *spare = levels[n - 2].renew(sum);
    Ok(())
}

// The sum of `f` and the multiple of `g`, in the memory of the spare list.
fn merged<M: Multiple>(
    alloc: Global,
    ring: &Ring,
    spare: &mut TermList,
    f: &Flat<'_>,
    g: &Flat<'_>,
    by: &M,
) -> Result<TermList, AllocError>
    requires modulus { IsModulus ring.now.modulus }
    requires first { IsCanonical ring.now f.now }
    requires terms { IsCanonical ring.now g.now }
    requires can { EachTerm (M.can_multiply by.now ring.now.modulus) g.now }
    requires second { IsCanonical ring.now (changed (M.coefficient by.now ring.now.modulus) (M.monomial by.now) g.now) }
    ensures { IfOk result (λ h. h ≡ canonical ring.now (f.now ++ changed (M.coefficient by.now ring.now.modulus) (M.monomial by.now) g.now)) }
{
    let list = mem::replace(spare, TermList::new(alloc));
    let draft = Draft::reusing(list, ring.places(), f, g)?;
    merge(draft, ring, f, g, by)
}
