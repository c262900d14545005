//! A branch: polynomials under conditions on the parameters.

ghost use Rattle.std.specs.Prelude.{◌≡◌, IfOk, IfSome};
ghost use Rattle.std.specs.List.{AllByRecursion};
ghost use Rattle.cgs_poly.specs.Polynomial.{ArePolys};
ghost use Rattle.cgs_poly.specs.Parameters.{IsCondition};
ghost use Rattle.cgs_algebra.specs.Groebner.{AreMonic};
ghost use Rattle.cgs_divide.specs.Ending.{EndsAs};
ghost use Rattle.cgs_radical.specs.EmptinessRun.{y_ring, vanishing_run};
ghost use Rattle.cgs_split.specs.Cases.{Case, IsPrepared, IsVanishingBasis, case_like};
ghost use Rattle.cgs_split.specs.NodeRun.{is_too_deep};
ghost use Rattle.cgs_split.specs.Trees.{entry_of};

use crate::kind::{BranchKind, Limits};
use cgs_divide::Stop;
use cgs_entry::{Conditions, Entry, EntryKind};
use cgs_list::Duplicate;
use cgs_path::Path;
use cgs_poly::{PolyList, Ring, are_same};
use cgs_radical::vanishing_basis;
use std::alloc::{AllocError, Global};
use std::marker::Model;

/// The basis of the conditions that have to vanish, as `test_empty` finds it, and how many of a branch's units it leaves.
#[derive(Drop)]
pub struct Vanishing {
    pub basis: PolyList,
    pub left: u64,
}

impl Duplicate for Vanishing {
    fn copy(&self) -> Result<Vanishing, AllocError> {
        let basis = self.basis.copy()?;
        Ok(Vanishing {
            basis,
            left: self.left,
        })
    }
}

/// The same, if there is one.
pub(crate) fn copy_of(vanishing: &Option<Vanishing>) -> Result<Option<Vanishing>, AllocError>
    ensures { IfOk result (λ copy. copy ≡ vanishing.now) }
{
    match vanishing {
        Some(kept) => {
            let copy = kept.copy()?;
            Ok(Some(copy))
        }
        None => Ok(None),
    }
}

/// Polynomials under conditions: the points at which they are looked at. Its polynomials are of its ring, and its conditions have no variable. The
/// basis of those that have to vanish may stand with it, where its parent has found it; no clause but its own speaks of that.
#[derive(Drop)]
pub struct Branch {
    pub ring: Ring,
    pub limits: Limits,
    pub kind: BranchKind,
    pub conditions: Conditions,
    pub polys: PolyList,
    pub vanishing: Option<Vanishing>,
}

impl Model for Branch {
    ghost use Rattle.std.specs.Prelude.{IfSome};
    ghost use Rattle.cgs_split.specs.Cases.{Case, case_of, IsPrepared, IsVanishingBasis};

    ghost Value = { Case };

    ghost view = { λ b. case_of b.ring b.limits b.kind b.conditions.zero b.conditions.nonzero b.polys };

    ghost invariant = { λ b. IsPrepared b.ring b.conditions.zero b.conditions.nonzero b.polys × IfSome b.vanishing (λ v. IsVanishingBasis b.ring b.limits.budget b.conditions.zero v.basis v.left) };
}

impl Branch {
    /// Another branch in the same ring under the same limits.
    pub(crate) fn child(
        &self,
        kind: BranchKind,
        zero: PolyList,
        nonzero: PolyList,
        polys: PolyList,
        vanishing: Option<Vanishing>,
    ) -> Branch
        requires zero { AllByRecursion (IsCondition self.now.ring) zero }
        requires nonzero { AllByRecursion (IsCondition self.now.ring) nonzero }
        requires polys { ArePolys self.now.ring polys }
        requires vanishing { IfSome vanishing (λ v. IsVanishingBasis self.now.ring self.now.limits.budget zero v.basis v.left) }
        ensures { result ≡ case_like self.now kind zero nonzero polys }
    {
        Branch {
            ring: self.ring,
            limits: self.limits,
            kind,
            conditions: Conditions { zero, nonzero },
            polys,
            vanishing,
        }
    }

    /// The basis of the conditions that have to vanish: the one that stands with the branch, or one that is found in the units.
    pub(crate) fn vanishing_basis(&self, alloc: Global, fuel: &mut u64) -> Result<PolyList, Stop>
        requires units { fuel.old ≡ self.now.limits.budget }
        ensures ends { EndsAs (vanishing_run self.now.ring self.now.zero self.now.limits.budget) fuel.new result }
        ensures monic { IfOk result (λ B. AreMonic (y_ring self.now.ring) B) }
        ensures polys { IfOk result (λ B. ArePolys (y_ring self.now.ring) B) }
    {
        match &self.vanishing {
            Some(kept) => {
                let basis = kept.basis.copy()?;
                *fuel = kept.left;
                Ok(basis)
            }
            None => {
                let basis = vanishing_basis(alloc, &self.ring, &self.conditions.zero, fuel)?;
                let shared = basis.shared()?;
                Ok(shared)
            }
        }
    }

    /// The branch's basis for a child whose conditions that have to vanish are the same.
    pub(crate) fn vanishing_for(
        &self,
        zero: &PolyList,
        vanishing: &Vanishing,
    ) -> Result<Option<Vanishing>, AllocError>
        requires { IsVanishingBasis self.now.ring self.now.limits.budget self.now.zero vanishing.now.basis vanishing.now.left }
        ensures { IfOk result (λ kept. IfSome kept (λ v. IsVanishingBasis self.now.ring self.now.limits.budget zero.now v.basis v.left)) }
    {
        if are_same(zero, &self.conditions.zero) {
            let kept = vanishing.copy()?;
            Ok(Some(kept))
        } else {
            Ok(None)
        }
    }

    /// The basis of the conditions of one unit child and that of the next, where the first may be known. If these have the same conditions it
    /// is found here.
    pub(crate) fn vanishing_of_next(
        &self,
        alloc: Global,
        zero: &PolyList,
        known: &Option<Vanishing>,
        next: &PolyList,
    ) -> Result<(Option<Vanishing>, Option<Vanishing>), AllocError>
        requires zero { AllByRecursion (IsCondition self.now.ring) zero.now }
        requires known { IfSome known.now (λ v. IsVanishingBasis self.now.ring self.now.limits.budget zero.now v.basis v.left) }
        ensures { IfOk result (λ both. IfSome both.0 (λ v. IsVanishingBasis self.now.ring self.now.limits.budget zero.now v.basis v.left) × IfSome both.1 (λ v. IsVanishingBasis self.now.ring self.now.limits.budget next.now v.basis v.left)) }
    {
        if !are_same(zero, next) {
            let kept = copy_of(known)?;
            return Ok((kept, None));
        }
        let found = match known {
            Some(_) => copy_of(known)?,
            None => self.found_vanishing(alloc, zero)?,
        };
        let again = copy_of(&found)?;
        Ok((found, again))
    }

    // The basis of conditions that have to vanish, where it is found in a branch's units.
    fn found_vanishing(
        &self,
        alloc: Global,
        zero: &PolyList,
    ) -> Result<Option<Vanishing>, AllocError>
        requires zero { AllByRecursion (IsCondition self.now.ring) zero.now }
        ensures { IfOk result (λ found. IfSome found (λ v. IsVanishingBasis self.now.ring self.now.limits.budget zero.now v.basis v.left)) }
    {
        let mut fuel = self.limits.budget;
        match vanishing_basis(alloc, &self.ring, zero, &mut fuel) {
            Ok(basis) => {
                let basis = basis.shared()?;
                Ok(Some(Vanishing { basis, left: fuel }))
            }
            Err(Stop::Budget | Stop::Degree) => Ok(None),
            Err(Stop::OutOfMemory) => Err(AllocError),
        }
    }

    /// An entry with the branch's conditions.
    pub(crate) fn entry(&self, path: &Path, kind: EntryKind) -> Result<Entry, AllocError>
        ensures { IfOk result (λ entry. entry ≡ entry_of self.now path.now kind) }
    {
        let path = path.copy()?;
        let zero = self.conditions.zero.copy()?;
        let nonzero = self.conditions.nonzero.copy()?;
        Ok(Entry {
            path,
            conditions: Conditions { zero, nonzero },
            kind,
        })
    }

    /// Whether it is to be split and has too long a path.
    pub(crate) fn is_too_deep(&self, path: &Path) -> bool
        ensures { result ≡ is_too_deep self.now path.now }
    {
        match self.kind {
            BranchKind::Split => (self.limits.depth as usize) < path.depth(),
            BranchKind::Unit | BranchKind::Main => false,
        }
    }
}
