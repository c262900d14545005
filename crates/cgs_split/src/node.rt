//! The node of a branch.

ghost use Rattle.std.specs.Prelude.{◌≡◌, ◌++◌, ℕ, Bool, [], Err, IfOk};
ghost use Rattle.std.specs.List.{AllByRecursion};
ghost use Rattle.cgs_poly.specs.Polynomial.{ArePolys};
ghost use Rattle.cgs_entry.specs.declared.entry.EntryKind.TheVariants.{Solved};
ghost use Rattle.cgs_divide.specs.Ending.{Ending, EndsAs};
ghost use Rattle.cgs_basis.specs.BasisRun.{basis_run};
ghost use Rattle.cgs_radical.specs.EmptinessRun.{emptiness_run};
ghost use Rattle.cgs_split.specs.Cases.{IsVanishingBasis};
ghost use Rattle.cgs_split.specs.NodeRun.{node_of, height_of, settled, after_basis, after_emptiness, with_basis, with_points, without_test};
ghost use Rattle.cgs_split.specs.Heights.{heights_fall};
ghost use Rattle.cgs_split.specs.Soundness.{IsGood};
ghost use Rattle.cgs_split.specs.Trees.{own_entries, IsSoundNode};

use crate::branch::{Branch, Vanishing, copy_of};
use crate::kind::BranchKind;
use cgs_basis::reduced_basis;
use cgs_board::{Job, Outcome};
use cgs_divide::Stop;
use cgs_entry::{Cause, Entry, EntryKind};
use cgs_list::Duplicate;
use cgs_path::Path;
use cgs_poly::{PolyList, are_same, joined};
use cgs_radical::{one_alone, test_empty_by};
use std::alloc::{AllocError, Global};

impl Job for Branch {
    type Entry = Entry;

    ghost node = { node_of };

    ghost height = { height_of };

    /// Where the branch is good, the regions of the entry and of the children partition its own, a basis is one of what its polynomials
    /// become at each point, and the children are good branches of the same ideal.
    fn node(&self, alloc: Global, path: &Path) -> Result<Outcome<Entry, Branch>, AllocError>
        ensures value { IfOk result (λ o. o ≡ node_of self.now path.now) }
        ensures sound { IsGood self.now.ring self.now → IfOk result (λ o. IsSoundNode self.now.ring self.now (own_entries o.0) o.1) }
    {
        let mut fuel = self.limits.budget;
        if self.is_too_deep(path) {
            return self.settled(alloc, path, EntryKind::Refused(Cause::Depth));
        }
        match self.vanishing_basis(alloc, &mut fuel) {
            Ok(basis) => self.tested(alloc, path, &Vanishing { basis, left: fuel }),
            Err(stop) => self.stopped(alloc, path, stop),
        }
    }

    fn copy(&self, _alloc: Global) -> Result<Branch, AllocError> {
        let zero = self.conditions.zero.copy()?;
        let nonzero = self.conditions.nonzero.copy()?;
        let polys = self.polys.copy()?;
        let vanishing = copy_of(&self.vanishing)?;
        Ok(self.child(self.kind, zero, nonzero, polys, vanishing))
    }

    fn same(&self, other: &Branch) -> bool {
        self.ring == other.ring
            && self.limits == other.limits
            && self.kind == other.kind
            && are_same(&self.conditions.zero, &other.conditions.zero)
            && are_same(&self.conditions.nonzero, &other.conditions.nonzero)
            && are_same(&self.polys, &other.polys)
    }

    ghost falls = { heights_fall };
}

impl Branch {
    // An entry and no child.
    fn settled(
        &self,
        alloc: Global,
        path: &Path,
        kind: EntryKind,
    ) -> Result<Outcome<Entry, Branch>, AllocError>
        ensures { IfOk result (λ node. node ≡ settled self.now path.now kind) }
    {
        let entry = self.entry(path, kind)?;
        Ok(Outcome {
            entry: Some(entry),
            children: Vec::new(alloc),
        })
    }

    // The node by the basis of the conditions that have to vanish.
    fn tested(
        &self,
        alloc: Global,
        path: &Path,
        vanishing: &Vanishing,
    ) -> Result<Outcome<Entry, Branch>, AllocError>
        requires kept { IsVanishingBasis self.now.ring self.now.limits.budget self.now.zero vanishing.now.basis vanishing.now.left }
        ensures { IfOk result (λ node. node ≡ after_emptiness self.now path.now (emptiness_run self.now.ring self.now.zero self.now.nonzero self.now.limits.budget)) }
    {
        let mut fuel = vanishing.left;
        match test_empty_by(
            alloc,
            &self.ring,
            &vanishing.basis,
            &self.conditions.nonzero,
            &mut fuel,
        ) {
            Ok(true) => Ok(Outcome {
                entry: None,
                children: Vec::new(alloc),
            }),
            Ok(false) => self.with_points(alloc, path, vanishing, fuel),
            Err(stop) => self.stopped(alloc, path, stop),
        }
    }

    // The node where the emptiness run stops.
    fn stopped(
        &self,
        alloc: Global,
        path: &Path,
        stop: Stop,
    ) -> Result<Outcome<Entry, Branch>, AllocError>
        ensures { (run : Ending Bool) (left : ℕ) → EndsAs run left (Err stop) → IfOk result (λ node. node ≡ after_emptiness self.now path.now run) }
    {
        match stop {
            Stop::Budget => self.untested(alloc, path, Cause::Budget),
            Stop::Degree => self.untested(alloc, path, Cause::Degree),
            Stop::OutOfMemory => Err(AllocError),
        }
    }

    // The node where it is not known whether the region is empty.
    fn untested(
        &self,
        alloc: Global,
        path: &Path,
        cause: Cause,
    ) -> Result<Outcome<Entry, Branch>, AllocError>
        ensures { IfOk result (λ node. node ≡ without_test self.now path.now cause) }
    {
        match self.kind {
            BranchKind::Split => self.settled(alloc, path, EntryKind::Refused(cause)),
            BranchKind::Unit | BranchKind::Main => self.solved(alloc, path, false),
        }
    }

    // The node where the polynomials are a basis.
    fn solved(
        &self,
        alloc: Global,
        path: &Path,
        tested: bool,
    ) -> Result<Outcome<Entry, Branch>, AllocError>
        ensures { IfOk result (λ node. node ≡ settled self.now path.now (Solved self.now.polys tested)) }
    {
        let basis = self.polys.copy()?;
        self.settled(alloc, path, EntryKind::Solved { basis, tested })
    }

    // The node where the region is not found empty, in the units that are left.
    fn with_points(
        &self,
        alloc: Global,
        path: &Path,
        vanishing: &Vanishing,
        units: u64,
    ) -> Result<Outcome<Entry, Branch>, AllocError>
        requires kept { IsVanishingBasis self.now.ring self.now.limits.budget self.now.zero vanishing.now.basis vanishing.now.left }
        ensures { IfOk result (λ node. node ≡ with_points self.now path.now units) }
    {
        match self.kind {
            BranchKind::Split => self.split(alloc, path, vanishing, units),
            BranchKind::Unit | BranchKind::Main => self.solved(alloc, path, true),
        }
    }

    // The node by the basis of the polynomials and the vanishing conditions.
    fn split(
        &self,
        alloc: Global,
        path: &Path,
        vanishing: &Vanishing,
        units: u64,
    ) -> Result<Outcome<Entry, Branch>, AllocError>
        requires kept { IsVanishingBasis self.now.ring self.now.limits.budget self.now.zero vanishing.now.basis vanishing.now.left }
        ensures { IfOk result (λ node. node ≡ after_basis self.now path.now (basis_run self.now.ring (self.now.polys ++ self.now.zero) units)) }
    {
        let generators = joined(alloc, &self.polys, &self.conditions.zero)?;
        let mut fuel = units;
        match reduced_basis(alloc, &self.ring, &generators, &mut fuel) {
            Ok(basis) => self.divided(alloc, path, vanishing, basis),
            Err(Stop::Budget) => self.settled(alloc, path, EntryKind::Refused(Cause::Budget)),
            Err(Stop::Degree) => self.settled(alloc, path, EntryKind::Refused(Cause::Degree)),
            Err(Stop::OutOfMemory) => Err(AllocError),
        }
    }

    // The node of a branch with this basis.
    fn divided(
        &self,
        alloc: Global,
        path: &Path,
        vanishing: &Vanishing,
        basis: PolyList,
    ) -> Result<Outcome<Entry, Branch>, AllocError>
        requires kept { IsVanishingBasis self.now.ring self.now.limits.budget self.now.zero vanishing.now.basis vanishing.now.left }
        requires polys { ArePolys self.now.ring basis }
        requires nonzero { AllByRecursion (λ g. ¬ (g ≡ [])) basis }
        ensures { IfOk result (λ node. node ≡ with_basis self.now path.now basis) }
    {
        let whole = one_alone(alloc, &self.ring)?;
        if are_same(&basis, &whole) {
            return self.settled(
                alloc,
                path,
                EntryKind::Solved {
                    basis,
                    tested: true,
                },
            );
        }
        let children = self.children(alloc, &basis, vanishing)?;
        Ok(Outcome {
            entry: None,
            children,
        })
    }
}
