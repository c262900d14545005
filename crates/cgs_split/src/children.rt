//! The children of a branch that has a basis.

ghost use Rattle.std.specs.Prelude.{◌≡◌, ◌++◌, [], IfOk, OnOk};
ghost use Rattle.std.specs.List.{AllByRecursion};
ghost use Rattle.cgs_poly.specs.Polynomial.{IsRing, ArePolys};
ghost use Rattle.cgs_poly.specs.Parameters.{IsCondition};
ghost use Rattle.cgs_algebra.specs.Stability.{other_members as others};
ghost use Rattle.cgs_dickson.specs.Dickson.{minimal_dickson as dickson};
ghost use Rattle.cgs_entry.specs.Conditions.{with_members};
ghost use Rattle.cgs_split.specs.declared.kind.BranchKind.TheVariants.{Main};
ghost use Rattle.cgs_split.specs.Cases.{case_like, IsVanishingBasis};
ghost use Rattle.cgs_split.specs.Nodes.{unit_children, split_children, children_of as children};

use crate::branch::{Branch, Vanishing};
use crate::kind::BranchKind;
use crate::lists::{other_members, parametric_members, with_condition, with_conditions};
use cgs_dickson::{coefficient_list, minimal_dickson};
use cgs_entry::{Conditions, GrowingList};
use cgs_list::Duplicate;
use cgs_poly::{PolyList, Ring};
use cgs_radical::one_alone;
use std::alloc::{AllocError, Global};

impl Branch {
    /// The children of a branch that has this basis: for each member in the parameters alone a branch where it is the first that does not
    /// vanish, one where no leading coefficient of the Dickson basis vanishes, and for each of these one where it is the first that does.
    pub(crate) fn children(
        &self,
        alloc: Global,
        basis: &PolyList,
        vanishing: &Vanishing,
    ) -> Result<Vec<Branch>, AllocError>
        requires polys { ArePolys self.now.ring basis.now }
        requires nonzero { AllByRecursion (λ g. ¬ (g ≡ [])) basis.now }
        requires kept { IsVanishingBasis self.now.ring self.now.limits.budget self.now.zero vanishing.now.basis vanishing.now.left }
        ensures { IfOk result (λ all. all.items ≡ children self.now.ring self.now basis.now (dickson self.now.ring (others self.now.ring basis.now))) }
    {
        let ring = &self.ring;
        let Conditions { zero, nonzero } = &self.conditions;
        let parametric = parametric_members(alloc, ring, basis)?;
        let other = other_members(alloc, ring, basis)?;
        let kept = minimal_dickson(alloc, ring, &other)?;
        let coefficients = coefficient_list(alloc, ring, &kept)?;
        let longer = with_conditions(alloc, ring, zero, &parametric)?;
        let standing = with_conditions(alloc, ring, nonzero, &coefficients)?;
        let mut all = Vec::new(alloc);
        self.add_units(
            alloc,
            ring,
            zero,
            nonzero,
            &parametric,
            &longer,
            vanishing,
            &mut all,
        )?;
        let main = self.main_child(&parametric, &standing, &kept, vanishing)?;
        all.push(main)?;
        self.add_splits(
            alloc,
            ring,
            nonzero,
            &parametric,
            &coefficients,
            &standing,
            &other,
            &mut all,
        )?;
        Ok(all)
    }

    // For each polynomial a branch where those before it vanish and it does not.
    fn add_units(
        &self,
        alloc: Global,
        ring: &Ring,
        zero: &PolyList,
        nonzero: &PolyList,
        parametric: &PolyList,
        longer: &PolyList,
        vanishing: &Vanishing,
        all: &mut Vec<Branch>,
    ) -> Result<(), AllocError>
        requires valid { IsRing ring.now }
        requires ring { ring.now ≡ self.now.ring }
        requires zero { AllByRecursion (IsCondition ring.now) zero.now }
        requires nonzero { AllByRecursion (IsCondition ring.now) nonzero.now }
        requires parametric { AllByRecursion (IsCondition ring.now) parametric.now }
        requires longer { with_members ring.now zero.now parametric.now ≡ longer.now }
        requires kept { IsVanishingBasis self.now.ring self.now.limits.budget self.now.zero vanishing.now.basis vanishing.now.left }
        ensures { OnOk result (all.new.items ≡ all.old.items ++ unit_children ring.now self.now zero.now nonzero.now parametric.now) }
    {
        let mut before = GrowingList::new(alloc, zero)?;
        let mut kept = self.vanishing_for(zero, vanishing)?;
        for i in 0..parametric.len() {
            let g = parametric.get(i);
            let vanish = longer.first(before.members().len())?;
            let stand = with_condition(alloc, ring, nonzero, g)?;
            let polys = one_alone(alloc, ring)?;
            before.add(alloc, ring, g)?;
            let (own, next) = self.vanishing_of_next(alloc, &vanish, &kept, before.members())?;
            all.push(self.child(BranchKind::Unit, vanish, stand, polys, own))?;
            kept = next;
        }
        Ok(())
    }

    // The branch where the members in the parameters alone vanish and no leading coefficient does.
    fn main_child(
        &self,
        parametric: &PolyList,
        standing: &PolyList,
        dickson: &PolyList,
        vanishing: &Vanishing,
    ) -> Result<Branch, AllocError>
        requires parametric { AllByRecursion (IsCondition self.now.ring) parametric.now }
        requires standing { AllByRecursion (IsCondition self.now.ring) standing.now }
        requires dickson { ArePolys self.now.ring dickson.now }
        requires kept { IsVanishingBasis self.now.ring self.now.limits.budget self.now.zero vanishing.now.basis vanishing.now.left }
        ensures { IfOk result (λ child. child ≡ case_like self.now Main parametric.now standing.now dickson.now) }
    {
        let vanish = parametric.copy()?;
        let stand = standing.copy()?;
        let polys = dickson.copy()?.shared()?;
        let kept = self.vanishing_for(&vanish, vanishing)?;
        Ok(self.child(BranchKind::Main, vanish, stand, polys, kept))
    }

    // For each leading coefficient a branch where it vanishes and those before it do not.
    fn add_splits(
        &self,
        alloc: Global,
        ring: &Ring,
        nonzero: &PolyList,
        parametric: &PolyList,
        coefficients: &PolyList,
        standing: &PolyList,
        other: &PolyList,
        all: &mut Vec<Branch>,
    ) -> Result<(), AllocError>
        requires valid { IsRing ring.now }
        requires ring { ring.now ≡ self.now.ring }
        requires nonzero { AllByRecursion (IsCondition ring.now) nonzero.now }
        requires parametric { AllByRecursion (IsCondition ring.now) parametric.now }
        requires coefficients { AllByRecursion (IsCondition ring.now) coefficients.now }
        requires standing { with_members ring.now nonzero.now coefficients.now ≡ standing.now }
        requires other { ArePolys ring.now other.now }
        ensures { OnOk result (all.new.items ≡ all.old.items ++ split_children ring.now self.now parametric.now nonzero.now other.now coefficients.now) }
    {
        let mut before = GrowingList::new(alloc, nonzero)?;
        for i in 0..coefficients.len() {
            let h = coefficients.get(i);
            let vanish = with_condition(alloc, ring, parametric, h)?;
            let stand = standing.first(before.members().len())?;
            let polys = other.copy()?;
            all.push(self.child(BranchKind::Split, vanish, stand, polys, None))?;
            before.add(alloc, ring, h)?;
        }
        Ok(())
    }
}
