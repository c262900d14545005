//! The laws of masks: each has an empty body and its law as contract.

ghost use Rattle.cgs_exps.specs.Mask.{DivisorHasMaskWithin, MaskHasBits};

/// A mask has the bits of the places that are not 0, and no other.
pub fn mask_has_bits()
    ensures { MaskHasBits }
{}

/// A monomial whose mask has a bit that another's lacks does not divide it.
pub fn divisor_has_mask_within()
    ensures { DivisorHasMaskWithin }
{}
