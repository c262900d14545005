//! The laws of the term orders (Cox, Little, O'Shea, chapter 2, section 2): each has an empty body and its law as contract.

ghost use Rattle.cgs_order.specs.Laws.{ComparedIsReversed, ComparedIsTransitive, ComparedIsWellFounded, EqualIsSame};

/// Any two monomials compare, and the other way round the answer is the reverse.
pub fn compared_is_reversed()
    ensures { ComparedIsReversed }
{}

/// A monomial that is smaller than a smaller one is smaller.
pub fn compared_is_transitive()
    ensures { ComparedIsTransitive }
{}

/// Of the monomials with as many places none equals another.
pub fn equal_is_same()
    ensures { EqualIsSame }
{}

/// The order has no endless descent: it can be used for induction.
pub fn compared_is_well_founded()
    ensures { ComparedIsWellFounded }
{}
