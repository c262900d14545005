//! What locating a point tells, and more so in a comprehensive list. The functions do nothing.

ghost use Rattle.cgs_locate.specs.Laws.{BasisServes, FoundIsFirst, NoneHasPoint, NowhereOutside};

/// The entry that is found is the first that has the point, and where none is found no entry has it.
pub fn first_is_found()
    ensures found { FoundIsFirst }
    ensures none { NoneHasPoint }
{}

/// A point is in no entry of a comprehensive list exactly where it violates the given conditions.
pub fn nowhere_outside()
    ensures { NowhereOutside }
{}

/// The basis at a point, unless the entry is refused, is a monic minimal Gröbner basis of what the polynomials become.
pub fn basis_serves()
    ensures { BasisServes }
{}
