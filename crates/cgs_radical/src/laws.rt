//! What holds of all emptiness runs. The functions do nothing.

ghost use Rattle.cgs_radical.specs.Examples.{GreatestPowerIsTooHigh, NothingIsPossible, OneAmongZeroIsEmpty, ProductIsEmpty, ZeroAmongNonzeroIsEmpty, ZeroAndNotIsEmpty, ZeroIsPossible};
ghost use Rattle.cgs_radical.specs.Laws.{ContradictionHasNoPoint, EmptyHasNoPoint, EmptyIsContradiction};

/// Conditions with 1 in the ideal of E and y*n1*..*nk - 1 have no point.
pub fn contradiction_has_no_point()
    ensures { ContradictionHasNoPoint }
{}

/// A run that ends with a result is true exactly where that is so.
pub fn empty_is_contradiction()
    ensures { EmptyIsContradiction }
{}

/// A run that ends with true is over a region with no point.
pub fn empty_has_no_point()
    ensures { EmptyHasNoPoint }
{}

/// Worked runs, each with the units that it needs.
pub fn emptiness_examples()
    ensures nothing { NothingIsPossible }
    ensures zero { ZeroIsPossible }
    ensures zero_and_not { ZeroAndNotIsEmpty }
    ensures one_among_zero { OneAmongZeroIsEmpty }
    ensures zero_among_nonzero { ZeroAmongNonzeroIsEmpty }
    ensures product { ProductIsEmpty }
    ensures greatest_power { GreatestPowerIsTooHigh }
{}
