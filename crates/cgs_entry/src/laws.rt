//! What holds of all comprehensive lists, worked examples, and lists that are none. The functions do nothing.

ghost use Rattle.cgs_entry.specs.Examples.{DividedLeadIsRefused, GapIsRefused, LineIsSolved, NoCoefficientIsRefused, OverlapIsRefused, RepeatedLeadIsRefused};
ghost use Rattle.cgs_entry.specs.Examples.{TurnedTermsAreRefused, VanishingLeadIsRefused, VariableInConditionIsRefused, WrongBasisIsRefused};
ghost use Rattle.cgs_entry.specs.Laws.{MetPointsLieInOne, OtherPointsLieInNone};

/// Each point that meets the given conditions lies in exactly one entry, any other in none.
pub fn points_lie_in_one()
    ensures met { MetPointsLieInOne }
    ensures others { OtherPointsLieInNone }
{}

/// The two entries of a*x - 1 modulo 7.
pub fn line_is_solved()
    ensures { LineIsSolved }
{}

/// Lists that are not comprehensive: with a gap, an overlap, a basis of another ideal, a leading coefficient that is 0 at a point,
/// a basis with two members of one lead, one with a lead that divides another, a basis or a condition that is no polynomial as it
/// should be.
pub fn others_are_refused()
    ensures gap { GapIsRefused }
    ensures overlap { OverlapIsRefused }
    ensures wrong_basis { WrongBasisIsRefused }
    ensures vanishing_lead { VanishingLeadIsRefused }
    ensures repeated_lead { RepeatedLeadIsRefused }
    ensures divided_lead { DividedLeadIsRefused }
    ensures no_coefficient { NoCoefficientIsRefused }
    ensures turned_terms { TurnedTermsAreRefused }
    ensures variable_in_condition { VariableInConditionIsRefused }
{}
