//! What holds of all reductions and cases, and worked runs. The functions do nothing.

ghost use Rattle.cgs_member.specs.Examples.{CasesExamples};
ghost use Rattle.cgs_member.specs.Laws.{CasesDecide, ReductionReduces};

/// A reduction that ends has found a remainder of f at each point where the basis serves.
pub fn reduction_reduces()
    ensures { ReductionReduces }
{}

/// At each point of a solved entry's region f is in the ideal exactly where all cases vanish.
pub fn cases_decide()
    ensures { CasesDecide }
{}

/// Cases over lines, over 1, 0 and no polynomial; two members that both divide, of which the first is taken; a remainder that a later
/// step multiplies; and runs that end by the units and by the limit on degrees.
pub fn cases_examples()
    ensures { CasesExamples }
{}
