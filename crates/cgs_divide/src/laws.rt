//! What holds of all division runs. The functions do nothing.

ghost use Rattle.std.specs.Prelude.{ℕ, Result};
ghost use Rattle.cgs_divide.specs.Laws.{AutoreductionReduces, AutoreductionRunReduces, DivisionDivides, DivisionKeepsLead};
ghost use Rattle.cgs_divide.specs.Examples.{AutoreductionExamples, DivisionExamples};
ghost use Rattle.cgs_divide.specs.Ending.{Ending, EndsAs, AnswersRun};

use crate::stop::Stop;

/// A call that ends as a run does answers what the run does, unless memory is short.
pub fn calls_answer_runs<T>()
    ensures { (run : Ending T) (units : ℕ) (result : Result T Stop) → EndsAs run units result → AnswersRun run result }
{}

/// What a run that ends with a remainder has found (Cox, Little, O'Shea, chapter 2, section 3, theorem 3).
pub fn division_divides()
    ensures { DivisionDivides }
{}

/// A division by monic polynomials keeps a lead that none of theirs divides (Cox, Little, O'Shea, chapter 2, section 7, theorem 5).
pub fn division_keeps_lead()
    ensures { DivisionKeepsLead }
{}

/// The reduced Gröbner basis from a minimal one of monic members (Cox, Little, O'Shea, chapter 2, section 7, theorem 5).
pub fn autoreduction_reduces()
    ensures { AutoreductionReduces }
{}

/// The same for a whole autoreduction that ends with a list.
pub fn autoreduction_run_reduces()
    ensures { AutoreductionRunReduces }
{}

/// A run that ends, one that has too few units, two by divisors that both divide the lead, of which the first takes it, and two
/// that end by the limit on degrees and by the units first.
pub fn division_examples()
    ensures { DivisionExamples }
{}

/// Of two members with one lead the first is kept.
pub fn autoreduction_examples()
    ensures { AutoreductionExamples }
{}
