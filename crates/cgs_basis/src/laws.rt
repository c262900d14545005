//! What holds of all completions and basis runs. The functions do nothing.

ghost use Rattle.cgs_basis.specs.Laws.{BasisIsReduced, CompletionIsGroebner};
ghost use Rattle.cgs_basis.specs.Examples.{BasisExamples};

/// What a completion that ends has found (Cox, Little, O'Shea, chapter 2, section 7, theorem 2).
pub fn completion_is_groebner()
    ensures { CompletionIsGroebner }
{}

/// What a basis run that ends has found (Cox, Little, O'Shea, chapter 2, section 7, theorem 5).
pub fn basis_is_reduced()
    ensures { BasisIsReduced }
{}

/// Runs that end with their last unit, and the same with one unit too few; one that ends by the limit on degrees.
pub fn basis_examples()
    ensures { BasisExamples }
{}
