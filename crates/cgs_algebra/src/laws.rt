//! What holds of all ideals and Gröbner bases, for the proofs of the crates above. The functions do nothing.

ghost use Rattle.cgs_algebra.specs.Laws.{
  BuchbergersCriterion,
  ChainCriterion,
  CompleteIsGroebner,
  CoprimeCriterion,
  GeneratorIsMember,
  IdealOfMembers,
  MoreGeneratorsKeepMembers,
  MoreMembersKeepRepresentations,
  MultipleIsMember,
  OneIsMember,
  OneIsReduced,
  ProductIsMember,
  ReducedIsUnique,
  SPolynomialStartsBelow,
  SameIdealSharesBases,
  SumIsMember,
};
ghost use Rattle.cgs_algebra.specs.Examples.{ReducedExample, ZeroTermIsRefused};
ghost use Rattle.cgs_algebra.specs.Specialisation.{
  MemberLifts,
  MemberSpecialises,
};
ghost use Rattle.cgs_algebra.specs.Stability.{
  ConditionsVanish,
  GroebnerGenerates,
  ParametricMembersVanish,
  Stability,
};

/// A sum of members of an ideal is a member (Cox, Little, O'Shea, chapter 1, section 4, lemma 3).
pub fn sum_is_member()
    ensures { SumIsMember }
{}

/// A term times a member of an ideal is a member (Cox, Little, O'Shea, chapter 1, section 4, lemma 3).
pub fn multiple_is_member()
    ensures { MultipleIsMember }
{}

/// A polynomial times a member of an ideal is a member (Cox, Little, O'Shea, chapter 1, section 4, definition 1).
pub fn product_is_member()
    ensures { ProductIsMember }
{}

/// Each generator of an ideal is a member (Cox, Little, O'Shea, chapter 1, section 4, lemma 3).
pub fn generator_is_member()
    ensures { GeneratorIsMember }
{}

/// An ideal has in it the ideal of any of its members (Cox, Little, O'Shea, chapter 1, section 4, exercise 2).
pub fn ideal_of_members()
    ensures { IdealOfMembers }
{}

/// A member of an ideal stays one where a list is appended to the generators.
pub fn more_generators_keep_members()
    ensures { MoreGeneratorsKeepMembers }
{}

/// The pair of two members keeps its lcm representation where a list is appended to the members.
pub fn more_members_keep_representations()
    ensures { MoreMembersKeepRepresentations }
{}

/// The S-polynomial of two monic polynomials starts below the lcm of their leads (Cox, Little, O'Shea, chapter 2, section 6, lemma 5).
pub fn s_polynomial_starts_below()
    ensures { SPolynomialStartsBelow }
{}

/// Buchberger's criterion for monic lists, with lcm representations (Cox, Little, O'Shea, chapter 2, section 9, theorem 6; Becker, Weispfenning, theorem 5.64).
pub fn buchbergers_criterion()
    ensures { BuchbergersCriterion }
{}

/// The same for the ideal of any other list that a monic list generates (Cox, Little, O'Shea, chapter 2, section 7, theorem 2).
pub fn complete_is_groebner()
    ensures { CompleteIsGroebner }
{}

/// Each ideal has at most one reduced Gröbner basis (Cox, Little, O'Shea, chapter 2, section 7, theorem 5).
pub fn reduced_is_unique()
    ensures { ReducedIsUnique }
{}

/// Lists that generate one ideal have the same Gröbner bases, the same minimal and the same reduced ones.
pub fn same_ideal_shares_bases()
    ensures { SameIdealSharesBases }
{}

/// 1 is in an ideal exactly where a reduced Gröbner basis of it is the list of 1 alone (Cox, Little, O'Shea, chapter 4, section 1).
pub fn one_is_member()
    ensures { OneIsMember }
{}

/// 1 is in an ideal exactly where the list of 1 alone is a reduced Gröbner basis of it.
pub fn one_is_reduced()
    ensures { OneIsReduced }
{}

/// Buchberger's first criterion, for monic lists (Cox, Little, O'Shea, chapter 2, section 9, proposition 4; Becker, Weispfenning, lemma 5.66).
pub fn coprime_criterion()
    ensures { CoprimeCriterion }
{}

/// Buchberger's second criterion, for monic lists (Cox, Little, O'Shea, chapter 2, section 10; Becker, Weispfenning, proposition 5.70).
pub fn chain_criterion()
    ensures { ChainCriterion }
{}

/// A Gröbner basis generates the ideal (Cox, Little, O'Shea, chapter 2, section 5, corollary 6).
pub fn groebner_generates()
    ensures { GroebnerGenerates }
{}

/// What a member of an ideal becomes at a point is a member of the specialised ideal.
pub fn member_at_point()
    ensures { MemberSpecialises }
{}

/// Each member of the specialised ideal comes from a member of the ideal.
pub fn member_lifts()
    ensures { MemberLifts }
{}

/// Where the members in the parameters alone of a monic Gröbner basis are 0, so are those of the ideal (Cox, Little, O'Shea, chapter 3, section 1, theorem 2).
pub fn parametric_members_vanish()
    ensures { ParametricMembersVanish }
{}

/// Where the members in the parameters alone of a monic Gröbner basis are 0, so are the generators in the parameters alone.
pub fn conditions_vanish()
    ensures { ConditionsVanish }
{}

/// Where moreover no leading coefficient of a minimal Dickson basis of the others is 0, that becomes a minimal Gröbner basis of the
/// specialised ideal (Kalkbrener 1997; Kapur, Sun, Wang 2010, theorem 4.3).
pub fn basis_is_stable()
    ensures { Stability }
{}

/// The reduced Gröbner basis of x^2 - 1 and x*y - 1 modulo 7, in lex with x above y.
pub fn reduced_example()
    ensures { ReducedExample }
{}

/// The list of the term 0*1 alone is no Gröbner basis.
pub fn zero_term_is_refused()
    ensures { ZeroTermIsRefused }
{}
