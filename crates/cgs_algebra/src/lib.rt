//! Ideals of polynomials and their Gröbner bases: definitions and laws alone, with no code that a program runs.
//!
//! It promises Buchberger's criterion for monic lists, the two criteria by which a pair is passed over, that an ideal has at most one
//! reduced Gröbner basis with ascending leads, and where a Gröbner basis stays one at points of the parameters.
//! Below it stand polynomials as lists of terms (cgs_poly), the term orders (cgs_order) and monomials (cgs_exps).
//! Read first `IsMember` (specs/Combination), `IsGroebnerBasis` (specs/Groebner), `HasLcmRepresentation` (specs/SPolynomial) and
//! `IsMinimalDicksonBasis` (specs/Stability).
#![tactic(auto)]

mod laws;

pub use laws::{
    basis_is_stable, buchbergers_criterion, chain_criterion, complete_is_groebner,
    conditions_vanish, coprime_criterion, generator_is_member, groebner_generates,
    ideal_of_members, member_at_point, member_lifts, more_generators_keep_members,
    more_members_keep_representations, multiple_is_member, one_is_member, one_is_reduced,
    parametric_members_vanish, product_is_member, reduced_example, reduced_is_unique,
    s_polynomial_starts_below, same_ideal_shares_bases, sum_is_member, zero_term_is_refused,
};
