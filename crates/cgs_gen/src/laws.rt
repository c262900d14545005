//! A worked problem. The function does nothing.

ghost use Rattle.cgs_gen.specs.Generator.{FirstProblem};

/// The problem of 0 has 71*p1*x1 + 57*q1*x2 and 70*p2*x2 + 71*q2.
pub fn first_problem()
    ensures { FirstProblem }
{}
