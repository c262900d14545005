//! The text of a problem is read line by line.

ghost use Rattle.std.specs.Prelude.{◌≤◌, length, IfOk};
ghost use Rattle.cgs_list.specs.Results.{Answers};
ghost use Rattle.cgs_problem.specs.Problems.{IsProblem};
ghost use Rattle.cgs_problem.specs.Reading.{problem_spelled};
ghost use Rattle.cgs_text.specs.Refusals.{fault_told};

use crate::lines::{first_line, without_cr};
use crate::progress::Progress;
use crate::refusal::TextRefused;
use cgs_problem::Problem;
use std::alloc::Global;

/// The problem that the bytes spell. The fault is the first one, with the number of its line.
pub fn read_problem(alloc: Global, bytes: &[u8]) -> Result<Problem, TextRefused>
    requires { length bytes.now ≤ 1048576 }
    ensures spelled { Answers (λ problem. problem) fault_told result (problem_spelled bytes.now) }
    ensures valid { IfOk result IsProblem }
{
    let mut progress = Progress::Field;
    let mut rest = bytes;
    let mut number: u32 = 1;
    while !rest.is_empty() {
        let (line, after) = first_line(rest);
        match progress.take_line(alloc, without_cr(line)) {
            Ok(next) => progress = next,
            Err(refused) => return Err(refused.at_line(number)),
        }
        rest = after;
        number += 1;
    }
    progress.finish(number)
}
