//! What the lines so far have said.

ghost use Rattle.std.specs.Prelude.{◌≤◌, length, IfOk};
ghost use Rattle.cgs_list.specs.Results.{Answers};
ghost use Rattle.cgs_problem.specs.Drafts.{line_said};
ghost use Rattle.cgs_problem.specs.Problems.{IsProblem};
ghost use Rattle.cgs_problem.specs.Reading.{taken, ended_at};
ghost use Rattle.cgs_text.specs.Refusals.{kind_told, fault_told};
ghost use Rattle.cgs_text.specs.Stages.{meaning, IsProgress};

use crate::body::take_body;
use crate::header::{Header, take_field, take_order, take_parameters, take_variables};
use crate::lines::is_passed_over;
use crate::refusal::{LineRefused, TextRefused};
use cgs_field::Modulus;
use cgs_problem::{NameList, Problem, TextFault, TextKind};
use cgs_tokens::{Format, Lexeme, Line, tokens};
use std::alloc::Global;

/// What the lines so far have said, by the line that has to come.
#[derive(Drop)]
pub(crate) enum Progress {
    /// Nothing yet: the line of the modulus comes.
    Field,
    /// The modulus: the line of the parameters comes.
    Parameters(Modulus),
    /// The parameters too: the line of the variables comes.
    Variables(Modulus, NameList),
    /// All names: the line of the term order comes.
    Order(Header),
    /// A problem, to which further lines may add.
    Body(Problem),
    /// The whole problem: no line comes.
    Ended(Problem),
}

impl Progress {
    /// Takes the next line.
    pub(crate) fn take_line(self, alloc: Global, line: &[u8]) -> Result<Progress, LineRefused>
        requires progress { IsProgress self }
        requires short { length line.now ≤ 67108864 }
        ensures said { Answers meaning kind_told result (taken (meaning self) line.now) }
        ensures progress { IfOk result IsProgress }
    {
        if is_passed_over(line) {
            return Ok(self);
        }
        if let Progress::Ended(_) = self {
            return Err(LineRefused::Kind(TextKind::After));
        }
        let list = tokens(alloc, line, Format::One)?;
        self.take_lexemes(alloc, Line::new(line, list.as_slice(), Format::One))
    }

    fn take_lexemes(self, alloc: Global, line: Line) -> Result<Progress, LineRefused>
        requires progress { IsProgress self }
        ensures said { Answers meaning kind_told result (line_said (meaning self).stage (meaning self) line.entry) }
        ensures progress { IfOk result IsProgress }
    {
        let Some((Lexeme::Name(word), rest)) = line.split_first() else {
            return Err(LineRefused::Kind(TextKind::Place));
        };
        match self {
            Progress::Field if word == b"field".as_slice() => take_field(rest),
            Progress::Parameters(modulus) if word == b"parameters".as_slice() => {
                take_parameters(alloc, modulus, rest)
            }
            Progress::Variables(modulus, parameters) if word == b"variables".as_slice() => {
                take_variables(alloc, modulus, parameters, rest)
            }
            Progress::Order(header) if word == b"order".as_slice() => {
                take_order(alloc, header, rest)
            }
            Progress::Body(problem) => take_body(alloc, word, problem, rest),
            _ => Err(LineRefused::Kind(TextKind::Place)),
        }
    }

    /// The problem, if the text ends here, before the line with this number.
    pub(crate) fn finish(self, line: u32) -> Result<Problem, TextRefused>
        requires { IsProgress self }
        ensures read { Answers (λ problem. problem) fault_told result (ended_at line (meaning self) (meaning self).stage) }
        ensures valid { IfOk result IsProblem }
    {
        match self {
            Progress::Ended(problem) => Ok(problem),
            _ => Err(TextRefused::Fault(TextFault {
                line,
                kind: TextKind::End,
            })),
        }
    }
}
