//! The text that is due, and the status with which it is written.

ghost use Rattle.std.specs.Prelude.{◌≡◌, ◌<◌, ◌≤◌, length, None, IfOk, IfSome};
ghost use Rattle.cgs_problem.specs.Problems.{IsProblem};
ghost use Rattle.cgs_problem.specs.Reading.{problem_spelled};
ghost use Rattle.cgs_canonical.specs.Printing.{problem_text};
ghost use Rattle.cgs_print.specs.Printing.{fault_text};
ghost use Rattle.cgs_words.specs.declared.plan.Command.TheVariants.{Discover};
ghost use Rattle.cgs_program.specs.declared.status.Status.TheVariants.{Done, Text};
ghost use Rattle.cgs_program.specs.Due.{answer, own_problem, IsThe, IsAnswer, IsReply, limit};
ghost use Rattle.cgs_program.specs.Run.{IsRefutable, MaySolve, Solves, RepliesTo, Makes};

use crate::basis::basis_reply;
use crate::discover::discovered_reply;
use crate::faults::LONG;
use crate::solve::{list_reply, located_reply};
use crate::status::Status;
use crate::stress::summary_reply;
use cgs_canonical::problem_text;
use cgs_gen::problem_of;
use cgs_io::{ReadFault, Reading, Source, read_all};
use cgs_list::ItemList;
use cgs_print::fault_text;
use cgs_problem::{Problem, Text, TextFault};
use cgs_system::Solution;
use cgs_text::{TextRefused, read_problem};
use cgs_words::{Command, Plan};
use std::alloc::{AllocError, Global};

/// The most bytes of an input.
const LIMIT: u64 = 1048576;

/// A text and the status with which it is written.
#[derive(Debug, Drop)]
pub(crate) struct Reply {
    pub text: Text,
    pub status: Status,
}

/// Why there is no reply.
#[derive(Clone, Copy, Debug, PartialEq, Eq)]
pub(crate) enum Halt {
    /// The source failed.
    Source,
    /// Memory was short.
    Memory,
}

impl From<AllocError> for Halt {
    ghost use Rattle.cgs_program.specs.declared.reply.Halt.TheVariants.{Memory};

    ghost from_gives = { λ _ e. e ≡ Memory };

    fn from(_: AllocError) -> Self {
        Halt::Memory
    }
}

/// Makes the text due: of the problem that the command makes by itself, or of what the source gives.
pub(crate) fn make_reply<S: Source, F: Fn(Plan, &Problem) -> Result<Solution, AllocError>>(
    alloc: Global,
    plan: Plan,
    source: &mut S,
    solve: &F,
) -> Result<Reply, Halt>
    requires workers { 0 < plan.workers }
    requires callable { MaySolve F.Fn solve.now }
    requires solves { Solves F.Fn solve.now }
    ensures { RepliesTo plan (S.seen source.old) (S.seen source.new) result }
{
    match own_problem(alloc, plan)? {
        Some(problem) => problem_reply(alloc, plan, &problem, solve),
        None => read_reply(alloc, plan, source, solve),
    }
}

/// The problem that the command makes by itself, without reading.
fn own_problem(alloc: Global, plan: Plan) -> Result<Option<Problem>, AllocError>
    ensures own { IfOk result (λ problem. problem ≡ own_problem plan) }
    ensures valid { IfOk result (λ problem. IfSome problem IsProblem) }
{
    match plan.command {
        Command::Check | Command::Basis | Command::Solve | Command::Locate | Command::Discover =>
            Ok(None),
        Command::Stress(number) => Ok(Some(problem_of(alloc, number)?)),
    }
}

/// Reads the source, and makes the text due.
fn read_reply<S: Source, F: Fn(Plan, &Problem) -> Result<Solution, AllocError>>(
    alloc: Global,
    plan: Plan,
    source: &mut S,
    solve: &F,
) -> Result<Reply, Halt>
    requires reads { own_problem plan ≡ None }
    requires workers { 0 < plan.workers }
    requires callable { MaySolve F.Fn solve.now }
    requires solves { Solves F.Fn solve.now }
    ensures { RepliesTo plan (S.seen source.old) (S.seen source.new) result }
{
    match read_all(alloc, source, LIMIT) {
        Ok(Reading::Whole(bytes)) => bytes_reply(alloc, plan, &bytes, solve),
        Ok(Reading::TooLong) => fault_reply(alloc, LONG),
        Err(ReadFault::Fault) => Err(Halt::Source),
        Err(ReadFault::OutOfMemory) => Err(Halt::Memory),
    }
}

/// The reply to the bytes of a text.
fn bytes_reply<F: Fn(Plan, &Problem) -> Result<Solution, AllocError>>(
    alloc: Global,
    plan: Plan,
    bytes: &[u8],
    solve: &F,
) -> Result<Reply, Halt>
    requires fits { length bytes.now ≤ limit }
    requires workers { 0 < plan.workers }
    requires callable { MaySolve F.Fn solve.now }
    requires solves { Solves F.Fn solve.now }
    ensures { Makes result (IsReply plan (problem_spelled bytes.now)) }
{
    match read_problem(alloc, bytes) {
        Ok(problem) => problem_reply(alloc, plan, &problem, solve),
        Err(TextRefused::Fault(fault)) => text_fault_reply(alloc, fault),
        Err(TextRefused::OutOfMemory) => Err(Halt::Memory),
    }
}

/// The reply to a text that spells no problem.
fn text_fault_reply(alloc: Global, fault: TextFault) -> Result<Reply, Halt>
    ensures { Makes result (IsThe (answer (fault_text fault) Text)) }
{
    let mut text = ItemList::new(alloc);
    fault_text(fault, &mut text)?;
    Ok(Reply {
        text,
        status: Status::Text,
    })
}

/// The reply that tells a fault by a line.
pub(crate) fn fault_reply(alloc: Global, line: &[u8]) -> Result<Reply, Halt>
    ensures { Makes result (IsThe (answer line.now Text)) }
{
    let mut text = ItemList::new(alloc);
    text.extend_from_slice(line)?;
    Ok(Reply {
        text,
        status: Status::Text,
    })
}

/// What the command answers for a problem.
fn problem_reply<F: Fn(Plan, &Problem) -> Result<Solution, AllocError>>(
    alloc: Global,
    plan: Plan,
    problem: &Problem,
    solve: &F,
) -> Result<Reply, Halt>
    requires problem { IsProblem problem.now }
    requires refutable { plan.command ≡ Discover → IsRefutable problem.now }
    requires workers { 0 < plan.workers }
    requires callable { MaySolve F.Fn solve.now }
    requires solves { Solves F.Fn solve.now }
    ensures { Makes result (IsAnswer plan problem.now) }
{
    match plan.command {
        Command::Check => checked(alloc, problem),
        Command::Basis => basis_reply(alloc, plan.budget, problem),
        Command::Solve => list_reply(alloc, plan, problem, solve),
        Command::Locate => located_reply(alloc, plan, problem, solve),
        Command::Discover => discovered_reply(alloc, plan, problem, solve),
        Command::Stress(number) => summary_reply(alloc, plan, number, problem, solve),
    }
}

/// The canonical text of a problem.
fn checked(alloc: Global, problem: &Problem) -> Result<Reply, Halt>
    requires { IsProblem problem.now }
    ensures { Makes result (IsThe (answer (problem_text problem.now) Done)) }
{
    let mut text = ItemList::new(alloc);
    problem_text(problem, &mut text)?;
    Ok(Reply {
        text,
        status: Status::Done,
    })
}
