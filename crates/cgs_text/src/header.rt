//! The lines of the header.

ghost use Rattle.std.specs.Prelude.{◌≡◌, IfOk, IfSome};
ghost use Rattle.cgs_list.specs.Results.{Answers};
ghost use Rattle.cgs_field.specs.Prime.{IsModulus};
ghost use Rattle.cgs_problem.specs.Drafts as said;
ghost use Rattle.cgs_problem.specs.Problems.{IsProblem};
ghost use Rattle.cgs_text.specs.Refusals.{kind_told};
ghost use Rattle.cgs_text.specs.Stages.{meaning, IsProgress, IsHeader, AreParameters};
ghost use Rattle.cgs_text.specs.Words.{modulus_of};

use crate::names::{read_names, with_copies};
use crate::progress::Progress;
use crate::refusal::LineRefused;
use cgs_field::Modulus;
use cgs_list::ItemList;
use cgs_order::Kind;
use cgs_poly::{PolyList, Ring};
use cgs_problem::{NameList, Problem, TextKind};
use cgs_tokens::{Lexeme, Line};
use std::alloc::{AllocError, Global};

/// What the lines before the term order have said.
#[derive(Drop)]
pub(crate) struct Header {
    pub(crate) modulus: Modulus,
    pub(crate) parameters: NameList,
    pub(crate) variables: NameList,
}

/// Takes what follows `field`: one number of the table.
pub(crate) fn take_field(line: Line) -> Result<Progress, LineRefused>
    ensures said { Answers meaning kind_told result (said.field_said (meaning Progress.Field) line.entry) }
    ensures progress { IfOk result IsProgress }
{
    let Some((Lexeme::Number(number), rest)) = line.split_first() else {
        return Err(LineRefused::Kind(TextKind::Syntax));
    };
    if !rest.is_empty() {
        return Err(LineRefused::Kind(TextKind::Syntax));
    }
    let Some(modulus) = modulus_of(number) else {
        return Err(LineRefused::Kind(TextKind::Field));
    };
    Ok(Progress::Parameters(modulus))
}

/// Takes what follows `parameters`: at most eight names.
pub(crate) fn take_parameters(
    alloc: Global,
    modulus: Modulus,
    line: Line,
) -> Result<Progress, LineRefused>
    requires { IsModulus modulus }
    ensures said { Answers meaning kind_told result (said.parameters_said (meaning (Progress.Parameters modulus)) line.entry) }
    ensures progress { IfOk result IsProgress }
{
    let names = read_names(alloc, &[], 0, line)?;
    Ok(Progress::Variables(modulus, names))
}

/// Takes what follows `variables`: one to eight names, none of them a parameter.
pub(crate) fn take_variables(
    alloc: Global,
    modulus: Modulus,
    parameters: NameList,
    line: Line,
) -> Result<Progress, LineRefused>
    requires modulus { IsModulus modulus }
    requires parameters { AreParameters parameters }
    ensures said { Answers meaning kind_told result (said.variables_said (meaning (Progress.Variables modulus parameters)) line.entry) }
    ensures progress { IfOk result IsProgress }
{
    let variables = read_names(alloc, parameters.as_slice(), 1, line)?;
    Ok(Progress::Order(Header {
        modulus,
        parameters,
        variables,
    }))
}

/// Takes what follows `order`: one kind.
pub(crate) fn take_order(alloc: Global, header: Header, line: Line) -> Result<Progress, LineRefused>
    requires { IsHeader header }
    ensures said { Answers meaning kind_told result (said.order_said (meaning (Progress.Order header)) line.entry) }
    ensures progress { IfOk result IsProgress }
{
    let Some((Lexeme::Name(word), rest)) = line.split_first() else {
        return Err(LineRefused::Kind(TextKind::Syntax));
    };
    if !rest.is_empty() {
        return Err(LineRefused::Kind(TextKind::Syntax));
    }
    let Some(kind) = Kind::named(word) else {
        return Err(LineRefused::Kind(TextKind::Order));
    };
    let problem = bare_problem(alloc, header, kind)?;
    Ok(Progress::Body(problem))
}

/// The problem that has no polynomials and no points yet.
fn bare_problem(alloc: Global, header: Header, kind: Kind) -> Result<Problem, AllocError>
    requires { IsHeader header }
    ensures said { IfOk result (λ problem. meaning (Progress.Body problem) ≡ record (meaning (Progress.Order header)) { stage = said.body; kind = kind }) }
    ensures valid { IfOk result IsProblem }
{
    let ring = Ring {
        modulus: header.modulus,
        variables: header.variables.len() as u32,
        parameters: header.parameters.len() as u32,
        kind,
    };
    let names = with_copies(alloc, header.variables, header.parameters.as_slice())?;
    Ok(Problem {
        ring,
        names,
        zero: PolyList::new(alloc),
        nonzero: PolyList::new(alloc),
        polys: PolyList::new(alloc),
        thesis: None,
        points: ItemList::new(alloc),
    })
}

fn modulus_of(number: u64) -> Option<Modulus>
    ensures modulus { result ≡ modulus_of number }
    ensures table { IfSome result IsModulus }
{
    Modulus::of(u32::try_from(number).ok()?)
}
