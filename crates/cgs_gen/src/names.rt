//! The names of the variables and parameters.

ghost use Rattle.std.specs.Prelude.{◌≡◌, ◌≤◌, ◌++◌, IfOk};
ghost use Rattle.cgs_gen.specs.Generator.{name, variable_names, parameter_names};

use cgs_problem::{NameList, Text};
use std::alloc::{AllocError, Global};

/// x1 to xn.
pub(crate) fn variable_names(alloc: Global, links: u8) -> Result<NameList, AllocError>
    requires { links ≤ 4 }
    ensures { IfOk result (λ names. names ≡ variable_names links) }
{
    let mut names = NameList::new(alloc);
    for i in 0..links {
        names.push(name(alloc, b'x', i + 1)?)?;
    }
    Ok(names)
}

/// The names, and after them p1, q1 to pn, qn.
pub(crate) fn with_parameter_names(
    alloc: Global,
    mut names: NameList,
    links: u8,
) -> Result<NameList, AllocError>
    requires { links ≤ 4 }
    ensures { IfOk result (λ all. all ≡ names ++ parameter_names links) }
{
    for i in 0..links {
        names.push(name(alloc, b'p', i + 1)?)?;
        names.push(name(alloc, b'q', i + 1)?)?;
    }
    Ok(names)
}

// A letter and a digit.
fn name(alloc: Global, letter: u8, number: u8) -> Result<Text, AllocError>
    requires { number ≤ 9 }
    ensures { IfOk result (λ text. text ≡ name letter number) }
{
    Text::from_slice(alloc, &[letter, b'0' + number])
}
