//! Texts read with ample memory.

use crate::{TextRefused, read_problem};
use cgs_problem::{Problem, TextFault, TextKind};
use std::alloc::Global;
use std::test::Fail;

/// Texts that spell no problem, each with its first fault.
const FAULTS: [(&str, u32, TextKind); 31] = [
    ("", 1, TextKind::End),
    ("field 9\nend\n", 1, TextKind::Field),
    ("field 7 7\n", 1, TextKind::Syntax),
    ("field x\n", 1, TextKind::Syntax),
    ("\n# field\npoly x\n", 3, TextKind::Place),
    ("field 7\nvariables x\n", 2, TextKind::Place),
    ("field 7\nparameters a +\n", 2, TextKind::Syntax),
    ("field 7\nparameters a a +\n", 2, TextKind::Name),
    ("field 7\nparameters a\nvariables x a\n", 3, TextKind::Name),
    (
        "field 7\nparameters a b c d e f g h i\n",
        2,
        TextKind::Count,
    ),
    (
        "field 7\nparameters a b c d e f g h i a\n",
        2,
        TextKind::Name,
    ),
    ("field 7\nparameters\nvariables\n", 3, TextKind::Count),
    (
        "field 7\nparameters\nvariables a23456789012345678901234567890123\n",
        3,
        TextKind::Name,
    ),
    (
        "field 7\nparameters\nvariables x\norder deglex\n",
        4,
        TextKind::Order,
    ),
    (
        "field 7\nparameters\nvariables x\norder lex\n",
        5,
        TextKind::End,
    ),
    (
        "field 7\nparameters a\nvariables x\norder lex\npoly a*z-1\nend\n",
        5,
        TextKind::Unknown,
    ),
    (
        "field 7\nparameters a\nvariables x\norder lex\nzero a*x\nend\n",
        5,
        TextKind::Variable,
    ),
    (
        "field 7\nparameters\nvariables x\norder lex\npoly 1000000000000000000\n",
        5,
        TextKind::Literal,
    ),
    (
        "field 7\nparameters\nvariables x\norder lex\npoly x=1\nfield\n",
        5,
        TextKind::Byte,
    ),
    (
        "field 7\nparameters\nvariables x\norder lex\npoly x^32768\nend\n",
        5,
        TextKind::Exponent,
    ),
    (
        "field 7\nparameters\nvariables x\norder lex\npoly x^32767*x\nend\n",
        5,
        TextKind::Degree,
    ),
    (
        "field 7\nparameters\nvariables x\norder lex\npoly x^32767*x x\nend\n",
        5,
        TextKind::Degree,
    ),
    (
        "field 7\nparameters\nvariables x\norder lex\nthesis x^32767\nend\n",
        5,
        TextKind::Degree,
    ),
    (
        "field 7\nparameters\nvariables x\norder lex\nthesis x\nthesis +\nend\n",
        6,
        TextKind::Thesis,
    ),
    (
        "field 7\nparameters\nvariables x\norder lex\npoly x+\nend\n",
        5,
        TextKind::Syntax,
    ),
    (
        "field 7\nparameters\nvariables x\norder lex\npoly\nend\n",
        5,
        TextKind::Syntax,
    ),
    (
        "field 7\nparameters a\nvariables x\norder lex\npoint 1 2 a\nend\n",
        5,
        TextKind::Syntax,
    ),
    (
        "field 7\nparameters a\nvariables x\norder lex\npoint 1 2\nend\n",
        5,
        TextKind::Count,
    ),
    (
        "field 7\nparameters a\nvariables x\norder lex\npoint\nend\n",
        5,
        TextKind::Count,
    ),
    (
        "field 7\nparameters\nvariables x\norder lex\nend end\n",
        5,
        TextKind::Syntax,
    ),
    (
        "field 7\nparameters\nvariables x\norder lex\nend\n\n# x\n=\n",
        8,
        TextKind::After,
    ),
];

/// Texts that spell a problem, with how many names, zero conditions, polynomials, points and terms it has.
const PROBLEMS: [(&str, [usize; 5]); 6] = [
    (
        "# example\r\nfield 7\r\nparameters a\r\nvariables x y\r\n\r\norder grevlex\r\npoly 10*x*y - x^2 + 3*y*x + 7*a\r\nnonzero 2*a-2\r\nzero 0\r\nend\r\n",
        [3, 1, 1, 0, 2],
    ),
    (
        "field 2\nparameters a b c d e f g h\nvariables s t u v w x y z\norder grlex\npoly a+b+c+d+e+f+g+h+s+t+u+v+w+x+y+z+1\nend\n#",
        [16, 0, 1, 0, 17],
    ),
    (
        "field 65521\nparameters\nvariables A234567890123456789012345678_123\norder lex\npoly A234567890123456789012345678_123^32767\nend",
        [1, 0, 1, 0, 1],
    ),
    (
        "field 7\nparameters poly\nvariables end\norder lex\nthesis end^32766\npoly 999999999999999998*end-000000000000000001\npoint 100000000000000000\npoint 8\nend\n",
        [2, 0, 1, 2, 2],
    ),
    (
        "field 3\nparameters\nvariables x\norder lex\npoly +x-x\npoly -2*x^0*x\npoint\nend\n \t\n",
        [1, 0, 2, 1, 1],
    ),
    (
        "field 5\nparameters a\nvariables x\norder lex\nzero a^2-a\nzero 3*a\nend\n",
        [2, 2, 0, 0, 0],
    ),
];

fn read(alloc: Global, text: &str) -> Result<Problem, TextRefused> {
    if text.len() > 1048576 {
        return Err(TextRefused::OutOfMemory);
    }
    read_problem(alloc, text.as_bytes())
}

#[test]
fn first_faults(rt: HostRuntime) -> Result<(), Fail> {
    for (text, line, kind) in FAULTS {
        match read(rt.alloc(), text) {
            Err(TextRefused::Fault(found)) => assert!(rt; found == TextFault { line, kind }),
            _ => assert!(rt; false),
        }
    }
    Ok(())
}

#[test]
fn problems(rt: HostRuntime) -> Result<(), Fail> {
    for (text, counts) in PROBLEMS {
        let Ok(problem) = read(rt.alloc(), text) else {
            return Err("no problem".into());
        };
        let mut terms: usize = 0;
        for f in problem.polys.as_slice() {
            terms = terms.saturating_add(f.len());
        }
        assert_eq!(rt; problem.names.len(), counts[0]);
        assert_eq!(rt; problem.zero.len(), counts[1]);
        assert_eq!(rt; problem.polys.len(), counts[2]);
        assert_eq!(rt; problem.points.len(), counts[3]);
        assert_eq!(rt; terms, counts[4]);
    }
    Ok(())
}
