//! Trees about as deep as the depth of 255 allows, walked on a stack of 8 KiB for each level. A walk that takes more ends the process.

ghost use Rattle.std.specs.Prelude.{ℕ};
ghost use Rattle.cgs_rows.specs.Chains.{chain, levels, chain_falls};

use crate::given::{LINE, problem_of};
use cgs_board::{Job, Outcome, entries_of};
use cgs_path::Path;
use cgs_split::Limits;
use cgs_system::solve_alone;
use cgs_text::TextRefused;
use std::alloc::{AllocError, Global};
use std::marker::Model;
use std::test::Fail;
use std::thread::Builder;

const LEVEL: usize = 8192;

/// A branch of so many levels below it, each with one child; the last has an entry.
#[derive(Drop)]
struct Chain {
    levels: u32,
}

impl Model for Chain {
    ghost use Rattle.std.specs.Prelude.{ℕ};

    ghost Value = { ℕ };

    ghost view = { λ c. c.levels };
}

impl Job for Chain {
    type Entry = u32;

    ghost node = { chain };

    ghost height = { levels };

    fn node(&self, alloc: Global, _path: &Path) -> Result<Outcome<u32, Chain>, AllocError> {
        let mut children = Vec::new(alloc);
        if self.levels == 0 {
            return Ok(Outcome {
                entry: Some(0),
                children,
            });
        }
        children.push(Chain {
            levels: self.levels - 1,
        })?;
        Ok(Outcome {
            entry: None,
            children,
        })
    }

    fn copy(&self, _alloc: Global) -> Result<Chain, AllocError> {
        Ok(Chain {
            levels: self.levels,
        })
    }

    fn same(&self, other: &Chain) -> bool {
        self.levels == other.levels
    }

    ghost falls = { chain_falls };
}

// The length of the path of the last entry of a chain.
fn chain_depth(alloc: Global, levels: u32) -> Result<usize, AllocError> {
    let entries = entries_of(alloc, &Chain { levels })?;
    Ok(entries.last().map_or(0, |entry| entry.0.depth()))
}

// The lines of a^n*x, a^(n-1)*x^2 and so on to a*x^n.
fn staircase(alloc: Global, steps: u32) -> Result<String, AllocError> {
    let mut lines = String::new(alloc);
    for i in 0..steps {
        let (power, degree) = (steps - i, i + 1);
        lines.push_str(&format!(in alloc; "poly a^{power}*x^{degree}\n")?)?;
    }
    Ok(lines)
}

// The length of the path of the last entry of a staircase. Where a^(k+1) has to vanish, a^k is the next leading coefficient, so that the
// branch on which they all vanish is split once for each step; then it has one child more.
fn staircase_depth(alloc: Global, steps: u32) -> Result<usize, TextRefused> {
    let lines = staircase(alloc, steps).map_err(|_| TextRefused::OutOfMemory)?;
    let problem = problem_of(alloc, LINE, lines.as_str())?;
    let limits = Limits {
        budget: 10000000,
        depth: 255,
    };
    let solution = solve_alone(alloc, &problem, &limits).map_err(|_| TextRefused::OutOfMemory)?;
    Ok(
        solution
            .entries
            .as_slice()
            .last()
            .map_or(0, |entry| entry.path.depth()),
    )
}

#[test]
fn walks_fit_the_stack(rt: HostRuntime) -> Result<(), Fail> {
    let alloc = rt.alloc();
    let chain = Builder::new()
        .stack_size(256 * LEVEL)
        .spawn(&rt, move || chain_depth(alloc, 256))?;
    assert_eq!(rt; chain.join(&rt), Ok(256));
    let solved = Builder::new()
        .stack_size(64 * LEVEL)
        .spawn(&rt, move || staircase_depth(alloc, 64))?;
    assert_eq!(rt; solved.join(&rt), Ok(65));
    Ok(())
}
