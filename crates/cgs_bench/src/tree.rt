//! A regular tree, whose branches one worker takes from a board: a chain, a star or a binary tree, as its numbers are.

ghost use Rattle.cgs_bench.specs.RegularTree.{regular, levels_below, levels_fall};

use cgs_board::{Job, Outcome};
use cgs_path::Path;
use cgs_worker::run_board_alone;
use std::alloc::{AllocError, Global};
use std::marker::Model;

/// A branch with so many children, and so many levels below it.
#[derive(Drop)]
struct Regular {
    width: u32,
    levels: u32,
}

impl Model for Regular {
    ghost use Rattle.std.specs.Prelude.{ℕ};

    ghost Value = { ℕ × ℕ };

    ghost view = { λ b. (b.width, b.levels) };
}

impl Job for Regular {
    type Entry = u32;

    ghost node = { regular };

    ghost height = { levels_below };

    fn node(&self, alloc: Global, _path: &Path) -> Result<Outcome<u32, Regular>, AllocError> {
        let mut children = Vec::new(alloc);
        if self.levels == 0 {
            return Ok(Outcome {
                entry: Some(0),
                children,
            });
        }
        for _ in 0..self.width {
            children.push(Regular {
                width: self.width,
                levels: self.levels - 1,
            })?;
        }
        Ok(Outcome {
            entry: None,
            children,
        })
    }

    fn copy(&self, _alloc: Global) -> Result<Regular, AllocError> {
        Ok(Regular {
            width: self.width,
            levels: self.levels,
        })
    }

    fn same(&self, other: &Regular) -> bool {
        self.width == other.width && self.levels == other.levels
    }

    ghost falls = { levels_fall };
}

/// Takes all branches of a tree, so many times.
pub(crate) fn take_trees(alloc: Global, width: u32, levels: u32, times: u32) -> Option<()> {
    for _ in 0..times {
        let board = run_board_alone(alloc, Regular { width, levels }).ok()?;
        drop(board);
    }
    Some(())
}
