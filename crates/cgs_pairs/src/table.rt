//! Tables of places that are marked.

ghost use Rattle.std.specs.Prelude.{◌≡◌, ◌<◌, ℕ, [], ◌==◌, ◌&&◌, ◌||◌, vec_len, slice_index_or, OnOk};
ghost use Rattle.cgs_pairs.specs.Table.{is_marked_in, HasRoom};

use crate::marks::Marks;
use std::alloc::{AllocError, Global};
use std::marker::Model;

/// A row of marks for each place; a row past the end has none.
#[derive(Drop)]
pub(crate) struct Table {
    rows: Vec<Marks>,
}

impl Model for Table {
    ghost use Rattle.std.specs.Prelude.{List, ℕ};

    ghost Value = { List (List ℕ) };

    ghost view = { λ table. table.rows.items };
}

impl Table {
    /// Nothing is marked.
    pub(crate) fn new(alloc: Global) -> Table
        ensures { result ≡ [] }
    {
        Table {
            rows: Vec::new(alloc),
        }
    }

    /// Makes room for the mark of a place in a row.
    pub(crate) fn reach(&mut self, row: usize, place: usize) -> Result<(), AllocError>
        ensures ok { OnOk result (HasRoom self.new row place) }
        ensures room { (i k : ℕ) → HasRoom self.old i k → HasRoom self.new i k }
        ensures same { (i k : ℕ) → is_marked_in self.new i k ≡ is_marked_in self.old i k }
    {
        reach_row(*self.rows.allocator(), &mut self.rows, row)?;
        self.rows[row].reach(place)
    }

    /// Marks a place in a row.
    pub(crate) fn mark(&mut self, row: usize, place: usize)
        requires { HasRoom self.old row place }
        ensures room { (i k : ℕ) → HasRoom self.old i k → HasRoom self.new i k }
        ensures marked { (i k : ℕ) → is_marked_in self.new i k ≡ ((row == i && place == k) || is_marked_in self.old i k) }
    {
        self.rows[row].mark(place);
    }

    /// Whether a place is marked in a row.
    pub(crate) fn has(&self, row: usize, place: usize) -> bool
        ensures { result ≡ is_marked_in self.now row place }
    {
        row < self.rows.len() && self.rows[row].has(place)
    }

    /// The words of a row.
    pub(crate) fn words(&self, row: usize) -> &[u64]
        ensures { result.now ≡ slice_index_or self.now row [] }
    {
        match self.rows.get(row) {
            Some(marks) => marks.words(),
            None => &[],
        }
    }
}

// Makes a row for a place, and for the places before it.
fn reach_row(alloc: Global, rows: &mut Vec<Marks>, row: usize) -> Result<(), AllocError>
    ensures ok { OnOk result (row < vec_len rows.new) }
    ensures same { (i : ℕ) → slice_index_or rows.new.items i [] ≡ slice_index_or rows.old.items i [] }
{
    while rows.len() <= row {
        rows.push(Marks::new(alloc))?;
    }
    Ok(())
}
