//! The entries of a list.

ghost use Rattle.std.specs.Prelude.{◌≡◌, ◌↔◌, IsTrue};
ghost use Rattle.std.specs.List.{AllByRecursion};
ghost use Rattle.cgs_poly.specs.Polynomial.{IsRing};
ghost use Rattle.cgs_poly.specs.Parameters.{IsCondition};
ghost use Rattle.cgs_point.specs.Points.{IsPoint};
ghost use Rattle.cgs_entry.specs.Conditions.{IsInRegion};
ghost use Rattle.cgs_entry.specs.Entries.{is_refused};

use crate::conditions::{Conditions, all_vanish, none_vanishes};
use cgs_list::ItemList;
use cgs_path::Path;
use cgs_point::Point;
use cgs_poly::{PolyList, Ring};

/// A list of entries.
pub type EntryList = ItemList<Entry>;

/// Why an entry has no basis.
#[derive(Clone, Copy, Debug, PartialEq, Eq)]
pub enum Cause {
    /// The units of work did not suffice.
    Budget,
    /// The degree of a monomial would have been above 32767.
    Degree,
    /// The path is longer than allowed.
    Depth,
}

/// What was found for a region.
#[derive(Debug, Drop)]
pub enum EntryKind {
    /// A basis that serves at each point of the region. `tested` tells whether the search for a contradiction in the conditions
    /// came to its end.
    Solved { basis: PolyList, tested: bool },
    Refused(Cause),
}

/// A region of the parameter space, with the path of the branch that it comes from.
#[derive(Drop)]
pub struct Entry {
    pub path: Path,
    pub conditions: Conditions,
    pub kind: EntryKind,
}

impl Entry {
    /// Whether there is no basis.
    pub fn is_refused(&self) -> bool
        ensures { result ≡ is_refused self.now }
    {
        match self.kind {
            EntryKind::Solved { .. } => false,
            EntryKind::Refused(_) => true,
        }
    }

    /// Whether the region has the point.
    pub fn holds_at(&self, ring: &Ring, point: &Point) -> bool
        requires ring { IsRing ring.now }
        requires zero { AllByRecursion (IsCondition ring.now) self.now.conditions.zero }
        requires nonzero { AllByRecursion (IsCondition ring.now) self.now.conditions.nonzero }
        requires point { IsPoint ring.now point.now }
        ensures { IsTrue result ↔ IsInRegion ring.now self.now.conditions.zero self.now.conditions.nonzero point.now }
    {
        all_vanish(ring, self.conditions.zero.as_slice(), point)
            && none_vanishes(ring, self.conditions.nonzero.as_slice(), point)
    }
}
