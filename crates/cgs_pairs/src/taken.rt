//! The pairs that were taken.

ghost use Rattle.std.specs.Prelude.{◌≡◌, ◌++◌, ℕ, [], ◌∷◌, true, OnOk, OnErr};
ghost use Rattle.cgs_pairs.specs.Passed.{has_pair, was_taken};
ghost use Rattle.cgs_pairs.specs.Table.{is_marked};

use crate::table::Table;
use std::alloc::{AllocError, Global};
use std::marker::Model;

/// The pairs of places that were taken, which contracts see as the list of those noted: each as its larger and its
/// smaller place.
#[derive(Drop)]
pub struct Taken {
    pairs: Vec<(usize, usize)>,
    // in the row of each larger place the smaller places of its pairs
    smaller: Table,
    // in the row of each place the other places of its pairs
    partners: Table,
}

impl Model for Taken {
    ghost use Rattle.std.specs.Prelude.{List, ℕ};
    ghost use Rattle.cgs_pairs.specs.Table.{IsTable, ArePartners};

    ghost Value = { List (ℕ × ℕ) };

    ghost view = { λ taken. taken.pairs.items };

    ghost invariant = { λ taken. record {
      smaller : IsTable taken.smaller taken.pairs.items;
      partners : ArePartners taken.partners taken.pairs.items;
    } };
}

impl Taken {
    /// No pairs, which take no memory yet.
    pub fn new(alloc: Global) -> Taken
        ensures { result ≡ [] }
    {
        Taken {
            pairs: Vec::new(alloc),
            smaller: Table::new(alloc),
            partners: Table::new(alloc),
        }
    }

    /// Puts a pair at the end.
    pub fn note(&mut self, larger: usize, smaller: usize) -> Result<(), AllocError>
        ensures ok { OnOk result (self.new ≡ self.old ++ (larger, smaller) ∷ []) }
        ensures err { OnErr result (self.new ≡ self.old) }
    {
        self.smaller.reach(larger, smaller)?;
        self.partners.reach(larger, smaller)?;
        self.partners.reach(smaller, larger)?;
        self.pairs.push((larger, smaller))?;
        self.smaller.mark(larger, smaller);
        self.partners.mark(larger, smaller);
        self.partners.mark(smaller, larger);
        Ok(())
    }

    /// Whether the pair is in the list.
    pub fn has(&self, larger: usize, smaller: usize) -> bool
        ensures { result ≡ has_pair larger smaller self.now }
    {
        self.smaller.has(larger, smaller)
    }

    /// Words of marks for the places whose pairs with a place were taken.
    pub(crate) fn partners_of(&self, place: usize) -> &[u64]
        ensures { (k : ℕ) → was_taken k place self.now ≡ true → is_marked result.now k ≡ true }
    {
        self.partners.words(place)
    }
}
