//! A list of polynomials, which can be shared.

ghost use Rattle.std.specs.Prelude.{◌≡◌, ◌<◌, [], ◌∷◌, ◌++◌, Some, length, take, slice_get, IfOk, OnOk, OnErr};
ghost use Rattle.std.specs.Slice.Iter.{iter_rest};
ghost use Rattle.cgs_poly.specs.PolyLists.{items_of};

use crate::poly::Poly;
use cgs_list::Duplicate;
use std::alloc::{AllocError, Global};
use std::marker::Model;
use std::slice;
use std::sync::Arc;

/// A list of polynomials, in order. It has no limit of its own. Copies of a list that is shared hold the same polynomials in memory.
#[derive(Debug, Drop)]
pub struct PolyList {
    items: Items,
}

// Where the polynomials are.
#[derive(Debug, Drop)]
enum Items {
    // No other list has them.
    Own(Vec<Poly>),
    // The first so many of those that several lists have, or all where they are fewer.
    Shared { all: Arc<Vec<Poly>>, count: usize },
}

impl Model for PolyList {
    ghost use Rattle.std.specs.Prelude.{List};
    ghost use Rattle.cgs_poly.specs.Polynomial.{Term};
    ghost use Rattle.cgs_poly.specs.PolyLists.{items_of};

    ghost Value = { List (List Term) };

    ghost view = { λ list. items_of list.items };
}

impl PolyList {
    /// The empty list, which takes no memory yet.
    pub fn new(alloc: Global) -> PolyList
        ensures { result ≡ [] }
    {
        PolyList::from_vec(Vec::new(alloc))
    }

    /// The list of the polynomials of a vector.
    pub fn from_vec(items: Vec<Poly>) -> PolyList
        ensures { result ≡ items.items }
    {
        PolyList {
            items: Items::Own(items),
        }
    }

    /// The number of polynomials.
    pub fn len(&self) -> usize
        ensures { result ≡ length self.now }
    {
        self.as_slice().len()
    }

    /// The polynomial at a place, counted from 0.
    pub fn get(&self, i: usize) -> &Poly
        requires { i < length self.now }
        ensures { slice_get self.now i ≡ Some result.now }
    {
        &self.as_slice()[i]
    }

    /// All polynomials in order.
    pub fn as_slice(&self) -> &[Poly]
        ensures { result.now ≡ self.now }
    {
        match &self.items {
            Items::Own(items) => items.as_slice(),
            Items::Shared { all, count } => first_of(all.as_slice(), *count),
        }
    }

    /// The polynomials one after the other.
    pub fn iter(&self) -> slice::Iter<'_, Poly>
        ensures { iter_rest result ≡ self.now }
    {
        self.as_slice().iter()
    }

    /// Puts a polynomial at the end; a list that is shared first gets copies of its own. An error drops the polynomial.
    pub fn push(&mut self, f: Poly) -> Result<(), AllocError>
        ensures ok { OnOk result (self.new ≡ self.old ++ f ∷ []) }
        ensures err { OnErr result (self.new ≡ self.old) }
    {
        match &mut self.items {
            Items::Own(items) => {
                items.push(f)?;
            }
            Items::Shared { all, count } => {
                let alloc = *all.allocator();
                let mut items = copies(alloc, first_of(all.as_slice(), *count))?;
                items.push(f)?;
                self.items = Items::Own(items);
            }
        }
        Ok(())
    }

    /// The list, and after it copies of the items.
    pub fn extended(mut self, items: &[Poly]) -> Result<PolyList, AllocError>
        ensures { IfOk result (λ list. list ≡ self ++ items.now) }
    {
        for item in items {
            self.push(item.copy()?)?;
        }
        Ok(self)
    }

    /// The same list, shared: its copies take no memory.
    pub fn shared(self) -> Result<PolyList, AllocError>
        ensures { IfOk result (λ list. list ≡ self) }
    {
        match self.items {
            Items::Own(items) => {
                let alloc = *items.allocator();
                let count = items.len();
                let all = Arc::new(alloc, items)?;
                Ok(PolyList {
                    items: Items::Shared { all, count },
                })
            }
            Items::Shared { all, count } => Ok(PolyList {
                items: Items::Shared { all, count },
            }),
        }
    }

    /// The list of the first polynomials, so many of them, or of all where there are fewer. That of a shared list takes no memory.
    pub fn first(&self, count: usize) -> Result<PolyList, AllocError>
        ensures { IfOk result (λ list. list ≡ take count self.now) }
    {
        match &self.items {
            Items::Own(items) => {
                let first = copies(*items.allocator(), first_of(items.as_slice(), count))?;
                Ok(PolyList::from_vec(first))
            }
            Items::Shared { all, count: most } => Ok(PolyList {
                items: Items::Shared {
                    all: Arc::try_clone(all)?,
                    count: count.min(*most),
                },
            }),
        }
    }
}

impl Duplicate for PolyList {
    fn copy(&self) -> Result<PolyList, AllocError> {
        self.first(self.len())
    }
}

impl<'a> IntoIterator for &'a PolyList {
    type Item = &'a Poly;

    type IntoIter = slice::Iter<'a, Poly>;

    ghost into_iter_gives = { λ list it. iter_rest it ≡ list.now };

    fn into_iter(self) -> Self::IntoIter {
        self.iter()
    }
}

// The first so many, or all where there are fewer.
fn first_of(items: &[Poly], count: usize) -> &[Poly]
    ensures { result.now ≡ take count items.now }
{
    if count < items.len() {
        &items[..count]
    } else {
        items
    }
}

// Copies, with room for no others.
fn copies(alloc: Global, items: &[Poly]) -> Result<Vec<Poly>, AllocError>
    ensures { IfOk result (λ copies. copies.items ≡ items.now) }
{
    let mut copies = Vec::with_capacity(alloc, items.len())?;
    for item in items {
        copies.push(item.copy()?)?;
    }
    Ok(copies)
}
